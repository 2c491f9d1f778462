//! Nodes as bytes.
ghost use Rattle.std.specs.Prelude.{◌≡◌, ◌<◌, ◌^◌, IfSome};

/// A node whose number has one byte, as a byte.
pub fn as_byte(node: Option<u16>) -> Option<u8>
    requires { IfSome node (λ x. x < 2 ^ 8) }
    ensures { result ≡ node }
{
    match node {
        Some(x) => Some(x as u8),
        None => None,
    }
}
