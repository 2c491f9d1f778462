//! The processors that a class stands for.
ghost use Rattle.std.specs.Prelude.{◌≡◌, ◌≤◌};
ghost use Rattle.fmp_base.specs.Names.{name_text};
ghost use Rattle.fmp_cfgparse.specs.Apis.{class_of};

/// The processors of a class: the place of the initial one, and whether it is the only one allowed.
#[derive(Clone, Copy)]
pub struct ClassProcessors {
    pub processor: u8,
    pub only: bool,
}

/// The class of a name, given the number of processors.
pub(crate) fn find_class(processors: u8, name: &[u8]) -> Option<ClassProcessors>
    requires { processors ≤ 8 }
    ensures { result ≡ class_of processors name.now }
{
    let digit = match name.get(4) {
        Some(digit) => *digit,
        None => 0,
    };
    if digit < b'1' || digit > b'0' + processors {
        return None;
    }
    let processor = digit - b'1';
    if name == [b'T', b'C', b'L', b'_', digit].as_slice() {
        return Some(ClassProcessors {
            processor,
            only: false,
        });
    }
    if name == [b'T', b'C', b'L', b'_', digit, b'_', b'O', b'N', b'L', b'Y'].as_slice() {
        return Some(ClassProcessors {
            processor,
            only: true,
        });
    }
    None
}
