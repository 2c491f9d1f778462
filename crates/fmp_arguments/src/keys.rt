//! The keys of settings, and what their values are.
ghost use Rattle.std.specs.Prelude.{◌≡◌};
ghost use Rattle.fmp_arguments.specs.Settings.{kind_of};

/// The name of a file of settings.
pub const SETTINGS: &str = "fmp.toml";

/// What the values of a key are.
#[derive(Clone, Copy)]
pub enum ValueKind {
    /// `true` or `false`.
    Flag,
    /// One of these words.
    OneOf(&'static [&'static str]),
    /// A number: the lowest, and the highest.
    Number(u64, u64),
    /// The name of a file, from the folder of the settings on.
    File,
    /// A list of texts.
    Texts,
}

/// A key of settings: the name of the option that it is for, and what its values are.
pub struct Key {
    pub name: &'static str,
    pub kind: ValueKind,
}

/// The keys.
pub static KEYS: &[Key] = &[
    Key {
        name: "all",
        kind: ValueKind::Flag,
    },
    Key {
        name: "alone",
        kind: ValueKind::Texts,
    },
    Key {
        name: "answers",
        kind: ValueKind::Flag,
    },
    Key {
        name: "bound",
        kind: ValueKind::Number(1, 1 << 48),
    },
    Key {
        name: "events",
        kind: ValueKind::Number(1, 1 << 20),
    },
    Key {
        name: "every-tick",
        kind: ValueKind::Number(0, (1 << 32) - 1),
    },
    Key {
        name: "expect",
        kind: ValueKind::File,
    },
    Key {
        name: "gap",
        kind: ValueKind::Texts,
    },
    Key {
        name: "int",
        kind: ValueKind::Texts,
    },
    Key {
        name: "ints",
        kind: ValueKind::Number(0, 255),
    },
    Key {
        name: "junit",
        kind: ValueKind::File,
    },
    Key {
        name: "never",
        kind: ValueKind::Texts,
    },
    Key {
        name: "out",
        kind: ValueKind::File,
    },
    Key {
        name: "queued",
        kind: ValueKind::Number(0, 255),
    },
    Key {
        name: "rest",
        kind: ValueKind::Texts,
    },
    Key {
        name: "seeds",
        kind: ValueKind::Number(1, (1 << 32) - 1),
    },
    Key {
        name: "states",
        kind: ValueKind::Number(1, 1 << 31),
    },
    Key {
        name: "strict",
        kind: ValueKind::Flag,
    },
    Key {
        name: "ticks",
        kind: ValueKind::OneOf(&["any", "idle"]),
    },
    Key {
        name: "time",
        kind: ValueKind::Number(1, 1 << 31),
    },
];

/// What the values of the key of this name are.
pub fn kind_of(keys: &[Key], name: &str) -> Option<ValueKind>
    ensures { result ≡ kind_of keys.now name.now }
{
    for key in keys {
        if key.name == name {
            return Some(key.kind);
        }
    }
    None
}
