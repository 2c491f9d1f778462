//! The fields of the static APIs: what each is called, and the range of its value.
use fmp_lex::{Api, Constant};

/// A field of a static API.
#[derive(Clone, Copy, PartialEq, Eq)]
pub enum Field {
    Name,
    InterruptNumber,
    Attribute,
    ExtendedInformation,
    Entry,
    Priority,
    StackSize,
    Null,
    InitialCount,
    GreatestCount,
    InitialPattern,
    Capacity,
    GreatestMessagePriority,
    MessagePriority,
    SharedWord,
    Period,
    Phase,
}

/// The names of the fields in a sentence, in order.
static FIELD_NAMES: [&str; 17] = [
    "name",
    "interrupt number",
    "attribute",
    "extended information",
    "entry",
    "priority",
    "stack size",
    "`NULL`",
    "initial count",
    "greatest count",
    "initial pattern",
    "capacity",
    "greatest message priority",
    "message priority",
    "first value of the word",
    "period",
    "phase",
];

impl Field {
    /// The name of the field in a sentence.
    pub fn called(self) -> &'static str {
        FIELD_NAMES[self as usize]
    }

    /// Whether the field is a name, and no value.
    pub fn is_name(self) -> bool {
        matches!(self, Field::Name | Field::Entry)
    }

    /// Whether the field is a value.
    pub fn is_value(self) -> bool {
        !self.is_name() && self != Field::Null
    }

    /// The least and the greatest value, where the range does not depend on another field or on the API.
    pub fn range(self) -> Option<(i32, i32)> {
        match self {
            Field::InterruptNumber => Some((1, 32)),
            Field::Priority | Field::GreatestMessagePriority | Field::MessagePriority => {
                Some((1, 16))
            }
            Field::StackSize => Some((1, 65_536)),
            Field::GreatestCount => Some((1, 65_535)),
            Field::InitialPattern => Some((0, 65_535)),
            Field::Capacity => Some((0, 255)),
            Field::Period => Some((1, 1_073_741_824)),
            Field::Phase => Some((0, 1_073_741_824)),
            _ => None,
        }
    }
}

/// The fields of a static API in order of text: the first, and those of the packet.
pub fn fields_of(api: Api) -> &'static [Field] {
    match api {
        Api::CreTsk => &[
            Field::Name,
            Field::Attribute,
            Field::ExtendedInformation,
            Field::Entry,
            Field::Priority,
            Field::StackSize,
            Field::Null,
        ],
        Api::CreSem => &[
            Field::Name,
            Field::Attribute,
            Field::InitialCount,
            Field::GreatestCount,
        ],
        Api::CreFlg => &[Field::Name, Field::Attribute, Field::InitialPattern],
        Api::CreDtq => &[Field::Name, Field::Attribute, Field::Capacity, Field::Null],
        Api::CreMbx => &[
            Field::Name,
            Field::Attribute,
            Field::GreatestMessagePriority,
            Field::Null,
        ],
        Api::CreMsg => &[Field::Name, Field::MessagePriority],
        Api::CreShr => &[Field::Name, Field::SharedWord],
        Api::CreSpn => &[Field::Name, Field::Attribute],
        Api::CreCyc => &[
            Field::Name,
            Field::Attribute,
            Field::ExtendedInformation,
            Field::Entry,
            Field::Period,
            Field::Phase,
        ],
        Api::DefInh => &[Field::InterruptNumber, Field::Attribute, Field::Entry],
    }
}

/// The values that the attribute of a static API may have.
pub fn attributes_of(api: Api) -> &'static str {
    match api {
        Api::CreTsk => "0 or `TA_ACT`",
        Api::CreSem | Api::CreDtq => "`TA_TFIFO` or `TA_TPRI`",
        Api::CreFlg => "made of `TA_TPRI`, `TA_WMUL` and `TA_CLR`, 0 to 7",
        Api::CreMbx => "made of `TA_TPRI` and `TA_MPRI`, 0 to 3",
        Api::CreCyc => "0 or `TA_STA`",
        Api::CreMsg | Api::CreShr | Api::CreSpn | Api::DefInh => "0",
    }
}

/// Whether the attribute of a static API may be made of a constant.
pub fn takes_attribute(api: Api, constant: Constant) -> bool {
    match constant {
        Constant::TaNull => true,
        Constant::TaHlng => matches!(api, Api::CreTsk | Api::CreCyc | Api::DefInh),
        Constant::TaTfifo | Constant::TaTpri => matches!(
            api,
            Api::CreSem | Api::CreFlg | Api::CreDtq | Api::CreMbx
        ),
        Constant::TaMfifo | Constant::TaMpri => matches!(api, Api::CreMbx),
        Constant::TaAct => matches!(api, Api::CreTsk),
        Constant::TaWsgl | Constant::TaWmul | Constant::TaClr => matches!(api, Api::CreFlg),
        Constant::TaSta => matches!(api, Api::CreCyc),
        _ => false,
    }
}

/// What a static API makes, with its article.
pub fn object_of(api: Api) -> &'static str {
    match api {
        Api::CreTsk => "a task",
        Api::CreSem => "a semaphore",
        Api::CreFlg => "an eventflag",
        Api::CreDtq => "a data queue",
        Api::CreMbx => "a mailbox",
        Api::CreMsg => "a message",
        Api::CreShr => "a shared word",
        Api::CreSpn => "a spin lock",
        Api::CreCyc => "a cyclic handler",
        Api::DefInh => "an interrupt handler",
    }
}
