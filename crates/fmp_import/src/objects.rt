//! What a static API of the source becomes.
use crate::lexemes::{Lexeme, LexemeKind};
use crate::plan::{PlanItem, Record};
use crate::reading::{SourceField, SourceReading};
use crate::terms::NoValue;
use crate::values::value_of;
use crate::words::{is_name, is_reserved};
use fmp_base::words::{Api, Constant};
use std::alloc::{AllocError, Global};

/// Why an object is left out.
#[derive(Clone, Copy)]
pub enum Omission {
    /// Memory ran out.
    Memory,
    /// This is wrong.
    Wrong(&'static str),
    /// The value of this constant is unknown.
    Unknown(Lexeme),
    /// One of its values has this name with arguments.
    HasArguments(Lexeme),
}

impl From<AllocError> for Omission {
    fn from(_error: AllocError) -> Self {
        Omission::Memory
    }
}

/// What an object has otherwise than its source.
#[derive(Clone, Copy)]
pub struct Changes {
    /// An attribute without an equal is left out.
    pub attribute: bool,
    /// The extended information was no number, and is 0.
    pub information: bool,
    /// The entry is a word of this project, and has `_` at its end.
    pub entry: bool,
    /// Memory that the source gives is left out.
    pub area: bool,
    /// The stack is smaller.
    pub stack: bool,
    /// Times of the source are in microseconds.
    pub times: bool,
}

/// No changes.
const UNCHANGED: Changes = Changes {
    attribute: false,
    information: false,
    entry: false,
    area: false,
    stack: false,
    times: false,
};

/// An object, and what it has otherwise than its source.
#[derive(Drop)]
pub struct SourceObject {
    pub record: Record,
    pub changes: Changes,
}

/// An expression is of no form that is read, or its value does not fit.
const NOT_READ: Omission = Omission::Wrong(
    "one of its values is an expression that is not read here",
);

const WRONG_COUNT: Omission = Omission::Wrong("the number of its parameters is another one");

/// Reads the parameters of objects.
#[derive(Clone, Copy)]
pub struct Parameters<'a> {
    pub alloc: Global,
    pub reading: SourceReading<'a>,
    /// Whether a body whose name is a word of this project gets `_` at its end.
    pub escapes: bool,
}

/// The attribute that has those of three constants that are set, or the other one.
fn joined(
    first: Option<Constant>,
    second: Option<Constant>,
    third: Option<Constant>,
    none: Constant,
) -> PlanItem {
    match (first, second, third) {
        (Some(a), Some(b), c) => PlanItem::Attribute(a, Some(b), c),
        (Some(a), None, c) => PlanItem::Attribute(a, c, None),
        (None, Some(b), c) => PlanItem::Attribute(b, c, None),
        (None, None, Some(c)) => PlanItem::Attribute(c, None, None),
        (None, None, None) => PlanItem::Attribute(none, None, None),
    }
}

/// The constant, if its bit is set.
fn set_in(bits: i64, constant: Constant) -> Option<Constant> {
    if bits & i64::from(constant.value()) == 0 {
        None
    } else {
        Some(constant)
    }
}

impl Parameters<'_> {
    /// What stands after an attribute.
    fn items(&self, items: &[PlanItem]) -> Result<Vec<PlanItem>, AllocError> {
        let mut rest = Vec::new(self.alloc);
        rest.extend_from_slice(items)?;
        Ok(rest)
    }

    /// The value of a parameter.
    fn value(&self, field: SourceField) -> Result<i64, Omission> {
        match value_of(self.alloc, self.reading, self.reading.lexemes_of(field)) {
            Ok(value) => Ok(value),
            Err(NoValue::Unknown(lexeme)) => Err(Omission::Unknown(lexeme)),
            Err(NoValue::HasArguments(lexeme)) => Err(Omission::HasArguments(lexeme)),
            Err(NoValue::Form) => Err(NOT_READ),
            Err(NoValue::Memory) => Err(Omission::Memory),
        }
    }

    /// The value of a parameter, in this range.
    fn ranged(
        &self,
        field: SourceField,
        low: i32,
        high: i32,
        outside: &'static str,
    ) -> Result<i32, Omission> {
        match i32::try_from(self.value(field)?) {
            Ok(number) if low <= number && number <= high => Ok(number),
            _ => Err(Omission::Wrong(outside)),
        }
    }

    /// A name.
    fn name(&self, field: SourceField, without: &'static str) -> Result<PlanItem, Omission> {
        match self.reading.word_of(field) {
            Some(word) if is_name(self.reading.bytes(word)) => Ok(PlanItem::Name(word.span)),
            _ => Err(Omission::Wrong(without)),
        }
    }

    /// The name of an object.
    fn subject(&self, field: SourceField) -> Result<PlanItem, Omission> {
        self.name(
            field,
            "its name is no word, is a word of this project, or has more than 31 bytes",
        )
    }

    /// The name of a body, and whether `_` was added to it.
    fn entry(&self, field: SourceField) -> Result<(PlanItem, bool), Omission> {
        if let Some(word) = self.reading.word_of(field)
            && self.escapes
            && is_reserved(self.reading.bytes(word))
        {
            return Ok((PlanItem::Escaped(word.span), true));
        }
        let entry = self.name(
            field,
            "its entry is no word, is a word of this project, or has more than 31 bytes",
        )?;
        Ok((entry, false))
    }

    /// The bits of an attribute that are known, and whether there are others.
    fn bits(&self, field: SourceField) -> Result<(i64, bool), Omission> {
        match self.value(field) {
            Ok(value) => Ok((value, false)),
            Err(Omission::Unknown(_) | Omission::HasArguments(_)) => self.known_bits(field),
            Err(omission) => Err(omission),
        }
    }

    /// The bits of the words and numbers of an attribute that are known, and whether there are others.
    fn known_bits(&self, field: SourceField) -> Result<(i64, bool), Omission> {
        let mut bits = 0;
        let mut others = false;
        for lexeme in self.reading.lexemes_of(field) {
            match lexeme.kind {
                LexemeKind::Word | LexemeKind::Number => {
                    match value_of(self.alloc, self.reading, &[*lexeme]) {
                        Ok(value) => bits |= value,
                        Err(NoValue::Memory) => return Err(Omission::Memory),
                        Err(_) => others = true,
                    }
                }
                _ => {}
            }
        }
        Ok((bits, others))
    }

    /// An attribute of these known constants, or `none` if it has none of them, and whether it has others.
    fn attribute(
        &self,
        field: SourceField,
        known: [Constant; 3],
        none: Constant,
    ) -> Result<(PlanItem, bool), Omission> {
        let [first, second, third] = known;
        let (bits, others) = self.bits(field)?;
        let known_bits = i64::from(first.value() | second.value() | third.value());
        let first = set_in(bits, first);
        let second = set_in(bits, second);
        let third = set_in(bits, third);
        Ok((
            joined(first, second, third, none),
            others || bits & known_bits != bits,
        ))
    }

    /// The attribute of a queue of waiting tasks.
    fn order(&self, field: SourceField) -> Result<(PlanItem, bool), Omission> {
        let fifo = Constant::TaTfifo;
        self.attribute(field, [Constant::TaTpri, fifo, fifo], fifo)
    }

    /// Extended information, and whether it is 0 in the place of something else.
    fn information(&self, field: SourceField) -> Result<(PlanItem, bool), Omission> {
        match self.ranged(field, -i32::MAX, i32::MAX, "") {
            Ok(number) => Ok((PlanItem::Number(number), false)),
            Err(Omission::Memory) => Err(Omission::Memory),
            Err(Omission::Wrong(_) | Omission::Unknown(_) | Omission::HasArguments(_)) => {
                Ok((PlanItem::Number(0), true))
            }
        }
    }

    /// Whether memory is given.
    fn has_area(&self, field: SourceField) -> bool {
        match self.reading.word_of(field) {
            Some(word) => self.reading.bytes(word) != b"NULL".as_slice(),
            None => true,
        }
    }

    fn task(&self, fields: &[SourceField]) -> Result<SourceObject, Omission> {
        let [name, attribute, information, entry, priority, stack, area] = fields else {
            return Err(WRONG_COUNT);
        };
        let null = Constant::TaNull;
        let subject = self.subject(*name)?;
        let (attribute, others) = self.attribute(*attribute, [Constant::TaAct, null, null], null)?;
        let (information, is_zero) = self.information(*information)?;
        let (entry, is_escaped) = self.entry(*entry)?;
        let priority = self.ranged(*priority, 1, 16, "its priority is not 1 to 16")?;
        let size = self.ranged(*stack, 1, i32::MAX, "its stack size is no number above 0")?;
        let record = Record {
            api: Api::CreTsk,
            subject,
            attribute,
            rest: self.items(&[
                information,
                entry,
                PlanItem::Number(priority),
                PlanItem::Number(size.min(65536)),
                PlanItem::Null,
            ])?,
        };
        let changes = Changes {
            attribute: others,
            information: is_zero,
            entry: is_escaped,
            area: self.has_area(*area),
            stack: size > 65536,
            times: false,
        };
        Ok(SourceObject { record, changes })
    }

    fn semaphore(&self, fields: &[SourceField]) -> Result<SourceObject, Omission> {
        let [name, attribute, count, most] = fields else {
            return Err(WRONG_COUNT);
        };
        let subject = self.subject(*name)?;
        let (attribute, others) = self.order(*attribute)?;
        let most = self.ranged(*most, 1, 65535, "its greatest count is not 1 to 65535")?;
        let count = self.ranged(
            *count,
            0,
            most,
            "its initial count is not 0 to its greatest count",
        )?;
        let record = Record {
            api: Api::CreSem,
            subject,
            attribute,
            rest: self.items(&[PlanItem::Number(count), PlanItem::Number(most)])?,
        };
        let changes = Changes {
            attribute: others,
            ..UNCHANGED
        };
        Ok(SourceObject { record, changes })
    }

    fn flag(&self, fields: &[SourceField]) -> Result<SourceObject, Omission> {
        let [name, attribute, pattern] = fields else {
            return Err(WRONG_COUNT);
        };
        let subject = self.subject(*name)?;
        let (attribute, others) = self.attribute(
            *attribute,
            [Constant::TaTpri, Constant::TaWmul, Constant::TaClr],
            Constant::TaTfifo,
        )?;
        let pattern = self.ranged(*pattern, 0, 65535, "its pattern is not 0 to 65535")?;
        let record = Record {
            api: Api::CreFlg,
            subject,
            attribute,
            rest: self.items(&[PlanItem::Number(pattern)])?,
        };
        let changes = Changes {
            attribute: others,
            ..UNCHANGED
        };
        Ok(SourceObject { record, changes })
    }

    fn data_queue(&self, fields: &[SourceField]) -> Result<SourceObject, Omission> {
        let [name, attribute, capacity, area] = fields else {
            return Err(WRONG_COUNT);
        };
        let subject = self.subject(*name)?;
        let (attribute, others) = self.order(*attribute)?;
        let capacity = self.ranged(*capacity, 0, 255, "its capacity is not 0 to 255")?;
        let record = Record {
            api: Api::CreDtq,
            subject,
            attribute,
            rest: self.items(&[PlanItem::Number(capacity), PlanItem::Null])?,
        };
        let changes = Changes {
            attribute: others,
            area: self.has_area(*area),
            ..UNCHANGED
        };
        Ok(SourceObject { record, changes })
    }

    fn mailbox(&self, fields: &[SourceField]) -> Result<SourceObject, Omission> {
        let [name, attribute, most, area] = fields else {
            return Err(WRONG_COUNT);
        };
        let fifo = Constant::TaTfifo;
        let subject = self.subject(*name)?;
        let (attribute, others) = self.attribute(
            *attribute,
            [Constant::TaTpri, Constant::TaMpri, fifo],
            fifo,
        )?;
        let most = self.ranged(*most, 1, 16, "its greatest message priority is not 1 to 16")?;
        let record = Record {
            api: Api::CreMbx,
            subject,
            attribute,
            rest: self.items(&[PlanItem::Number(most), PlanItem::Null])?,
        };
        let changes = Changes {
            attribute: others,
            area: self.has_area(*area),
            ..UNCHANGED
        };
        Ok(SourceObject { record, changes })
    }

    fn spin_lock(&self, fields: &[SourceField]) -> Result<SourceObject, Omission> {
        let [name, attribute, more @ ..] = fields else {
            return Err(WRONG_COUNT);
        };
        let null = Constant::TaNull;
        let subject = self.subject(*name)?;
        let (attribute, others) = self.attribute(*attribute, [null, null, null], null)?;
        let record = Record {
            api: Api::CreSpn,
            subject,
            attribute,
            rest: Vec::new(self.alloc),
        };
        let changes = Changes {
            attribute: others || !more.is_empty(),
            ..UNCHANGED
        };
        Ok(SourceObject { record, changes })
    }

    /// A cyclic handler, whose times may be in microseconds.
    fn cyclic(&self, fields: [SourceField; 6], times: bool) -> Result<SourceObject, Omission> {
        let [name, attribute, information, entry, period, phase] = fields;
        let null = Constant::TaNull;
        let subject = self.subject(name)?;
        let (attribute, others) = self.attribute(attribute, [Constant::TaSta, null, null], null)?;
        let (information, is_zero) = self.information(information)?;
        let (entry, is_escaped) = self.entry(entry)?;
        let period = self.ranged(period, 1, 1 << 30, "its period is not 1 to 2^30")?;
        let phase = self.ranged(phase, 0, 1 << 30, "its phase is not 0 to 2^30")?;
        let record = Record {
            api: Api::CreCyc,
            subject,
            attribute,
            rest: self.items(&[
                information,
                entry,
                PlanItem::Number(period),
                PlanItem::Number(phase),
            ])?,
        };
        let changes = Changes {
            attribute: others,
            information: is_zero,
            entry: is_escaped,
            times,
            ..UNCHANGED
        };
        Ok(SourceObject { record, changes })
    }

    /// Whether a field is a kind of notification of FMP3.
    fn notifies(&self, field: SourceField) -> bool {
        match self.reading.word_of(field) {
            Some(word) => self.reading.bytes(word).starts_with(b"TNFY_"),
            None => false,
        }
    }

    /// Whether a field is the notification by a handler.
    fn calls_handler(&self, field: SourceField) -> bool {
        match self.reading.word_of(field) {
            Some(word) => self.reading.bytes(word) == b"TNFY_HANDLER".as_slice(),
            None => false,
        }
    }

    /// A cyclic handler, also in the form of FMP3, whose times are in microseconds.
    fn any_cyclic(&self, fields: &[SourceField]) -> Result<SourceObject, Omission> {
        match fields {
            [name, attribute, kind, information, entry, period, phase]
                if self.calls_handler(*kind) => {
                let fields = [*name, *attribute, *information, *entry, *period, *phase];
                self.cyclic(fields, true)
            }
            [_, _, kind, ..] if self.notifies(*kind) => {
                Err(Omission::Wrong("it notifies by something else than a handler"))
            }
            [name, attribute, information, entry, period, phase] => {
                let fields = [*name, *attribute, *information, *entry, *period, *phase];
                self.cyclic(fields, false)
            }
            _ => Err(WRONG_COUNT),
        }
    }

    fn interrupt(&self, fields: &[SourceField]) -> Result<SourceObject, Omission> {
        let [number, attribute, entry] = fields else {
            return Err(WRONG_COUNT);
        };
        let null = Constant::TaNull;
        let number = self.ranged(*number, 1, 32, "its interrupt number is not 1 to 32")?;
        let (attribute, others) = self.attribute(*attribute, [null, null, null], null)?;
        let (entry, is_escaped) = self.entry(*entry)?;
        let record = Record {
            api: Api::DefInh,
            subject: PlanItem::Number(number),
            attribute,
            rest: self.items(&[entry])?,
        };
        let changes = Changes {
            attribute: others,
            entry: is_escaped,
            ..UNCHANGED
        };
        Ok(SourceObject { record, changes })
    }

    /// The object of a static API of the source.
    pub fn object(&self, api: Api, fields: &[SourceField]) -> Result<SourceObject, Omission> {
        match api {
            Api::CreTsk => self.task(fields),
            Api::CreSem => self.semaphore(fields),
            Api::CreFlg => self.flag(fields),
            Api::CreDtq => self.data_queue(fields),
            Api::CreMbx => self.mailbox(fields),
            Api::CreSpn => self.spin_lock(fields),
            Api::CreCyc => self.any_cyclic(fields),
            Api::DefInh => self.interrupt(fields),
            Api::CreMsg | Api::CreShr => {
                Err(Omission::Wrong("it is no static API of TOPPERS or uITRON"))
            }
        }
    }
}
