//! What the service calls take as arguments.
use fmp_base::{ObjectKind, Parameter, Service};
use fmp_diagnosis::fields::object_of;
use fmp_lex::Api;

/// What an argument of a call should be, if not just any number.
#[derive(Clone, Copy)]
pub enum WantedArgument {
    /// An object that this static API makes.
    Object(Api),
    /// A number of this meaning, and no object.
    Number(&'static str),
}

impl WantedArgument {
    /// What is expected, with its article.
    pub fn called(self) -> &'static str {
        match self {
            WantedArgument::Object(api) => object_of(api),
            WantedArgument::Number(text) => text,
        }
    }
}

/// The static API that makes the objects of a kind.
fn api_of(kind: ObjectKind) -> Api {
    match kind {
        ObjectKind::Task => Api::CreTsk,
        ObjectKind::Semaphore => Api::CreSem,
        ObjectKind::Flag => Api::CreFlg,
        ObjectKind::DataQueue => Api::CreDtq,
        ObjectKind::Mailbox => Api::CreMbx,
        ObjectKind::Message => Api::CreMsg,
        ObjectKind::SharedWord => Api::CreShr,
        ObjectKind::SpinLock => Api::CreSpn,
        ObjectKind::Cyclic => Api::CreCyc,
    }
}

/// What the number means that a parameter is, if not just any number.
fn number_wanted(parameter: Parameter) -> Option<&'static str> {
    match parameter {
        Parameter::Processor => Some("a processor"),
        Parameter::Priority => Some("a priority"),
        Parameter::Pattern => Some("a bit pattern"),
        Parameter::Mode => Some("`TWF_ANDW` or `TWF_ORW`"),
        Parameter::Delay | Parameter::Limit => Some("a time"),
        _ => None,
    }
}

/// What the argument of a call at a place, from 0, should be.
pub fn wanted_at(service: Service, place: usize) -> Option<WantedArgument> {
    let parameter = *service.parameters().get(place)?;
    match parameter.object_kind() {
        Some(kind) => Some(WantedArgument::Object(api_of(kind))),
        None => Some(WantedArgument::Number(number_wanted(parameter)?)),
    }
}

/// The longest time, in ticks.
const LONGEST: i64 = 1_073_741_824;

/// Whether a call waits for bits of an eventflag.
pub fn waits_for_bits(service: Service) -> bool {
    matches!(
        service,
        Service::WaiFlg | Service::PolFlg | Service::TwaiFlg
    )
}

/// The least and the greatest number that a call takes as the argument at a place, from 0, with this many processors;
/// none if it takes an object or any number there.
pub fn range_at(service: Service, place: usize, processors: i64) -> Option<(i64, i64)> {
    match *service.parameters().get(place)? {
        Parameter::Processor => Some((1, processors)),
        Parameter::Priority => Some((0, 16)),
        Parameter::Pattern if waits_for_bits(service) => Some((1, 65_535)),
        Parameter::Pattern => Some((0, 65_535)),
        Parameter::Mode => Some((0, 1)),
        Parameter::Delay => Some((0, LONGEST)),
        Parameter::Limit => Some((-1, LONGEST)),
        _ => None,
    }
}

/// Whether a call on a task takes 0 for the task that makes it.
pub fn takes_caller(service: Service) -> bool {
    matches!(service.parameters().first(), Some(Parameter::TaskOrCaller))
}
