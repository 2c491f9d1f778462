//! A system while it is made: its tables, the names in use, and the tests of a static API.
ghost use Rattle.std.specs.Prelude.{◌≡◌, map};
ghost use Rattle.fmp_base.specs.Systems.{tables_of};
ghost use Rattle.fmp_cfgparse.specs.Apis as spec;
ghost use Rattle.fmp_cfgparse.specs.Apis.{api_fault};
ghost use Rattle.fmp_cfgparse.specs.Making.{making_of};
ghost use Rattle.fmp_cfgparse.specs.Trees.{field_view, api_view};

use crate::tree::{ApiField, StaticApi};
use crate::used_names::is_used;
use crate::values::{all_known, between, byte_of, half_of, name_at, number_at};
use fmp_base::{Er, InterruptConfig, System};
use fmp_lex::{Api, FaultKind, ObjectName};
use indexmap::IndexSet;

/// What has been made so far: the tables, and the names of all objects.
#[derive(Drop)]
pub struct Making {
    pub system: System,
    /// In order of text, over all kinds.
    pub names: IndexSet<ObjectName>,
}

fn is_defined(interrupts: &[InterruptConfig], number: u8) -> bool
    ensures { result ≡ spec.is_defined interrupts.now number }
{
    for interrupt in interrupts {
        if interrupt.number == number {
            return true;
        }
    }
    false
}

fn count_of(api: Api, system: &System) -> usize
    ensures { result ≡ spec.count_of api (tables_of system.now) }
{
    match api {
        Api::CreTsk => system.tasks.len(),
        Api::CreSem => system.semaphores.len(),
        Api::CreFlg => system.flags.len(),
        Api::CreDtq => system.data_queues.len(),
        Api::CreMbx => system.mailboxes.len(),
        Api::CreMsg => system.messages.len(),
        Api::CreShr => system.shared_words.len(),
        Api::CreSpn => system.spin_locks.len(),
        Api::CreCyc => system.cyclics.len(),
        Api::DefInh => system.interrupts.len(),
    }
}

pub(crate) fn gives_name(api: Api) -> bool
    ensures { result ≡ spec.gives_name api }
{
    match api {
        Api::DefInh => false,
        _ => true,
    }
}

fn attribute_fits(api: Api, attribute: i32) -> bool
    ensures { result ≡ spec.attribute_fits api attribute }
{
    match api {
        Api::CreTsk | Api::CreCyc => between(0, 0, attribute) || between(2, 2, attribute),
        Api::CreSem | Api::CreDtq => between(0, 1, attribute),
        Api::CreFlg => between(0, 7, attribute),
        Api::CreMbx => between(0, 3, attribute),
        Api::CreMsg | Api::CreShr => true,
        Api::CreSpn | Api::DefInh => between(0, 0, attribute),
    }
}

fn parameters_fit(api: Api, fields: &[ApiField]) -> bool
    ensures { result ≡ spec.parameters_fit api (map field_view fields.now) }
{
    match api {
        Api::CreTsk => between(1, 16, number_at(fields, 4))
            && between(1, 65536, number_at(fields, 5)),
        Api::CreSem => {
            let most = number_at(fields, 3);
            between(1, 65535, most) && between(0, u32::from(half_of(most)), number_at(fields, 2))
        }
        Api::CreFlg => between(0, 65535, number_at(fields, 2)),
        Api::CreDtq => between(0, 255, number_at(fields, 2)),
        Api::CreMbx => between(1, 16, number_at(fields, 2)),
        Api::CreMsg => between(1, 16, number_at(fields, 1)),
        Api::CreShr | Api::CreSpn => true,
        Api::CreCyc => {
            between(1, 1_073_741_824, number_at(fields, 4))
                && between(0, 1_073_741_824, number_at(fields, 5))
        }
        Api::DefInh => between(1, 32, number_at(fields, 0)),
    }
}

fn is_taken(api: Api, fields: &[ApiField], system: &System) -> bool
    ensures { result ≡ spec.is_taken api (map field_view fields.now) (tables_of system.now) }
{
    match api {
        Api::DefInh => is_defined(&system.interrupts, byte_of(number_at(fields, 0))),
        _ => false,
    }
}

fn refusal(api: Api, fields: &[ApiField], system: &System) -> Option<FaultKind>
    ensures { result ≡ spec.refusal api (map field_view fields.now) (tables_of system.now) }
{
    if !attribute_fits(api, number_at(fields, 1)) {
        return Some(FaultKind::Api(Er::Rsatr));
    }
    if !parameters_fit(api, fields) {
        return Some(FaultKind::Api(Er::Par));
    }
    if is_taken(api, fields, system) {
        return Some(FaultKind::Api(Er::Obj));
    }
    None
}

/// The fault of a static API, if it has one.
pub(crate) fn find_fault(api: &StaticApi, making: &Making) -> Option<FaultKind>
    ensures { result ≡ api_fault (api_view api.now) (making_of making.now) }
{
    if count_of(api.kind, &making.system) >= 255 {
        return Some(FaultKind::Limit);
    }
    if gives_name(api.kind) && is_used(&making.names, name_at(&api.fields, 0)) {
        return Some(FaultKind::TwiceNamed);
    }
    if !all_known(&api.fields) {
        return Some(FaultKind::UnknownName);
    }
    refusal(api.kind, &api.fields, &making.system)
}
