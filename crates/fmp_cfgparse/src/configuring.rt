//! The static APIs of a tree are carried out, in order of text.
ghost use Rattle.std.specs.Prelude.{◌≡◌, ◌≤◌, map, None, IfOk, IfErr};
ghost use Rattle.fmp_cfgparse.specs.Apis.{made, api_fault};
ghost use Rattle.fmp_cfgparse.specs.Making.{making_of};
ghost use Rattle.fmp_cfgparse.specs.Configuring.{IsWalk, IsConfigured, walk_apis, walk_classes, nothing_made};
ghost use Rattle.fmp_cfgparse.specs.Configuring.{configured};
ghost use Rattle.fmp_cfgparse.specs.Trees.{api_view, class_view, configuration_view};
ghost use Rattle.fmp_cfgparse.specs.declared.objects.MakingStop.TheVariants.{Memory};

use crate::making::{Making, find_fault, gives_name};
use crate::objects::{MakingStop, create};
use crate::places::{ClassProcessors, find_class};
use crate::tree::{Class, Configuration, StaticApi};
use crate::used_names::add_name;
use crate::values::{between, byte_of, name_at};
use fmp_base::System;
use fmp_lex::FaultKind;
use indexmap::IndexSet;
use std::alloc::{AllocError, Global};

/// A system has at most 255 objects of each of the nine kinds with names.
const MOST_NAMES: usize = 2295;

/// Makes the object of a static API that has no fault.
fn make(making: &mut Making, class: ClassProcessors, api: &StaticApi) -> Result<(), MakingStop>
    requires { api_fault (api_view api.now) (making_of making.old) ≡ None }
    ensures made { IfOk result (λ _. making_of making.new ≡ made class (api_view api.now) (making_of making.old)) }
    ensures memory { IfErr result (λ e. e ≡ Memory) }
{
    if gives_name(api.kind) {
        add_name(&mut making.names, name_at(&api.fields, 0))?;
    }
    create(&mut making.system, class, api.kind, &api.fields)
}

fn add_apis(
    making: &mut Making,
    class: ClassProcessors,
    apis: &[StaticApi],
) -> Result<(), MakingStop>
    ensures { IsWalk (walk_apis class (map api_view apis.now) (making_of making.old)) result (making_of making.new) }
{
    for api in apis {
        if let Some(why) = find_fault(api, making) {
            return Err(MakingStop::Fault(api.at, why));
        }
        make(making, class, api)?;
    }
    Ok(())
}

fn add_classes(making: &mut Making, processors: u8, classes: &[Class]) -> Result<(), MakingStop>
    requires { processors ≤ 8 }
    ensures { IsWalk (walk_classes processors (map class_view classes.now) (making_of making.old)) result
        (making_of making.new) }
{
    for class in classes {
        let Some(place) = find_class(processors, class.name.as_bytes()) else {
            return Err(MakingStop::Fault(class.at, FaultKind::UnknownName));
        };
        add_apis(making, place, &class.apis)?;
    }
    Ok(())
}

/// For how many names there is to be room: one for each static API, but at most as many as a system has.
fn room_for_names(classes: &[Class]) -> usize {
    let mut count: usize = 0;
    for class in classes {
        count = count.saturating_add(class.apis.len());
    }
    count.min(MOST_NAMES)
}

/// Nothing made yet, with room for this many names. The error is out of memory.
fn start(alloc: Global, processors: u8, names: usize) -> Result<Making, AllocError>
    ensures { IfOk result (λ making. making_of making ≡ nothing_made processors) }
{
    let names = IndexSet::with_capacity(alloc, names)?;
    Ok(Making {
        system: System::empty(alloc, processors),
        names,
    })
}

/// What the static APIs of a configuration make, carried out in order of text, or the first fault with the place of its
/// token. `Memory` if an allocation is refused.
pub fn configure(alloc: Global, tree: &Configuration) -> Result<Making, MakingStop>
    ensures { IsConfigured (configured (configuration_view tree.now)) result }
{
    if !between(1, 8, tree.processors) {
        return Err(MakingStop::Fault(tree.at, FaultKind::Limit));
    }
    let processors = byte_of(tree.processors);
    let Ok(mut making) = start(alloc, processors, room_for_names(&tree.classes)) else {
        return Err(MakingStop::Memory);
    };
    match add_classes(&mut making, processors, &tree.classes) {
        Ok(()) => Ok(making),
        Err(stop) => Err(stop),
    }
}
