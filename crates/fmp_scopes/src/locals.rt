//! What finds the locals of a body without a search: the number of each name, and the first place of each number.

ghost use Rattle.std.specs.Prelude.{◌≡◌, ◌<◌, ◌≤◌, List, Some, map, take, length, is_some, IfSome, IfOk};
ghost use Rattle.fmp_base.specs.Names.{name_text};
ghost use Rattle.fmp_tasklang.specs.Layout.{first_place, total_places};
ghost use Rattle.fmp_tasklang.specs.Scopes.{place_of};
ghost use Rattle.fmp_scopes.specs.Scopes.{AreNumbers, ArePlaces, IsHeld, locals_with, scope_view};

use crate::lengths::places_of_length;
use crate::names::{Names, place_in};
use crate::numbers::{ObjectNumbers, number_rows};
use crate::places::first_place_in;
use fmp_base::Name;
use fmp_lex::ObjectName;
use fmp_tasklang::Declaration;
use std::alloc::{AllocError, Global};
use std::collections::HashMap;

/// Up to this many variables are searched one by one, which is as fast.
const FEW: usize = 4;

/// A body with more variables than this has a fault.
const MOST: usize = 63;

/// The number of each variable by its name: its place in order of declaration, from 1. There are none where the
/// variables are so few that a search is as fast, or more than a body may have. The error is out of memory.
pub fn number_variables(
    alloc: Global,
    variables: &[Declaration],
) -> Result<Option<ObjectNumbers>, AllocError>
    ensures { IfOk result (λ numbers. AreNumbers numbers variables.now) }
{
    if variables.len() <= FEW || variables.len() > MOST {
        return Ok(None);
    }
    let mut numbers = HashMap::with_capacity(alloc, variables.len())?;
    number_rows(&mut numbers, variables)?;
    Ok(Some(numbers))
}

/// The first places of the locals of a body, `exinf`'s first; none where a search is as fast. The error is out of
/// memory.
pub fn first_places(alloc: Global, variables: &[Declaration]) -> Result<Vec<u8>, AllocError>
    requires { total_places (locals_with variables.now) ≤ 64 }
    ensures { IfOk result (λ places. ArePlaces places.items variables.now) }
{
    let mut places = Vec::new(alloc);
    if variables.len() <= FEW {
        return Ok(places);
    }
    let mut next = 1;
    places.push(0)?;
    for at in 0..variables.len() {
        places.push(next)?;
        next += places_of_length(variables[at].length) as u8;
    }
    Ok(places)
}

/// The place of a name among the variables of these numbers, from 0, if there is one.
fn numbered_place(numbers: &ObjectNumbers, name: &Name) -> Option<usize>
    ensures { (variables : List Declaration) → AreNumbers (Some numbers.now) variables →
        result ≡ place_of (name_text name.now) (map (λ d. d.name.name) variables) }
{
    match numbers.get(&ObjectName { name: *name }) {
        None => None,
        Some(number) => Some(usize::from(*number).saturating_sub(1)),
    }
}

/// The place of a name among the variables, from 0, if there is one.
pub(crate) fn variable_place(names: &Names<'_>, name: &Name) -> Option<usize>
    requires { AreNumbers names.now.numbers.now names.now.variables.now }
    ensures place { result
        ≡ place_of (name_text name.now) (map (λ d. d.name.name) names.now.variables.now) }
    ensures below { IfSome result (λ place. place < length names.now.variables.now) }
{
    match names.numbers {
        None => place_in(names.variables, name),
        Some(numbers) => match numbers.get(&ObjectName { name: *name }) {
            None => None,
            Some(number) => Some(usize::from(*number) - 1),
        },
    }
}

/// Whether one of the variables before this place has this name. The numbers are those of all variables.
pub fn is_named_before(
    numbers: &Option<ObjectNumbers>,
    variables: &[Declaration],
    at: usize,
    name: &Name,
) -> bool
    requires numbers { AreNumbers numbers.now variables.now }
    requires within { at ≤ length variables.now }
    ensures { result ≡ is_some (place_of (name_text name.now) (map (λ d. d.name.name) (take at variables.now))) }
{
    match numbers {
        None => place_in(&variables[..at], name).is_some(),
        Some(numbers) => match numbered_place(numbers, name) {
            None => false,
            Some(place) => place < at,
        },
    }
}

/// The first place of a local, by its number: 0 for `exinf`, then in order of declaration.
pub fn first_place_of(names: &Names<'_>, number: u8) -> u8
    requires { IsHeld names.now }
    ensures { result ≡ first_place (scope_view names.now).locals number }
{
    let at = usize::from(number);
    if at < names.places.len() {
        return names.places[at];
    }
    first_place_in(names.variables, number)
}
