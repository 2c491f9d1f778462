//! The known name that is nearest to a name.
ghost use Rattle.std.specs.Prelude.{◌≡◌, ◌≤◌, ◌<◌, [], length, map, true, IfOk, MatchOption};
ghost use Rattle.std.specs.List.{position};
ghost use Rattle.fmp_diagnosis.specs.Nearest as spec;
ghost use Rattle.fmp_diagnosis.specs.Nearest.{IsFirstLeast, IsNearest};

use fmp_base::Name;
use std::alloc::{AllocError, Global};
use strsim::generic_damerau_levenshtein;

/// How many steps make the second name of the first: each puts in, leaves out or changes a byte, or swaps two
/// neighbours.
#[tactic(auto, using(crate::proofs::Distances::steps_are_counted))]
fn distance(alloc: Global, from: &Name, to: &Name) -> Result<usize, AllocError>
    ensures { IfOk result (λ d. d ≡ spec.distance from.now to.now) }
{
    generic_damerau_levenshtein(alloc, from.as_bytes(), to.as_bytes())
}

fn distances(alloc: Global, name: &Name, known: &[Name]) -> Result<Vec<usize>, AllocError>
    ensures { IfOk result (λ v. v.items ≡ spec.distances name.now known.now) }
{
    let mut all = Vec::new(alloc);
    for one in known {
        all.push(distance(alloc, name, one)?)?;
    }
    Ok(all)
}

/// The place of the least number, the first one of several.
fn first_least(numbers: &[usize]) -> Option<usize>
    ensures { MatchOption result (length numbers.now ≡ 0) (IsFirstLeast numbers.now) }
{
    if numbers.is_empty() {
        return None;
    }
    let mut least = 0;
    for i in 1..numbers.len() {
        if numbers[i] < numbers[least] {
            least = i;
        }
    }
    Some(least)
}

/// Whether a name may be taken for one at this distance.
fn is_near(name: &Name, distance: usize) -> bool
    ensures { result ≡ spec.is_near name.now distance }
{
    distance <= 2 && 2 * distance < name.as_bytes().len()
}

/// The place of the first known name with the letters of a name, each in either case.
pub fn other_case(name: &Name, known: &[Name]) -> Option<usize>
    ensures { result ≡ position (spec.is_other_case name.now) known.now }
{
    known
        .iter()
        .position(|one| one.as_bytes().eq_ignore_ascii_case(name.as_bytes()))
}

/// The place of the known name that is nearest to a name, the first one of several, by the steps that put in, leave out
/// or change a byte or swap two neighbours. None if each takes more than 2 of them, or half of the name or more.
/// `AllocError` if memory runs out.
pub fn nearest(alloc: Global, name: &Name, known: &[Name]) -> Result<Option<usize>, AllocError>
    ensures { IfOk result (IsNearest name.now known.now) }
{
    let all = distances(alloc, name, known)?;
    let Some(place) = first_least(&all) else {
        return Ok(None);
    };
    if is_near(name, all[place]) {
        Ok(Some(place))
    } else {
        Ok(None)
    }
}
