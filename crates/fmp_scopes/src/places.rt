//! The places of the locals of a body: each variable has as many as its declaration says, one after another.

ghost use Rattle.std.specs.Prelude.{◌≡◌, ◌≤◌, map};
ghost use Rattle.fmp_tasklang.specs.Layout.{first_place, local_of, places_at, total_places};
ghost use Rattle.fmp_scopes.specs.Scopes.{locals_with};

use crate::lengths::places_of_length;
use fmp_tasklang::Declaration;

/// How many places variables have together.
#[tactic(auto, using(crate::proofs::Sums::sums))]
fn places_together(variables: &[Declaration]) -> usize
    requires { total_places (map local_of variables.now) ≤ 63 }
    ensures { result ≡ total_places (map local_of variables.now) }
{
    let mut places = 0;
    for variable in variables {
        places += places_of_length(variable.length);
    }
    places
}

/// The first place of a local, by its number: 0 for `exinf`, then in order of declaration.
pub fn first_place_in(variables: &[Declaration], number: u8) -> u8
    requires few { total_places (locals_with variables.now) ≤ 64 }
    ensures { result ≡ first_place (locals_with variables.now) number }
{
    if number == 0 {
        return 0;
    }
    let before = usize::from(number) - 1;
    if before >= variables.len() {
        return places_of_body(variables);
    }
    1 + places_together(&variables[..before]) as u8
}

/// How many places a local has, by its number; 0 where there is no such local.
pub fn places_in(variables: &[Declaration], number: u8) -> u8
    requires few { total_places (locals_with variables.now) ≤ 64 }
    ensures { result ≡ places_at (locals_with variables.now) number }
{
    if number == 0 {
        return 1;
    }
    let at = usize::from(number) - 1;
    if at >= variables.len() {
        return 0;
    }
    places_of_length(variables[at].length) as u8
}

/// How many places the locals of a body have together, `exinf` among them.
pub fn places_of_body(variables: &[Declaration]) -> u8
    requires { total_places (locals_with variables.now) ≤ 64 }
    ensures { result ≡ total_places (locals_with variables.now) }
{
    1 + places_together(variables) as u8
}
