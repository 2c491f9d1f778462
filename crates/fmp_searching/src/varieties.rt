//! What is said of the fields that have the most values, where a search stopped at a limit.
ghost use Rattle.std.specs.Prelude.{◌≡◌, ◌++◌, OnOk};
ghost use Rattle.fmp_searching.specs.Extent as spec;
ghost use Rattle.fmp_searching.specs.Sources.{source_tables};

use crate::naming::is_queue;
use crate::sources::{ExploredSources, say};
use crate::varied::append_varied;
use fmp_explore::{Varied, Variety};
use fmp_json::append_number;
use std::alloc::{AllocError, Global};

/// What is said of how a field gets fewer values.
fn hint_of(what: Varied) -> &'static str
    ensures { result.now ≡ spec.hint what }
{
    match what {
        Varied::Field(what) if is_queue(what) => " (fewer with --queued)",
        Varied::Field(_) | Varied::Standing(_) => "",
    }
}

/// How many values the most varied field has.
pub fn most_values(varieties: &[Variety]) -> usize
    ensures { result ≡ spec.most_values varieties.now }
{
    let mut most = 0;
    for variety in varieties {
        most = variety.values.max(most);
    }
    most
}

/// Whether a field is one of the most varied ones, of which the first has this many values.
pub fn is_varied(most: usize, variety: &Variety) -> bool
    ensures { result ≡ spec.is_varied most variety.now }
{
    variety.values > 1 && variety.values >= most / 2
}

/// Appends how many values a field has, in a line.
#[tactic(auto, unfolding(crate::specs::Extent::values_line))]
fn say_values(
    alloc: Global,
    out: &mut Vec<u8>,
    sources: &ExploredSources<'_>,
    variety: &Variety,
) -> Result<(), AllocError>
    ensures { OnOk result (out.new.items
        ≡ out.old.items ++ spec.values_line (source_tables sources.now) variety.now) }
{
    append_number(variety.values as u64, out)?;
    say(out, " values: ")?;
    append_varied(alloc, sources, variety.what, out)?;
    say(out, hint_of(variety.what))?;
    say(out, "\n")
}

/// Appends the same, if it is one of the most varied ones.
fn say_variety(
    alloc: Global,
    out: &mut Vec<u8>,
    sources: &ExploredSources<'_>,
    most: usize,
    variety: &Variety,
) -> Result<(), AllocError>
    ensures { OnOk result (out.new.items
        ≡ out.old.items ++ spec.varied_line (source_tables sources.now) most variety.now) }
{
    if is_varied(most, variety) {
        say_values(alloc, out, sources, variety)
    } else {
        Ok(())
    }
}

/// Appends how many values the most varied fields have, where the search stopped at a limit.
pub fn say_varieties(
    alloc: Global,
    out: &mut Vec<u8>,
    sources: &ExploredSources<'_>,
    varieties: &[Variety],
) -> Result<(), AllocError>
    ensures { OnOk result (out.new.items
        ≡ out.old.items ++ spec.values_text (source_tables sources.now) varieties.now) }
{
    let most = most_values(varieties);
    for variety in varieties {
        say_variety(alloc, out, sources, most, variety)?;
    }
    Ok(())
}
