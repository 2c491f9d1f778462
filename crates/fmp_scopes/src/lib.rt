//! What the names of a task body mean, how many places its variables take, and how much room its code takes.
#![tactic(auto)]

mod entries;
mod extents;
mod headings;
mod lengths;
mod lists;
mod locals;
mod names;
mod numbers;
mod offences;
mod places;
mod uses;

pub use entries::{EntryUse, check_entries, check_headings};
pub use extents::{Extent, block_extent, expression_extent};
pub use headings::{Heading, body_place, heading_with};
pub use lengths::places_of_length;
pub use lists::append;
pub use locals::{first_place_of, first_places, is_named_before, number_variables};
pub use names::{HasName, Meaning, Names, Objects, is_exinf, is_object, meaning_in, place_in};
pub use numbers::{ObjectNumbers, number_objects};
pub use offences::{Offence, source_fault};
pub use places::{places_in, places_of_body};
pub use uses::block_offence;
