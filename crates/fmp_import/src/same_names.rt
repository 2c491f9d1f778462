//! Which objects and bodies would have one name.
use crate::plan::{PlanItem, TextSpan};
use crate::text::bytes_of;

/// Whether one of these is the name of a body that another body gets: a word of this project with `_` at its end.
pub fn is_taken(text: &[u8], word: TextSpan, items: &[PlanItem]) -> bool {
    for item in items {
        if let PlanItem::Name(name) = *item
            && let Some(front) = bytes_of(text, name).strip_suffix(b"_")
            && front == bytes_of(text, word)
        {
            return true;
        }
    }
    false
}

/// Whether two static APIs define the same: objects of one name, or handlers of one interrupt.
pub fn is_same(text: &[u8], one: PlanItem, other: PlanItem) -> bool {
    match (one, other) {
        (PlanItem::Name(one), PlanItem::Name(other)) => bytes_of(text, one)
            == bytes_of(text, other),
        (PlanItem::Number(one), PlanItem::Number(other)) => one == other,
        _ => false,
    }
}
