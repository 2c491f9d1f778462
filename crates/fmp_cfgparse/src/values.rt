//! The values of fields, and which of their constants are unknown.
ghost use Rattle.std.specs.Prelude.{◌≡◌, map, Some, slice_get};
ghost use Rattle.fmp_cfgparse.specs.Trees.{field_view, items_view};
ghost use Rattle.fmp_cfgparse.specs.Values as spec;

use crate::tree::{ApiField, Item, Value};
use fmp_base::Name;

/// The number of an item on 32 bits; a name has none.
fn item_number(item: Item) -> Option<i32>
    ensures { result ≡ spec.item_number item }
{
    match item {
        Item::Number(number) => Some(number),
        Item::Minus(number) => Some(number.wrapping_neg()),
        Item::Constant(constant) => Some(constant.value()),
        Item::Name(_) => None,
    }
}

fn joined(x: Option<i32>, y: Option<i32>) -> Option<i32>
    ensures { result ≡ spec.joined x y }
{
    match (x, y) {
        (Some(x), Some(y)) => Some(x | y),
        _ => None,
    }
}

/// The number of joined items, where none is an unknown constant.
fn joined_number(items: &[Item]) -> Option<i32>
    ensures { result ≡ spec.value_number items.now }
{
    let mut number = Some(0);
    for item in items {
        number = joined(number, item_number(*item));
    }
    number
}

/// The number of a value, where it has no unknown constant.
fn value_number(value: &Value) -> Option<i32>
    ensures { result ≡ spec.value_number (items_view value.now) }
{
    match value {
        Value::One(item) => joined(Some(0), item_number(*item)),
        Value::Joined(items) => joined_number(items),
    }
}

fn is_known(field: &ApiField) -> bool
    ensures { result ≡ spec.is_known (field_view field.now) }
{
    match field {
        ApiField::Value(value) => value_number(value).is_some(),
        ApiField::Name(_) => true,
    }
}

/// Whether no field has an unknown constant.
pub(crate) fn all_known(fields: &[ApiField]) -> bool
    ensures { result ≡ spec.all_known (map field_view fields.now) }
{
    for field in fields {
        if !is_known(field) {
            return false;
        }
    }
    true
}

fn field_number(field: &ApiField) -> i32
    ensures { result ≡ spec.field_number (Some (field_view field.now)) }
{
    match field {
        ApiField::Value(value) => value_number(value).unwrap_or(0),
        ApiField::Name(_) => 0,
    }
}

fn field_name(field: &ApiField) -> Name
    ensures { result ≡ spec.field_name (Some (field_view field.now)) }
{
    match field {
        ApiField::Name(name) => *name,
        ApiField::Value(_) => Name {
            length: 0,
            bytes: [0; 31],
        },
    }
}

/// The number of the field at a place; 0 if it has none.
pub fn number_at(fields: &[ApiField], at: usize) -> i32
    ensures { result ≡ spec.number_at (map field_view fields.now) at }
{
    match fields.get(at) {
        Some(field) => field_number(field),
        None => 0,
    }
}

/// The name of the field at a place.
pub fn name_at(fields: &[ApiField], at: usize) -> Name
    ensures { result ≡ spec.name_at (map field_view fields.now) at }
{
    match fields.get(at) {
        Some(field) => field_name(field),
        None => Name {
            length: 0,
            bytes: [0; 31],
        },
    }
}

/// Whether the number lies between these two, both included.
pub(crate) fn between(low: u32, high: u32, x: i32) -> bool
    ensures { result ≡ spec.between low high x }
{
    if x < 0 {
        return false;
    }
    let n = x as u32;
    low <= n && n <= high
}

/// A number that a byte holds, else 0.
pub(crate) fn byte_of(x: i32) -> u8
    ensures { result ≡ spec.held 255 x }
{
    if x < 0 || x > 255 { 0 } else { x as u8 }
}

/// A number that 16 bits hold, else 0.
pub(crate) fn half_of(x: i32) -> u16
    ensures { result ≡ spec.held 65535 x }
{
    if x < 0 || x > 65535 { 0 } else { x as u16 }
}

/// A number that is not negative, else 0.
pub fn word_of(x: i32) -> u32
    ensures { result ≡ spec.held 4294967295 x }
{
    if x < 0 { 0 } else { x as u32 }
}
