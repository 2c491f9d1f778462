//! The values that a row tells.
ghost use Rattle.std.specs.Prelude.{◌≡◌, ◌≤◌, ◌++◌, ℕ, List, drop, length, IfOk, OnOk, true};
ghost use Rattle.fmp_visited.specs.Rows.{AreValues, changes_of, mask_of, row_of};

use crate::numbers::number_at;
use crate::packing::GROUP;
use std::alloc::AllocError;

/// Writes the values that differ over those of a group with this mask. They stand from a place of a row on. Gives the
/// place after them, and whether the mask and the bytes are the ones that `pack` writes for these values.
fn unpack_group(row: &[u8], place: usize, mask: u8, values: &mut [u32]) -> (usize, bool)
    requires { length values.old ≤ 8 }
    ensures length { length values.new ≡ length values.old }
    ensures told { (v rest : List ℕ) → length v ≡ length values.old → AreValues v → mask ≡ mask_of values.old v →
        drop place row.now ≡ changes_of values.old v ++ rest →
        (values.new ≡ v) × (drop result.0 row.now ≡ rest) }
    ensures exact { result.1 ≡ true → (mask ≡ mask_of values.old values.new)
        × (drop place row.now ≡ changes_of values.old values.new ++ drop result.0 row.now) }
{
    let mut at = place;
    let mut bits = mask;
    let mut field: usize = 0;
    let mut exact = true;
    for _change in 0..GROUP {
        if bits == 0 {
            return (at, exact);
        }
        let same = bits.trailing_zeros();
        field += same as usize;
        if field >= values.len() {
            return (at, false);
        }
        let read = number_at(row, at);
        exact &= read.exact;
        exact &= read.number != values[field];
        values[field] = read.number;
        at = read.end;
        field += 1;
        bits = (bits >> same) / 2;
    }
    exact &= bits == 0;
    (at, exact)
}

/// Writes the values that differ over the first ones, of which these are a copy: whether the row is the one that `pack`
/// writes for these values.
fn unpack_groups(row: &[u8], values: &mut [u32]) -> bool
    ensures length { length values.new ≡ length values.old }
    ensures told { (v : List ℕ) → length v ≡ length values.old → AreValues v → row.now ≡ row_of values.old v →
        values.new ≡ v }
    ensures exact { result ≡ true → row.now ≡ row_of values.old values.new }
{
    let mut at: usize = 0;
    let mut exact = true;
    for group in 0..values.len() / GROUP + 1 {
        if at >= row.len() {
            return false;
        }
        let start = group * GROUP;
        let count = GROUP.min(values.len() - start);
        let (end, told) = unpack_group(row, at + 1, row[at], &mut values[start..start + count]);
        exact &= told;
        at = end;
    }
    exact &= at == row.len();
    exact
}

/// Writes the values of a row into the place of others: whether the row is the one that `pack` writes for them.
/// `AllocError` if memory runs out.
pub fn unpack_checked(row: &[u8], first: &[u32], values: &mut Vec<u32>) -> Result<bool, AllocError>
    ensures told { (v : List ℕ) → length v ≡ length first.now → AreValues v → row.now ≡ row_of first.now v →
        OnOk result (values.new.items ≡ v) }
    ensures exact { IfOk result (λ exact. exact ≡ true → row.now ≡ row_of first.now values.new.items) }
{
    values.clear();
    values.extend_from_slice(first)?;
    Ok(unpack_groups(row, values))
}

/// Writes the values of a row into the place of others. `AllocError` if memory runs out.
pub fn unpack(row: &[u8], first: &[u32], values: &mut Vec<u32>) -> Result<(), AllocError>
    ensures { (v : List ℕ) → length v ≡ length first.now → AreValues v → row.now ≡ row_of first.now v →
        OnOk result (values.new.items ≡ v) }
{
    unpack_checked(row, first, values)?;
    Ok(())
}
