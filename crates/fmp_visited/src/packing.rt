//! Rows of bytes. A row tells the values of the fields that differ from those of the first state: for eight fields at a
//! time a mask, and then each value that differs, as few bytes as it takes. So most fields take no byte, and equal rows
//! have equal values.
ghost use Rattle.std.specs.Prelude.{◌≡◌, ◌+◌, ◌≤◌, ◌∷◌, ◌++◌, IfOk, length, take, OnOk};
ghost use Rattle.fmp_visited.specs.Rows.{changes_of, group_at, mask_of, row_of};

use crate::numbers::write_number;
use std::alloc::AllocError;

/// How many fields have a mask together.
pub const GROUP: usize = 8;

/// How many bytes a group takes at most: its mask, and five for each value.
const GROUP_BYTES: usize = 41;

/// How many bytes are appended to a row together, at most.
const BLOCK: usize = 256;

/// The fields from this place on that have a mask together.
pub fn group_of(values: &[u32], start: usize) -> &[u32]
    ensures group { result.now ≡ group_at start values.now }
    ensures few { length result.now ≤ 8 }
{
    let start = start.min(values.len());
    let count = GROUP.min(values.len() - start);
    &values[start..start + count]
}

/// All eight fields from this place on, where there are as many.
#[inline(always)]
#[tactic(auto, using(crate::proofs::RowLemmas::whole_group))]
fn whole_group(values: &[u32], start: usize) -> &[u32]
    requires { start + 8 ≤ length values.now }
    ensures group { result.now ≡ group_at start values.now }
    ensures eight { length result.now ≡ 8 }
{
    &values[start..start + GROUP]
}

/// The mask of a group: a bit for each value that differs.
fn group_mask(first: &[u32], values: &[u32]) -> u8
    requires { length first.now ≤ 8 }
    ensures { result ≡ mask_of first.now values.now }
{
    let mut mask: u32 = 0;
    let mut bit: u32 = 1;
    for k in 0..first.len().min(values.len()) {
        if values[k] != first[k] {
            mask += bit;
        }
        bit *= 2;
    }
    mask as u8
}

/// The mask of a group of eight values: the bits of those that do not differ are taken from a full mask, since so the
/// compiler compares several values at once.
#[inline(always)]
fn mask_of_eight(first: &[u32], values: &[u32]) -> u8
    requires first { length first.now ≡ 8 }
    requires values { length values.now ≡ 8 }
    ensures { result ≡ mask_of first.now values.now }
{
    let mut mask: u32 = 255;
    let mut bit: u32 = 1;
    for k in 0..GROUP {
        if values[k] == first[k] {
            mask -= bit;
        }
        bit *= 2;
    }
    mask as u8
}

/// The mask of the eight fields from this place on. It is compiled by itself: where it is inlined, the values are
/// compared one by one.
#[inline(never)]
fn whole_mask(first: &[u32], values: &[u32], start: usize) -> u8
    requires first { start + 8 ≤ length first.now }
    requires values { start + 8 ≤ length values.now }
    ensures { result ≡ mask_of (group_at start first.now) (group_at start values.now) }
{
    mask_of_eight(whole_group(first, start), whole_group(values, start))
}

/// Writes the values of a group that differ, as its mask tells, over the bytes from a place on. Gives the place after
/// them.
#[inline(always)]
fn write_changes(row: &mut [u8], at: usize, first: &[u32], values: &[u32], mask: u8) -> usize
    requires few { length first.now ≤ 8 }
    requires mask { mask ≡ mask_of first.now values.now }
    requires room { at + 40 ≤ length row.old }
    ensures length { length row.new ≡ length row.old }
    ensures room { result ≤ at + 40 }
    ensures bytes { take result row.new ≡ take at row.old ++ changes_of first.now values.now }
{
    let mut bits = mask;
    let mut field: usize = 0;
    let mut end = at;
    for _change in 0..GROUP {
        if bits == 0 {
            return end;
        }
        let same = bits.trailing_zeros();
        field += same as usize;
        end = write_number(row, end, values[field]);
        field += 1;
        bits = (bits >> same) / 2;
    }
    end
}

/// Writes the mask of a group, and the values that differ, over the bytes from a place on: most groups have none. Gives
/// the place after them.
#[inline(always)]
fn write_group(row: &mut [u8], at: usize, first: &[u32], values: &[u32], mask: u8) -> usize
    requires few { length first.now ≤ 8 }
    requires mask { mask ≡ mask_of first.now values.now }
    requires room { at + 41 ≤ length row.old }
    ensures length { length row.new ≡ length row.old }
    ensures room { result ≤ at + 41 }
    ensures bytes { take result row.new ≡ take at row.old ++ mask_of first.now values.now
        ∷ changes_of first.now values.now }
{
    row[at] = mask;
    write_changes(row, at + 1, first, values, mask)
}

/// Writes the mask of the eight fields from a place on, and those of their values that differ, over the bytes from
/// another place on. Gives the place after them.
#[inline(always)]
fn write_whole(row: &mut [u8], at: usize, first: &[u32], values: &[u32], start: usize) -> usize
    requires first { start + 8 ≤ length first.now }
    requires values { start + 8 ≤ length values.now }
    requires room { at + 41 ≤ length row.old }
    ensures length { length row.new ≡ length row.old }
    ensures room { result ≤ at + 41 }
    ensures bytes { take result row.new ≡ take at row.old
        ++ mask_of (group_at start first.now) (group_at start values.now)
        ∷ changes_of (group_at start first.now) (group_at start values.now) }
{
    let mask = whole_mask(first, values, start);
    let first = whole_group(first, start);
    let values = whole_group(values, start);
    write_group(row, at, first, values, mask)
}

/// `write_whole` of the fields from a place on that have a mask together, of which there may be fewer than eight.
#[inline(never)]
fn write_part(row: &mut [u8], at: usize, first: &[u32], values: &[u32], start: usize) -> usize
    requires { at + 41 ≤ length row.old }
    ensures length { length row.new ≡ length row.old }
    ensures room { result ≤ at + 41 }
    ensures bytes { take result row.new ≡ take at row.old
        ++ mask_of (group_at start first.now) (group_at start values.now)
        ∷ changes_of (group_at start first.now) (group_at start values.now) }
{
    let first = group_of(first, start);
    let values = group_of(values, start);
    write_group(row, at, first, values, group_mask(first, values))
}

/// Appends the bytes of a block up to a place to a row, if a whole group has no room after them. Gives the place up to
/// which bytes are left in the block.
#[inline(always)]
fn make_room(row: &mut Vec<u8>, block: &[u8], end: usize) -> Result<usize, AllocError>
    requires { end ≤ length block.now }
    ensures bytes { IfOk result
        (λ left. row.new.items ++ take left block.now ≡ row.old.items ++ take end block.now) }
    ensures room { IfOk result (λ left. left + 41 ≤ 256) }
{
    if end + GROUP_BYTES <= BLOCK {
        return Ok(end);
    }
    row.extend_from_slice(&block[..end])?;
    Ok(0)
}

/// Writes the row of these values into the place of another one. `AllocError` if memory runs out.
pub fn pack(values: &[u32], first: &[u32], row: &mut Vec<u8>) -> Result<(), AllocError>
    ensures { OnOk result (row.new.items ≡ row_of first.now values.now) }
{
    row.clear();
    // The bytes are written here, and appended to the row many at a time.
    let mut block: [u8; BLOCK] = [0; BLOCK];
    let mut end: usize = 0;
    let whole = first.len().min(values.len()) / GROUP;
    for group in 0..whole {
        let left = make_room(row, &block, end)?;
        end = write_whole(&mut block, left, first, values, group * GROUP);
    }
    for part in whole..first.len() / GROUP + 1 {
        let left = make_room(row, &block, end)?;
        end = write_part(&mut block, left, first, values, part * GROUP);
    }
    row.extend_from_slice(&block[..end])
}
