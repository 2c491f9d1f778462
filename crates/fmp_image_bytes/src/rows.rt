//! Rows and tables of any kind.

ghost use Rattle.std.specs.Prelude.{◌≡◌, ◌++◌, ◌∷◌, [], ◌<◌, ◌≤◌, ℕ, List, length, map, OnOk, IfOk};
ghost use Rattle.std.specs.List.{flat_map, AllByRecursion};
ghost use Rattle.fmp_base.specs.Names.{name_text};
ghost use Rattle.fmp_image_bytes.specs.Fields.{Field, Gives, byte, text};
ghost use Rattle.fmp_image_bytes.specs.Rows.{RowContext, context_of, bit};
ghost use Rattle.fmp_image_bytes.specs.ImageContexts.{rows_context};
ghost use Rattle.fmp_image_bytes.specs.Tables.{rows_at, table};
ghost use Rattle.fmp_image_bytes.specs.declared.keys.Key as spec_key;

use crate::fault::{LoadFault, TABLE};
use crate::fields::{byte_at, put_byte, put_text};
use crate::heads::BodyHead;
use crate::keys::{Key, TakenKeys, is_taken, take};
use fmp_base::Name;
use std::alloc::{AllocError, Global};

/// Appends a byte: a number that stands for true, or 0 for false. `AllocError` if memory runs out.
pub fn put_bit(out: &mut Vec<u8>, is_set: bool, number: u8) -> Result<(), AllocError>
    ensures { OnOk result (out.new.items ≡ out.old.items ++ byte.spell (bit is_set number)) }
{
    put_byte(out, if is_set { number } else { 0 })
}

/// Appends a name after its length. `AllocError` if memory runs out.
pub fn put_name(out: &mut Vec<u8>, name: &Name) -> Result<(), AllocError>
    requires { length (name_text name.now) < 256 }
    ensures { OnOk result (out.new.items ≡ out.old.items ++ text.spell (name_text name.now)) }
{
    put_text(out, name.as_bytes())
}

/// A row of a table.
pub trait Row: Copy {
    ghost field: { RowContext → Field Self };

    ghost key_of: { Self → spec_key.Key };

    ghost spelled: { Self → List ℕ };

    ghost can_put: { Self → Type 0 };

    /// Reads a row of an image of a version from the front of the bytes, and gives the bytes after it. The processors
    /// are how many the system has, 1 to 8; the heads are those of its bodies, by place. `ImageFault::Short` if a field
    /// ends past the bytes, `ImageFault::Table` if a value breaks a rule of the row.
    fn read<'a>(
        version: u16,
        processors: u8,
        heads: &[BodyHead],
        bytes: &'a [u8],
    ) -> Result<(Self, &'a [u8]), LoadFault>
        ensures { Gives (λ x. (x.0, x.1.now)) result
            ((field (context_of version processors heads.now)).read bytes.now) };

    /// What may stand only once in an image.
    fn key(&self) -> Key
        ensures { result ≡ key_of self.now };

    /// Puts the row after the bytes. `AllocError` if memory runs out.
    fn put(&self, out: &mut Vec<u8>) -> Result<(), AllocError>
        requires { can_put self.now }
        ensures { OnOk result (out.new.items ≡ out.old.items ++ spelled self.now) };
}

/// What the rows of an image refer to.
#[derive(Clone, Copy)]
pub struct ImageContext<'a> {
    /// The version of the image.
    pub version: u16,
    /// How many processors its system has, 1 to 8.
    pub processors: u8,
    /// What is said of each body.
    pub heads: &'a [BodyHead],
}

/// Reads this many rows, and enters their keys among those that are taken. The faults are those of a row,
/// `ImageFault::Table` for a key that is taken, and `LoadFault::Memory` if memory runs out.
pub fn read_rows<'a, R: Row>(
    alloc: Global,
    context: ImageContext<'_>,
    count: u8,
    taken: &mut TakenKeys,
    bytes: &'a [u8],
) -> Result<(Vec<R>, &'a [u8]), LoadFault>
    ensures read { Gives (λ x. (x.0.items, x.1.now)) result
        (rows_at (R.field (rows_context context.entry)) R.key_of count taken.old.keys bytes.now) }
    ensures taken { IfOk result (λ x. taken.new.keys ≡ taken.old.keys ++ map R.key_of x.0.items) }
{
    let ImageContext {
        version,
        processors,
        heads,
    } = context;
    let mut rows = Vec::new(alloc);
    let mut rest = bytes;
    for _ in 0..count {
        let (row, after) = R::read(version, processors, heads, rest)?;
        let key = row.key();
        if is_taken(&key, taken) {
            return Err(TABLE);
        }
        take(key, taken)?;
        rows.push(row)?;
        rest = after;
    }
    Ok((rows, rest))
}

/// Reads a table: a count, and that many rows. Enters the keys of its rows among those that are taken. The faults are
/// those of `read_rows`, and `ImageFault::Short` if there is no count.
pub fn read_table<'a, R: Row>(
    alloc: Global,
    context: ImageContext<'_>,
    taken: &mut TakenKeys,
    bytes: &'a [u8],
) -> Result<(Vec<R>, &'a [u8]), LoadFault>
    ensures read { Gives (λ x. (x.0.items, x.1.now)) result
        ((table (R.field (rows_context context.entry)) R.key_of taken.old.keys).read bytes.now) }
    ensures taken { IfOk result (λ x. taken.new.keys ≡ taken.old.keys ++ map R.key_of x.0.items) }
{
    let (count, rest) = byte_at(bytes)?;
    read_rows(alloc, context, count, taken, rest)
}

/// Puts a table of at most 255 rows after the bytes. `AllocError` if memory runs out.
pub fn put_table<R: Row>(out: &mut Vec<u8>, rows: &[R]) -> Result<(), AllocError>
    requires count { length rows.now < 256 }
    requires rows { AllByRecursion R.can_put rows.now }
    ensures { OnOk result (out.new.items ≡ out.old.items ++ length rows.now ∷ flat_map R.spelled rows.now) }
{
    put_byte(out, rows.len() as u8)?;
    for row in rows {
        row.put(out)?;
    }
    Ok(())
}
