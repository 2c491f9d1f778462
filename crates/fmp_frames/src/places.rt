//! Lists with a place for each handler or task.
ghost use Rattle.std.specs.Prelude.{◌≡◌, IfOk, None, get_or, replicate, slice_set};

use std::alloc::{AllocError, Global};

/// This many places with nothing. `AllocError` if memory runs out.
pub fn nothing<T: Copy + Drop>(alloc: Global, count: usize) -> Result<Vec<Option<T>>, AllocError>
    ensures { IfOk result (λ xs. xs.items ≡ replicate count None) }
{
    let mut xs = Vec::with_capacity(alloc, count)?;
    for _place in 0..count {
        xs.push(None)?;
    }
    Ok(xs)
}

/// What stands at a place; nothing beyond the end.
pub fn at<T: Copy + Drop>(xs: &[Option<T>], place: usize) -> Option<T>
    ensures { result ≡ get_or xs.now place None }
{
    match xs.get(place) {
        Some(x) => *x,
        None => None,
    }
}

/// Puts this at a place; beyond the end nothing changes.
pub fn put<T: Copy + Drop>(xs: &mut [Option<T>], place: usize, x: Option<T>)
    ensures { xs.new ≡ slice_set xs.old place x }
{
    if place < xs.len() {
        xs[place] = x;
    }
}
