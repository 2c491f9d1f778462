//! The times of a run, where they are known.
ghost use Rattle.std.specs.Prelude.{◌≡◌, IfOk};
ghost use Rattle.fmp_frames.specs.Times as spec;

use std::alloc::{AllocError, Global};

fn is_known(time: Option<u64>) -> bool
    ensures { result ≡ spec.is_known time }
{
    match time {
        Some(_) => true,
        None => false,
    }
}

fn or_zero(time: Option<u64>) -> u64
    ensures { result ≡ spec.or_zero time }
{
    match time {
        Some(time) => time,
        None => 0,
    }
}

fn are_known(times: &[Option<u64>]) -> bool
    ensures { result ≡ spec.are_known times.now }
{
    for time in times {
        if !is_known(*time) {
            return false;
        }
    }
    true
}

fn has_times(times: &[Option<u64>]) -> bool
    ensures { result ≡ spec.has_times times.now }
{
    match times {
        [] => false,
        _ => are_known(times),
    }
}

/// The times of setup, which is at 0, and of events, if there are any and the time of each is known; else none.
/// `AllocError` if memory runs out.
pub fn known_times(alloc: Global, times: &[Option<u64>]) -> Result<Vec<u64>, AllocError>
    ensures { IfOk result (λ known. known.items ≡ spec.known_times times.now) }
{
    let mut known = Vec::new(alloc);
    if has_times(times) {
        known.push(0)?;
        for time in times {
            known.push(or_zero(*time))?;
        }
    }
    Ok(known)
}
