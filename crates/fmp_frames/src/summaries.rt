//! What is said of the responses to the requests of a handler.
ghost use Rattle.std.specs.Prelude.{◌≡◌, IfOk, IfNone, IfSome, MatchOption, [], length};
ghost use Rattle.fmp_frames.specs.Summaries as spec;
ghost use Rattle.fmp_frames.specs.Summaries.{Summarizes};

use crate::responses::{Response, Responses, place_of};
use fmp_base::Handler;
use std::alloc::{AllocError, Global};

/// How long the responses to the requests of a handler took, in microseconds.
#[derive(Clone, Copy)]
pub struct ResponseSummary {
    /// How many responses there are.
    pub count: usize,
    /// That in the middle when they are in order, the lower of two.
    pub median: u64,
    /// The longest.
    pub worst: u64,
}

fn is_to(response: Response, handler: Handler) -> bool
    ensures { result ≡ spec.is_to handler response }
{
    place_of(response.handler) == place_of(handler)
}

/// How long those responses took that are to the requests of a handler.
fn times_of(alloc: Global, handler: Handler, all: &[Response]) -> Result<Vec<u64>, AllocError>
    ensures { IfOk result (λ times. times.items ≡ spec.times_of handler all.now) }
{
    let mut times = Vec::new(alloc);
    for response in all {
        if is_to(*response, handler) {
            times.push(response.micros)?;
        }
    }
    Ok(times)
}

/// What is said of times in order.
fn summary_of(sorted: &[u64]) -> Option<ResponseSummary>
    ensures { MatchOption result (sorted.now ≡ []) (spec.IsSummary sorted.now) }
{
    let last = sorted.len().checked_sub(1)?;
    Some(ResponseSummary {
        count: sorted.len(),
        median: sorted[last / 2],
        worst: sorted[last],
    })
}

impl Responses {
    /// What is said of the responses to the requests of a handler; none if there are none. `AllocError` if memory runs
    /// out.
    pub fn summary(
        &self,
        alloc: Global,
        handler: Handler,
    ) -> Result<Option<ResponseSummary>, AllocError>
        ensures { IfOk result (λ found. MatchOption found (spec.times_of handler self.now.all.items ≡ [])
            (λ x. Summarizes x (spec.times_of handler self.now.all.items))) }
    {
        let mut times = times_of(alloc, handler, &self.all)?;
        times.sort()?;
        Ok(summary_of(&times))
    }
}
