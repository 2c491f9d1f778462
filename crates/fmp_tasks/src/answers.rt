//! What service calls answer.
ghost use Rattle.std.specs.Prelude.{◌≡◌};
ghost use Rattle.fmp_base.specs.Outcomes.{code as code_of, given as given_of};

use fmp_base::{Answer, Er, Reply};

/// A reply that is only a code.
pub fn code(e: Er) -> Reply
    ensures { result ≡ code_of e }
{
    Reply {
        code: e,
        value: None,
    }
}

/// E_OK with a value.
pub fn given(value: i32) -> Reply
    ensures { result ≡ given_of value }
{
    Reply {
        code: Er::Ok,
        value: Some(value),
    }
}

/// The answer that is only a code: E_OK, or why a call is refused.
pub fn replied(e: Er) -> Answer
    ensures { result ≡ Answer.Replies (code_of e) }
{
    Answer::Replies(code(e))
}

/// The answer E_OK with a value.
pub fn gives(value: i32) -> Answer
    ensures { result ≡ Answer.Replies (given_of value) }
{
    Answer::Replies(given(value))
}
