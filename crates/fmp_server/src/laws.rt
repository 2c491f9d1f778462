//! Laws of the stream of messages.
ghost use Rattle.fmp_server.specs.Laws.{ReadsBack, ReadsParts};

/// What comes in parts is read as what comes whole.
pub fn parts_are_read_as_the_whole()
    ensures { ReadsParts }
{}

/// A message after the header that it is written with is read back, if it has at most 64 MiB, and at least one byte.
pub fn what_is_framed_is_read_back()
    ensures { ReadsBack }
{}
