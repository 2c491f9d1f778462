//! What a program reaches outside of itself, and how it ends: files that are read and written whole, to the last byte
//! or not at all, with a fault exactly where a call of the system failed; the words of its command line; what it says,
//! and its status.
#![tactic(auto)]

mod device;
mod ending;
mod failure;
mod outside;
mod reading;
mod words;
mod writing;

pub use device::{Device, Failed, Sink, Source};
pub use ending::{Reason, end, print, refuse, refuse_mistake};
pub use failure::{Failure, failed, read_file, write_file};
pub use outside::{Host, Outside};
pub use reading::{ReadFault, read_in};
pub use words::{WordsFault, mistake, mistake_of, refuse_words, words_of};
pub use writing::{WriteFault, write_out};
