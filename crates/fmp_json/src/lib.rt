//! Pieces of printed texts; objects of JSON, one a line, and reports of tests in the XML of JUnit, for other programs.
#![tactic(auto)]

mod junit;
mod members;
mod text;
mod xml;

pub use junit::{TestCase, TestSuite, Verdict, append_report};
pub use members::{begin, begin_list, end_list, finish, number_member, text_member};
pub use text::{append, append_number, append_signed};
