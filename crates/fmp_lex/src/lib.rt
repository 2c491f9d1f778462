//! The tokens of both texts, the configuration and the task bodies. How a text is cut is defined in `specs/`.
#![tactic(auto)]

mod cutting;
pub mod fault;
mod finding;
pub mod laws;
mod lengths;
mod marks;
mod object_name;
mod packed;
mod position;
pub mod reading;
mod scanning;
mod small;
mod stops;
pub mod token;
mod window;

pub use cutting::{TEXT_MAX, tokens};
pub use fault::{BuildFault, FaultKind, TextFile, fault_at, offence_at, too_long};
pub use fmp_base::words::{self, Api, Constant, Keyword};
pub use marks::{Mark, expect_mark};
pub use object_name::ObjectName;
pub use packed::Tokens;
pub use position::TokenPosition;
pub use reading::{FirstFault, GrammarFault, ReadError};
pub use token::{LexFault, Symbol, TextFault, Token, TokenKind, TokenList};
pub use window::Window;
