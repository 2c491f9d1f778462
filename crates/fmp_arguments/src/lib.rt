//! The arguments of the command line of `fmp_view`, what its words say for them, and what a mistaken word may have
//! meant; and settings: a file beside a system, in TOML, with options of the commands that look at it. They become
//! words of the command line.
#![tactic(auto)]

mod arguments;
mod flaws;
mod given;
mod hints;
mod joining;
mod keys;
mod known_words;
mod ranges;
mod reading;
mod refusals;
mod settings_faults;
mod values;

pub use arguments::{
    Argument, ArgumentKind, BOUND_MAX, BOUNDED, CFG, CommandForm, EVENTS_MAX, JSON, JUNIT, Made,
    NO_SETTINGS, OptionValue, SRC, command_of, plain_command_of,
};
pub use flaws::{flaw_text, flaw_words};
pub use given::{
    bound_of, byte_of, entered, flag_of, text_of, word_of, word32_of, word64_of, words_of,
};
pub use joining::{added_words, join, used_text};
pub use keys::{KEYS, Key, SETTINGS, ValueKind};
pub use known_words::{add_deeds, add_name, add_tasks, question_text};
pub use ranges::kept_events;
pub use reading::{Setting, Wrong};
pub use refusals::refusal_text;
pub use settings_faults::{Refusal, read_settings};
