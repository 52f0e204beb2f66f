//! The top call of the compiler: what the words of a command line ask for, done over a store, an
//! input and two outputs that are handed in.
#![tactic(auto)]

mod command;
mod commands;
mod expanded;
mod fetching;
mod line;
mod listed;
mod making;
mod moving;
mod options;
mod outcome;
mod refusal_texts;
mod running;
mod status;
mod top;
mod words;
mod written;

pub use command::{Command, Verb};
pub use status::Status;
pub use top::tool;
pub use words::{WordFault, parse_words};
