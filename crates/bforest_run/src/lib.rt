//! Calls on a forest as lines of text, and their answers as lines of text.
//!
//! [`run_text`] is the engine of the program `forest_run`. docs/RULES.md has the lines. Each line that is a call is made by
//! [`bforest_calls::make`]; [`run_map`] and [`run_set`] serve callers that have lists of calls as values.
#![tactic(auto)]

mod book_line;
mod books;
mod engine;
mod handles;
mod line;
mod lines;
mod maps;
mod named;
mod order;
mod parse;
mod reply;
mod sets;
mod shown;
mod shown_answer;
mod shown_books;
mod stop;
mod text;
mod word;

pub use bforest_calls::{Act, Answer, Call, Look, Seen, Side, run_map, run_set};
pub use text::{Kind, run_text};
pub use word::number;
