//! The script: its lines and its reader.
#![tactic(auto)]

mod call_words;
pub mod cuts;
pub mod form;
pub mod group_word;
mod leaves;
pub mod line;
mod line_words;
pub mod list_word;
pub mod node_words;
pub mod numeral;
pub mod opening;
pub mod place;
pub mod ranges;
pub mod read_line;
pub mod read_script;
pub mod reader;
pub mod script_error;
mod take_line;
mod take_opening;
pub mod value_word;
pub mod words;
