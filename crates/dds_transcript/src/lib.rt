//! The transcript: its lines, the text of each, and its writer.
#![tactic(auto)]

pub mod line_text;
pub mod report_line;
mod text_pieces;
pub mod write_lines;
