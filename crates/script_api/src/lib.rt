//! The language of scripts: what a line of text spells, the line of an answer, and the run of a script on a service.
//! `read_line` gives the call and the moment that a line spells, exactly by the forms of the commands; `put_answer_line` puts an answer's line, byte for byte.
//! `script` makes the calls of the lines of an input, one after another, and writes the lines of their answers, up to the first line that ends the script.
//! It stands on `desk_io` for lines and output, on `desk_types` for calls, answers and services, on `match_types` for the causes of a bad pattern, and on `query_words` for texts.
//! What answers the calls is left to the crates above.
#![tactic(auto)]

mod asks;
mod bar;
mod call;
mod command;
mod edits;
mod ending;
pub mod fields;
mod line;
mod parts;
mod reply_line;
mod report_line;
mod run;
mod serving;

pub use ending::ScriptEnd;
pub use line::{ScriptLine, read_line};
pub use reply_line::put_answer_line;
pub use run::script;
