//! Files of CSV: the rows of an import, and the statement of a day.
//! `read_rows` gives the rows that a file tells, or what is wrong with it; `write_shown` puts a statement, byte for byte, without memory.
//! It stands on `desk_io` for output and numbers, on `desk_types` for rows, on `query_words` for texts, and on the library `csv`.
//! What an import makes, and what a statement tells, is left to the desk.
#![tactic(auto)]

mod fault;
mod import;
mod laws;
mod limits;
mod row;
mod shown;

pub use fault::CsvFault;
pub use import::read_rows;
pub use laws::a_file_tells_one_thing;
pub use limits::{FILE_ROWS_MAX, file_limits_are_these};
pub use shown::write_shown;
