//! Sessions of HTTP: what a message of bytes asks for, the text of an answer, and the run of a session on a service.
//! `session` reads the messages of a link, makes the calls that they ask for, one after another, and writes the texts of the answers, byte for byte, however the link cuts its bytes.
//! It stands on `desk_io` for links, clocks and output, on `desk_types` for calls, answers and services, on `ad_reports` and `csv_import` for files, and on the libraries `httparse`, `matchit`, `serde_json`, `form_urlencoded` and `http`.
//! What answers the calls is left to the crates above.
#![tactic(auto)]

mod answer;
mod answer_body;
mod answer_text;
mod asked;
mod body;
mod close;
mod ending;
mod head;
mod head_end;
mod json;
mod judgement;
mod laws;
mod length;
mod limits;
mod next_message;
mod query;
mod reader;
mod resource;
mod route;
mod run;
mod serving;
mod verdict;

pub use ending::{Session, SessionEnd};
pub use laws::a_message_has_one_verdict;
pub use limits::{
    BODY_BYTES_MAX, FIELDS_MAX, HEAD_BYTES_MAX, MESSAGES_MAX, session_limits_are_these,
};
pub use run::session;
