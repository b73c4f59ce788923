//! Tests of what the ends answer on given bytes.

mod ends;
mod lines;
mod writing;
