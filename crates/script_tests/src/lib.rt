//! Tests of scripts, by their public calls: what lines spell, how a script ends, and the lines of answers.
//! They stand here and not in `script_api`, since a crate with tests is proved twice.
#![tactic(auto)]

#[cfg(test)]
mod answers;
#[cfg(test)]
mod lines;
#[cfg(test)]
mod runs;
