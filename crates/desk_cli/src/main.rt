//! The program `desk`: its words, its commands and their statuses.
//! `desk_top` runs the command that its words tell: it reads an auction and writes its page, or it serves the calls of a
//! script, of a session of HTTP or of a drill by one desk, whose answers are the ledger's. `serve_top` serves one such desk
//! at several doors at once, and says what was done.
//! It stands on `command_line` for the words, on `auction_page`, `script_api`, `http_api`, `drill_calls` and `desk_server`
//! for the commands, and on `desk_core` for the desk.
//! `main` makes the real input and output, the doors and the clocks, and nothing else.
#![tactic(auto)]

mod drilling;
mod listening;
mod opening;
mod saying;
mod scripting;
mod served;
mod serving;
mod sessions;
mod top;

use desk_io::{Clock, Sink, Source, StdSink, StdSource, WallClock};
use desk_keeper::KeeperMem;
use desk_types::Tables;
use printouts::NO_MEMORY;
use std::alloc::Global;
use std::process::ExitCode;
use std::{env, io};

fn main(rt: HostRuntime) -> ExitCode {
    let alloc = rt.alloc();
    let words = words_of(&rt);
    let mut output = StdSink::new(rt.stdout());
    if let Ok(words) = &words
        && let Some(status) = listening::listen(&rt, alloc, words, &mut output)
    {
        return ExitCode::from(status);
    }
    let mut input = StdSource::new(rt.stdin());
    let mut clock = WallClock::new(&rt);
    ExitCode::from(status_of(alloc, words, &mut input, &mut output, &mut clock))
}

/// The status of the call by these words; 5 where they wanted memory, and words that cannot be read are
/// refused.
fn status_of<S: Source, T: Sink, C: Clock>(
    alloc: Global,
    words: io::Result<Vec<String>>,
    input: &mut S,
    output: &mut T,
    clock: &mut C,
) -> u8 {
    let words = match words {
        Ok(words) => words,
        Err(error) if error.kind() == io::ErrorKind::OutOfMemory => return NO_MEMORY,
        Err(_) => Vec::new(alloc),
    };
    let keeper = KeeperMem::new(alloc, Tables::new(alloc), Vec::new(alloc));
    served::status_of(top::desk_top(alloc, &words, input, output, keeper, clock))
}

/// The words behind the program's name.
fn words_of(rt: &HostRuntime) -> io::Result<Vec<String>> {
    let mut words = Vec::new(rt.alloc());
    for word in env::args(rt)?.skip(1) {
        words.push(word)?;
    }
    Ok(words)
}

#[cfg(test)]
mod tests;
