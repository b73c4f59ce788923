//! What the options that were found tell.

ghost use Rattle.std.specs.Prelude.{◌≡◌, ◌≤◌, codes, IfSome, option_map};
ghost use Rattle.clap.specs.Walk.{first_of};
ghost use Rattle.command_line.specs.Reading.{AnswersTold, rows_found};
ghost use Rattle.command_line.specs.Values.{bare, desk_told, drill_told, key_from, keyed_told, number_from, number_or};
ghost use Rattle.command_line.specs.Values.{serve_told, settings_told, values_told};

use crate::command::Command;
use crate::limits::{
    DRILL_SIZE_MAX, DRILL_START_MAX, PORT_MAX, SESSIONS_MAX, SESSIONS_USUAL, WORKERS_MAX,
};
use crate::told::{Told, WordsFault};
use auction_types::limits::{BID_MAX, BID_MIN, FLOOR_MAX, PLACES_MAX};
use clap::ArgMatches;
use desk_io::number::number_in;
use desk_types::limits::{
    JOURNAL_BYTES_MAX, JOURNAL_MAX, JOURNAL_USUAL, PLACEMENTS_MAX, PLACEMENTS_USUAL, PLACES_USUAL,
    RESERVE_USUAL,
};
use desk_types::{Settings, is_key};
use query_words::Text;
use std::alloc::Global;

/// What a command tells with what was found of its options.
pub(crate) fn tell(
    alloc: Global,
    command: Command,
    matches: &ArgMatches<'_>,
) -> Result<Told, WordsFault>
    ensures { AnswersTold (values_told command (rows_found matches.now)) result }
{
    match command {
        Command::Auction => Ok(bare(command, Settings::usual())),
        Command::Script => tell_desk(command, matches),
        Command::Run => tell_keyed(alloc, command, matches),
        Command::Drill => tell_drill(matches),
        Command::Serve => tell_serve(alloc, matches),
    }
}

/// What is told by a command that opens a desk.
fn tell_desk(command: Command, matches: &ArgMatches<'_>) -> Result<Told, WordsFault>
    ensures { AnswersTold (desk_told command (rows_found matches.now)) result }
{
    let settings = read_settings(matches).ok_or(WordsFault::Refused)?;
    Ok(bare(command, settings))
}

/// What is told by a command that opens a desk and has the host's key.
#[tactic(auto, unfolding(crate::specs::Values::keyed_told))]
fn tell_keyed(alloc: Global, command: Command, matches: &ArgMatches<'_>) -> Result<Told, WordsFault>
    ensures { AnswersTold (keyed_told command (rows_found matches.now)) result }
{
    let key = read_key(matches).ok_or(WordsFault::Refused)?;
    let told = tell_desk(command, matches)?;
    Ok(Told {
        host_key: Some(Text::new(alloc, key)?),
        ..told
    })
}

/// What is told by a server.
#[tactic(auto, unfolding(crate::specs::Values::serve_told))]
fn tell_serve(alloc: Global, matches: &ArgMatches<'_>) -> Result<Told, WordsFault>
    ensures { AnswersTold (serve_told (rows_found matches.now)) result }
{
    let port = read_number(matches, "port", 1, PORT_MAX).ok_or(WordsFault::Refused)?;
    let workers = read_number(matches, "workers", 1, WORKERS_MAX).ok_or(WordsFault::Refused)?;
    let sessions = read_number_or(matches, "sessions", SESSIONS_USUAL, 1, SESSIONS_MAX);
    let sessions = sessions.ok_or(WordsFault::Refused)?;
    let told = tell_keyed(alloc, Command::Serve, matches)?;
    Ok(Told {
        port,
        workers,
        sessions,
        ..told
    })
}

/// What is told by a drill.
#[tactic(auto, unfolding(crate::specs::Values::drill_told))]
fn tell_drill(matches: &ArgMatches<'_>) -> Result<Told, WordsFault>
    ensures { AnswersTold (drill_told (rows_found matches.now)) result }
{
    let start = read_number(matches, "start", 0, DRILL_START_MAX).ok_or(WordsFault::Refused)?;
    let size = read_number(matches, "size", 0, DRILL_SIZE_MAX).ok_or(WordsFault::Refused)?;
    let told = bare(Command::Drill, Settings::usual());
    Ok(Told {
        start,
        size,
        ..told
    })
}

/// A command that has nothing but these settings.
fn bare(command: Command, settings: Settings) -> Told
    ensures { result ≡ bare command settings }
{
    Told {
        command,
        settings,
        db: None,
        host_key: None,
        port: 0,
        workers: 0,
        sessions: 0,
        start: 0,
        size: 0,
    }
}

/// The settings that are told, or `None` where one is not a number in its range.
#[tactic(auto, unfolding(crate::specs::Values::settings_told))]
fn read_settings(matches: &ArgMatches<'_>) -> Option<Settings>
    ensures { result ≡ settings_told (rows_found matches.now) }
{
    Settings::new(
        read_number_or(matches, "reserve", RESERVE_USUAL, BID_MIN, BID_MAX)?,
        read_number_or(matches, "floor", 0, 0, FLOOR_MAX)?,
        read_number_or(matches, "places", PLACES_USUAL, 1, PLACES_MAX)?,
        read_number_or(matches, "journal", JOURNAL_USUAL, 1, JOURNAL_MAX)?,
        read_number_or(
            matches,
            "journal-bytes",
            JOURNAL_BYTES_MAX,
            1,
            JOURNAL_BYTES_MAX,
        )?,
        read_number_or(matches, "placements", PLACEMENTS_USUAL, 1, PLACEMENTS_MAX)?,
    )
}

/// The host's key, or `None` where none is given or the text is no key.
fn read_key<'a>(matches: &ArgMatches<'a>) -> Option<&'a str>
    ensures { option_map (λ key. key.now) result ≡ key_from (first_of (codes "host-key") (rows_found matches.now)) }
{
    let key = read_text(matches, "host-key")?;
    if is_key(key) { Some(key) } else { None }
}

/// The number of an option, or `None` where none is given or it is not in the range.
fn read_number(matches: &ArgMatches<'_>, name: &str, least: u64, most: u64) -> Option<u64>
    ensures { result ≡ number_from least most (first_of name.now (rows_found matches.now)) }
{
    number_in(read_text(matches, name)?.as_bytes(), least, most)
}

/// The number of an option, or the usual one where none is given, or `None` where it is not in the range.
fn read_number_or(
    matches: &ArgMatches<'_>,
    name: &str,
    usual_number: u64,
    least: u64,
    most: u64,
) -> Option<u64>
    requires least { least ≤ usual_number }
    requires most { usual_number ≤ most }
    ensures number { result ≡ number_or usual_number least most (first_of name.now (rows_found matches.now)) }
    ensures in_range { IfSome result (λ n. (least ≤ n) × (n ≤ most)) }
{
    match read_text(matches, name) {
        Some(text) => number_in(text.as_bytes(), least, most),
        None => Some(usual_number),
    }
}

/// The text of an option, if one is given.
fn read_text<'a>(matches: &ArgMatches<'a>, name: &str) -> Option<&'a str>
    ensures { option_map (λ text. text.now) result ≡ first_of name.now (rows_found matches.now) }
{
    matches.get_str(name)
}
