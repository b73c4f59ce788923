//! The options of the commands, as `clap` reads them.

ghost use Rattle.std.specs.Prelude.{◌≡◌, ◌≢◌, true, false, map, string_bytes, IfOk, Err};
ghost use Rattle.clap.specs.Values.{kind_of};
ghost use Rattle.clap.specs.Walk.{rule_of};
ghost use Rattle.clap.specs.Simple.{app_of};
ghost use Rattle.command_line.specs.Options.{are_taken, clap_command, desk_options, found_by, with_options, options_of};
ghost use Rattle.command_line.specs.Options.{named_option};
ghost use Rattle.command_line.specs.Reading.{rows_found};

use crate::command::Command;
use crate::told::WordsFault;
use clap::error::ErrorKind;
use clap::{Arg, ArgMatches, Command as Parser, Error};
use query_words::NoMemory;
use std::alloc::Global;

/// What a parse of the words, of which the first names the command, finds of the command's options.
pub(crate) fn parse<'a>(
    alloc: Global,
    command: Command,
    words: &'a [String],
) -> Result<ArgMatches<'a>, WordsFault>
    ensures taken { IfOk result (λ _. are_taken command (map string_bytes words.entry.now) ≡ true) }
    ensures found { IfOk result (λ matches. rows_found matches ≡ found_by command (map string_bytes words.entry.now)) }
    ensures refused { result ≡ Err WordsFault.Refused
        → are_taken command (map string_bytes words.entry.now) ≡ false }
{
    let parser = parser_of(alloc, command)?;
    match parser.try_get_matches_from(words) {
        Ok(matches) => Ok(matches),
        Err(error) => Err(words_fault(&error)),
    }
}

/// What a fault of a parse comes to.
fn words_fault(error: &Error) -> WordsFault
    ensures { result ≡ WordsFault.Refused → kind_of error.now ≢ ErrorKind.OutOfMemory }
{
    if error.kind() == ErrorKind::OutOfMemory {
        WordsFault::NoMemory
    } else {
        WordsFault::Refused
    }
}

/// The parser of what stands behind a command.
fn parser_of<'a>(alloc: Global, command: Command) -> Result<Parser<'a>, NoMemory>
    ensures { IfOk result (λ parser. app_of parser ≡ clap_command command) }
{
    match command {
        Command::Auction => Ok(Parser::new(alloc, "auction")),
        Command::Script => with_desk(alloc, Parser::new(alloc, "script")),
        Command::Run => with_host(alloc, Parser::new(alloc, "run")),
        Command::Drill => with_drill(alloc, Parser::new(alloc, "drill")),
        Command::Serve => with_server(alloc, Parser::new(alloc, "serve")),
    }
}

/// A parser with the options of a desk.
fn with_desk<'a>(alloc: Global, parser: Parser<'a>) -> Result<Parser<'a>, NoMemory>
    ensures { IfOk result (λ more. app_of more ≡ with_options (app_of parser.entry) desk_options) }
{
    parser
        .arg(named(alloc, "reserve"))?
        .arg(named(alloc, "floor"))?
        .arg(named(alloc, "places"))?
        .arg(named(alloc, "journal"))?
        .arg(named(alloc, "journal-bytes"))?
        .arg(named(alloc, "placements"))
}

/// A parser with the options of a run.
fn with_host<'a>(alloc: Global, parser: Parser<'a>) -> Result<Parser<'a>, NoMemory>
    ensures { IfOk result (λ more. app_of more ≡ with_options (app_of parser.entry) (options_of Command.Run)) }
{
    with_desk(alloc, parser)?.arg(named(alloc, "host-key").required(true))
}

/// A parser with the options of a server.
fn with_server<'a>(alloc: Global, parser: Parser<'a>) -> Result<Parser<'a>, NoMemory>
    ensures { IfOk result (λ more. app_of more ≡ with_options (app_of parser.entry) (options_of Command.Serve)) }
{
    with_host(alloc, parser)?
        .arg(named(alloc, "port").required(true))?
        .arg(named(alloc, "workers").required(true))?
        .arg(named(alloc, "sessions"))
}

/// A parser with the words of a drill.
fn with_drill<'a>(alloc: Global, parser: Parser<'a>) -> Result<Parser<'a>, NoMemory>
    ensures { IfOk result (λ more. app_of more ≡ with_options (app_of parser.entry) (options_of Command.Drill)) }
{
    parser
        .arg(Arg::new(alloc, "start").required(true))?
        .arg(Arg::new(alloc, "size").required(true))
}

/// An option `--NAME VALUE`.
fn named<'a>(alloc: Global, name: &'a str) -> Arg<'a>
    ensures rule { rule_of result ≡ named_option name.entry.now }
    ensures local { result.global ≡ false }
{
    Arg::new(alloc, name).long(name)
}
