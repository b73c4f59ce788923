//! What lines spell.

use desk_types::Call;
use query_words::NoMemory;
use script_api::{ScriptLine, read_line};
use std::alloc::Global;
use std::fmt::Write;
use std::process::Abort;
use std::test::Fail;

/// What a line spells: a call at its moment as its line, with `<` and `>` round each text that may hold spaces.
fn spelling(alloc: Global, line: &[u8]) -> Result<String, NoMemory> {
    let mut text = String::new(alloc);
    match read_line(alloc, line)? {
        ScriptLine::Bad => text.push_str("bad")?,
        ScriptLine::Timed { moment, call } => {
            write!(text, "{moment} ")?;
            write_call(&mut text, &call)?;
        }
    }
    Ok(text)
}

fn write_call(out: &mut String, call: &Call) -> Result<(), NoMemory> {
    match call {
        Call::AddAccount { key } => write!(out, "account {}", key.as_str()),
        Call::SetQuality {
            account,
            line,
            quality,
        } => write!(out, "quality {account} {line} {quality}"),
        Call::Suspend { account, suspended } => write!(out, "suspend {account} {suspended}"),
        Call::Credit { placement } => write!(out, "credit {placement}"),
        Call::HostReport { day } => write!(out, "host {day}"),
        Call::AddCampaign {
            account,
            key,
            budget,
        } => write!(out, "campaign {account} {} {budget}", key.as_str()),
        Call::SetBudget {
            account,
            key,
            campaign,
            amount,
        } => write!(out, "budget {account} {} {campaign} {amount}", key.as_str()),
        Call::AddLine {
            account,
            key,
            campaign,
            bid,
            pattern,
            headline,
            link,
        } => {
            write!(out, "line {account} {} {campaign} {bid}", key.as_str())?;
            write!(out, " <{}> <{}>", pattern.as_str(), headline.as_str())?;
            write!(out, " {}", link.as_str())
        }
        Call::SetBid {
            account,
            key,
            line,
            bid,
        } => write!(out, "bid {account} {} {line} {bid}", key.as_str()),
        Call::Pause {
            account,
            key,
            part,
            on,
        } => write!(out, "pause {account} {} {part:?} {on}", key.as_str()),
        Call::Import { .. } => out.push_str("import"),
        Call::AddNegative {
            account,
            key,
            campaign,
            pattern,
        } => {
            write!(out, "negative {account} {} {campaign}", key.as_str())?;
            write!(out, " <{}>", pattern.as_str())
        }
        Call::DropNegative {
            account,
            key,
            negative,
        } => write!(out, "drop {account} {} {negative}", key.as_str()),
        Call::Report { account, key, day } => {
            write!(out, "report {account} {} {day}", key.as_str())
        }
        Call::Shown {
            account,
            key,
            day,
            from,
        } => write!(out, "shown {account} {} {day} {from}", key.as_str()),
        Call::Search {
            text,
            places: Some(places),
        } => write!(out, "search {places} <{}>", text.as_str()),
        Call::Search { text, places: None } => write!(out, "search - <{}>", text.as_str()),
        Call::Click { placement } => write!(out, "click {placement}"),
    }
}

/// Checks what lines spell.
fn check_spelling(rt: &(impl Abort + AllocGlobal), rows: &[(&str, &str)]) -> Result<(), Fail> {
    for (line, wanted) in rows {
        let found = spelling(rt.alloc(), line.as_bytes())?;
        assert_eq!(rt; found.as_str(), *wanted, "{line}");
    }
    Ok(())
}

/// Checks that each of these lines is in no form.
fn check_bad(rt: &(impl Abort + AllocGlobal), lines: &[&[u8]]) -> Result<(), Fail> {
    for line in lines {
        assert_eq!(rt; spelling(rt.alloc(), line)?.as_str(), "bad", "{line:?}");
    }
    Ok(())
}

/// A line, and what it spells.
const LINES: [(&str, &str); 26] = [
    ("0 account k", "0 account k"),
    ("100 campaign 1 k 1000", "100 campaign 1 k 1000"),
    (
        "3 line 1 k 2 5 l [a] | b | c",
        "3 line 1 k 2 5 <[a]> <b | c> l",
    ),
    ("3 line 1 k 2 5 l |a | b", "3 line 1 k 2 5 <|a> <b> l"),
    ("3 line 1 k 2 5 l | | b", "3 line 1 k 2 5 <|> <b> l"),
    ("3 line 1 k 2 5 l  a  |  b", "3 line 1 k 2 5 <a > < b> l"),
    ("4 negative 1 k 2   a   b  ", "4 negative 1 k 2 <a   b>"),
    ("5 drop 1 k 3", "5 drop 1 k 3"),
    ("6 search 4 red shoes", "6 search 4 <red shoes>"),
    ("6 search - caf\u{E9}", "6 search - <caf\u{E9}>"),
    ("6 search -   red  shoes ", "6 search - <red  shoes>"),
    ("6 search 1 \ta", "6 search 1 <\ta>"),
    ("6 search 4", "6 search 4 <>"),
    ("6 search -  ", "6 search - <>"),
    ("7   click    12   ", "7 click 12"),
    ("8 quality 1 2 30", "8 quality 1 2 30"),
    ("8 suspend 1 on", "8 suspend 1 true"),
    ("8 suspend 1 off", "8 suspend 1 false"),
    ("8 bid 1 k 2 50", "8 bid 1 k 2 50"),
    (
        "8 pause 1 k campaign 2 off",
        "8 pause 1 k OfCampaign(2) false",
    ),
    ("8 pause 1 k line 2 on", "8 pause 1 k OfLine(2) true"),
    ("1 credit 2", "1 credit 2"),
    ("1 host 3", "1 host 3"),
    ("1 budget 1 k 2 5", "1 budget 1 k 2 5"),
    ("1 report 1 k 3", "1 report 1 k 3"),
    ("1 shown 1 k 3 4", "1 shown 1 k 3 4"),
];

#[test]
fn a_line_in_its_form_spells_its_call(rt: HostRuntime) -> Result<(), Fail> {
    check_spelling(&rt, &LINES)
}

/// Lines in no form.
const BAD_LINES: [&[u8]; 33] = [
    b" 7 click 12",
    b"   ",
    b" # a",
    b"7",
    b"+7 click 12",
    b"07 click 12",
    b"18446744073709551616 click 12",
    b"7 Click 12",
    b"7\tclick 12",
    b"6 search - \xFF",
    b"1 search -- red",
    b"1 account a b",
    b"1 line 1 k 1 5 l a|b",
    b"1 line 1 k 1 5 l a | ",
    b"1 line 1 k 1 5 l | b",
    b"1 negative 1 k 1   ",
    b"1 drop 1 k 1 1",
    b"1 click",
    b"1 quality 1 1 020",
    b"1 quality 1 1 20 1",
    b"1 suspend 1 yes",
    b"1 suspend 1 On",
    b"1 suspend 1 on off",
    b"1 bid 1 k 01 5",
    b"1 bid 1 k 5",
    b"1 pause 1 k campaign 1",
    b"1 pause 1 k line 1 on 1",
    b"1 pause 1 k line on 1",
    b"1 pause 1 k account 1 on",
    b"1 import 1 k 1",
    b"1 host",
    b"1 report 1 k",
    b"1 shown 1 k 0",
];

#[test]
fn a_line_in_no_form_is_bad(rt: HostRuntime) -> Result<(), Fail> {
    check_bad(&rt, &BAD_LINES)
}
