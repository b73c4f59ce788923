//! The last value of a limit, and the first that is refused.

use super::scripts::{OPENED, OPENING, Script, check_opened, check_script};
use super::*;
use std::fmt::Write;

/// Limits that the words set.
const SET: [Script; 3] = [
    (
        "placements, and the page with them",
        "script --placements 3",
        "100 account secret02;100 campaign 2 secret02 1000;100 line 2 secret02 1 60 http://t.example/ shoes | B;\
        100 search - shoes;100 search - shoes;100 search - boots;100 search 1 shoes;100 search 1 shoes;\
        100 search 9 shoes;100 search - boots;1900 search 1 shoes;",
        "made 2;made 1;made 1;page 2 | 1 2.1.1 51 #1 | 2 1.1.1 5 #2;refused PlacementsFull;page 0;\
        page 1 | 1 2.1.1 51 #3;refused PlacementsFull;refused BadField Places;page 0;refused PlacementsFull;",
    ),
    (
        "entries of the journal, which are judged before all else",
        "script --journal 5",
        "100 click 9;100 search - shoes;100 account short;100 click 9;100 host 0;",
        "refused NoPlacement;page 1 | 1 1.1.1 5 #1;fault journal;fault journal;fault journal;",
    ),
    (
        "bytes of the journal's texts, where shorter calls go on",
        "script --journal-bytes 63",
        "100 account secret0123456;100 account secret012345;100 search - a;100 search -;100 click 9;100 host 0;",
        "fault journal;made 2;fault journal;page 0;refused NoPlacement;\
        host 0 accounts 2 shown 0 clicks 0 spent 0 escrowed 0 credited 0;",
    ),
];

#[test]
fn a_desk_ends_at_the_limits_that_the_words_set(rt: HostRuntime) -> Result<(), Fail> {
    check_opened(&rt, &SET)
}

/// Texts of one letter: what stands before and behind it, how often it stands, and the answer to the line; behind the
/// opening.
type Length = (&'static str, usize, &'static str, &'static str);

const TEXTS: [Length; 14] = [
    ("account ", 7, "", "refused BadField Key"),
    ("account ", 8, "", "made 2"),
    ("account ", 64, "", "made 2"),
    ("account ", 65, "", "refused BadField Key"),
    (
        "line 1 secret01 1 50 http://s.example/ ",
        80,
        " | B",
        "made 2",
    ),
    (
        "line 1 secret01 1 50 http://s.example/ ",
        81,
        " | B",
        "refused BadPattern TooLong",
    ),
    (
        "line 1 secret01 1 50 http://s.example/ b | ",
        90,
        "",
        "made 2",
    ),
    (
        "line 1 secret01 1 50 http://s.example/ b | ",
        91,
        "",
        "refused BadField Headline",
    ),
    ("line 1 secret01 1 50 http://", 505, " b | B", "made 2"),
    (
        "line 1 secret01 1 50 http://",
        506,
        " b | B",
        "refused BadField Link",
    ),
    ("negative 1 secret01 1 -", 79, "", "made 1"),
    (
        "negative 1 secret01 1 -",
        80,
        "",
        "refused BadPattern TooLong",
    ),
    ("search - ", 1_024, "", "page 0"),
    ("search - ", 1_025, "", "refused QueryTooLong 1025"),
];

/// Checks what the line with such a text is answered.
fn check_length(rt: &(impl Abort + AllocGlobal), text: Length) -> Result<(), Fail> {
    let alloc = rt.alloc();
    let (before, count, behind, answer) = text;
    let letters = "a".repeat(alloc, count)?;
    let input = format!(in alloc; "{OPENING}100 {before}{letters}{behind};")?;
    let output = format!(in alloc; "{OPENED}{answer};")?;
    check_script(rt, before, "script", &input, &output)
}

#[test]
fn a_text_has_its_length(rt: HostRuntime) -> Result<(), Fail> {
    for text in TEXTS {
        check_length(&rt, text)?;
    }
    Ok(())
}

/// A script that fills an account or the desk: an opening, a line for each number from `first` to `last`, which stands
/// between `before` and `behind` and makes the thing of that number, and what follows; each with its answers.
#[derive(Clone, Copy)]
struct Filled {
    shows: &'static str,
    opening: (&'static str, &'static str),
    first: u64,
    last: u64,
    before: &'static str,
    behind: &'static str,
    then: (&'static str, &'static str),
}

const ACCOUNTS: Filled = Filled {
    shows: "1,000 accounts",
    opening: ("", ""),
    first: 1,
    last: 1_000,
    before: "100 account secret0",
    behind: "",
    then: (
        "100 account short;100 account secret01;100 campaign 1000 secret01000 1;",
        "refused BadField Key;refused AccountsFull;made 1;",
    ),
};

const CAMPAIGNS: Filled = Filled {
    shows: "64 campaigns of an account",
    opening: (
        "100 account secret01;100 account secret02;",
        "made 1;made 2;",
    ),
    first: 1,
    last: 64,
    before: "100 campaign 1 secret01 ",
    behind: "",
    then: (
        "100 campaign 1 secret01 0;100 campaign 1 secret01 1;100 campaign 2 secret02 1;",
        "refused BadField Budget;refused CampaignsFull;made 1;",
    ),
};

const LINES: Filled = Filled {
    shows: "1,000 lines of an account",
    opening: (
        "100 account secret01;100 campaign 1 secret01 1000;",
        "made 1;made 1;",
    ),
    first: 1,
    last: 1_000,
    before: "100 line 1 secret01 1 50 http://s.example/ ",
    behind: " | Ad",
    then: (
        "100 line 1 secret01 1 50 http://s.example/ 7 | Ad;100 line 1 secret01 1 50 http://s.example/ red | Ad;\
        100 search - 1000 shoes;100 search - 1001 shoes;",
        "refused LineThere 7;refused LinesFull;page 1 | 1 1.1.1000 5 #1;page 0;",
    ),
};

const NEGATIVES: Filled = Filled {
    shows: "500 negatives of an account, dropped ones among them",
    opening: (
        "100 account secret01;100 campaign 1 secret01 1000;",
        "made 1;made 1;",
    ),
    first: 1,
    last: 500,
    before: "100 negative 1 secret01 1 ",
    behind: "",
    then: (
        "100 negative 1 secret01 1 8;100 negative 1 secret01 1 red;100 drop 1 secret01 7;\
        100 negative 1 secret01 1 [7];100 negative 1 secret01 1 7;",
        "refused NegativeThere 8;refused NegativesFull;done;refused NegativesFull;made 7;",
    ),
};

/// A part between its ends for each of the numbers.
fn numbered(
    alloc: Global,
    before: &str,
    first: u64,
    last: u64,
    behind: &str,
) -> Result<String, NoMemory> {
    let mut text = String::new(alloc);
    for number in first..=last {
        write!(text, "{before}{number}{behind};")?;
    }
    Ok(text)
}

/// The lines of a script that fills an account or the desk.
fn filling(alloc: Global, filled: Filled) -> Result<String, NoMemory> {
    let (opening, _) = filled.opening;
    let (then, _) = filled.then;
    let lines = numbered(
        alloc,
        filled.before,
        filled.first,
        filled.last,
        filled.behind,
    )?;
    format!(in alloc; "{opening}{lines}{then}")
}

/// The answers to them.
fn answers_of(alloc: Global, filled: Filled) -> Result<String, NoMemory> {
    let (_, opened) = filled.opening;
    let (_, answers) = filled.then;
    let made = numbered(alloc, "made ", filled.first, filled.last, "")?;
    format!(in alloc; "{opened}{made}{answers}")
}

/// Checks what such a script is answered.
fn check_filled(rt: &(impl Abort + AllocGlobal), filled: Filled) -> Result<(), Fail> {
    let input = filling(rt.alloc(), filled)?;
    let output = answers_of(rt.alloc(), filled)?;
    check_script(rt, filled.shows, "script", &input, &output)
}

#[test]
fn what_is_full_takes_no_more(rt: HostRuntime) -> Result<(), Fail> {
    for filled in [ACCOUNTS, CAMPAIGNS, LINES, NEGATIVES] {
        check_filled(&rt, filled)?;
    }
    Ok(())
}
