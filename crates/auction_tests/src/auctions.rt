//! Auctions and their pages.

use auction_page::serve_auction;
use desk_io::{MemSink, MemSource};
use std::alloc::{AllocError as NoMemory, Global};
use std::fmt::Write;
use std::process::Abort;
use std::test::Fail;

/// What is shown, an auction, its status and what is written.
type Case = (&'static str, &'static str, u8, &'static str);

/// A text with line feeds in place of semicolons.
fn lines_of(alloc: Global, text: &str) -> Result<Vec<u8>, NoMemory> {
    let mut bytes = Vec::from_slice(alloc, text.as_bytes())?;
    for byte in bytes.as_mut_slice() {
        if *byte == b';' {
            *byte = b'\n';
        }
    }
    Ok(bytes)
}

/// Checks the status and the output of an auction that comes in pieces of this size.
fn check(
    rt: &(impl Abort + AllocGlobal),
    shows: &str,
    input: &str,
    cut: u64,
    (status, output): (u8, &str),
) -> Result<(), Fail> {
    let alloc = rt.alloc();
    let cut = cut.max(1);
    let mut source = MemSource::new(lines_of(alloc, input)?, cut, Vec::new(alloc));
    let mut sink = MemSink::new(alloc, 4_096, cut, Vec::new(alloc))?;
    let found = serve_auction(alloc, &mut source, &mut sink);
    assert_eq!(rt; found, status, "{shows}");
    let output = lines_of(alloc, output)?;
    assert_eq!(rt; sink.bytes(), output.as_slice(), "{shows}");
    Ok(())
}

/// Checks each case in pieces of several sizes.
fn check_each(rt: &(impl Abort + AllocGlobal), cases: &[Case]) -> Result<(), Fail> {
    for cut in [1, 7, 4_096] {
        for (shows, input, status, output) in cases {
            check(rt, shows, input, cut, (*status, output))?;
        }
    }
    Ok(())
}

const FOUR: &str = "auction 5 0 4;ad 1.1.1 50 10 50;ad 2.1.1 60 10 59;";

const PAGES: [Case; 14] = [
    (
        "a tie that would be lost",
        "auction 5 0 2;ad 1.1.1 100 10 1000;ad 2.1.1 80 10 1000;ad 3.1.1 50 12 1000;",
        0,
        "1 1.1.1 80;2 2.1.1 61;end;",
    ),
    (
        "the smaller triple wins",
        "auction 5 0 2;ad 2.1.1 60 10 1000;ad 1.1.1 60 10 1000;",
        0,
        "1 1.1.1 60;2 2.1.1 5;end;",
    ),
    (
        "the higher quality wins",
        "auction 5 0 2;ad 1.1.1 60 10 1000;ad 2.1.1 50 12 1000;",
        0,
        "1 2.1.1 50;2 1.1.1 5;end;",
    ),
    (
        "one cent more",
        "auction 5 0 2;ad 1.1.1 100 10 1000;ad 2.1.1 55 11 1000;",
        0,
        "1 1.1.1 61;2 2.1.1 5;end;",
    ),
    (
        "rounded up",
        "auction 5 0 2;ad 1.1.1 100 10 1000;ad 2.1.1 121 5 1000;",
        0,
        "1 1.1.1 61;2 2.1.1 5;end;",
    ),
    (
        "one ad an account",
        "auction 5 0 4;ad 1.1.1 100 10 1000;ad 1.1.2 90 10 1000;",
        0,
        "1 1.1.1 5;end;",
    ),
    ("no ads", "auction 5 0 4;", 0, "end;"),
    ("no bytes", "", 8, "bad line 1;"),
    (
        "the floor alone sets the price",
        "auction 5 1001 1;ad 1.1.1 101 10 1000;",
        0,
        "1 1.1.1 101;end;",
    ),
    (
        "below the floor",
        "auction 5 1001 1;ad 1.1.1 100 10 1000;",
        0,
        "end;",
    ),
    (
        "the greatest floor",
        "auction 1 100000000 1;ad 1.1.1 1000000 100 1000000;",
        0,
        "1 1.1.1 1000000;end;",
    ),
    ("the free budget covers the bid", FOUR, 0, "1 1.1.1 5;end;"),
    (
        "below the reserve",
        "auction 50 0 2;ad 1.1.1 49 100 1000;ad 2.1.1 50 1 1000;",
        0,
        "1 2.1.1 50;end;",
    ),
    (
        "eight places of nine ads",
        NINE,
        0,
        "1 1.1.1 80;2 2.1.1 70;3 3.1.1 60;4 4.1.1 50;5 5.1.1 40;6 6.1.1 30;7 7.1.1 20;8 8.1.1 10;end;",
    ),
];

const NINE: &str = "auction 5 0 8;ad 1.1.1 90 10 1000;ad 2.1.1 80 10 1000;ad 3.1.1 70 10 1000;\
    ad 4.1.1 60 10 1000;ad 5.1.1 50 10 1000;ad 6.1.1 40 10 1000;ad 7.1.1 30 10 1000;\
    ad 8.1.1 20 10 1000;ad 9.1.1 10 10 1000;";

#[test]
fn pages_have_the_best_ads_at_the_least_prices(rt: HostRuntime) -> Result<(), Fail> {
    check_each(&rt, &PAGES)
}

const LINES: [Case; 15] = [
    (
        "a repeated triple",
        "auction 5 0 4;ad 1.1.1 50 10 50;ad 2.1.1 60 10 59;ad 1.1.1 50 10 50;",
        8,
        "bad line 4;",
    ),
    ("comments alone", "# a;#b;", 8, "bad line 3;"),
    (
        "skipped lines count",
        "# first;auction 5 0 4;;# third;ad 1.1.1 5 1;",
        8,
        "bad line 5;",
    ),
    (
        "the first bad line is told",
        "auction 5 0 4;ad;ad x;",
        8,
        "bad line 2;",
    ),
    (
        "two headings",
        "auction 5 0 1;auction 5 0 1;",
        8,
        "bad line 2;",
    ),
    ("a space in front", " auction 5 0 1;", 8, "bad line 1;"),
    ("a space at the end", "auction 5 0 1 ;", 8, "bad line 1;"),
    ("a leading zero", "auction 05 0 1;", 8, "bad line 1;"),
    (
        "a number past 2^64",
        "auction 18446744073709551617 0 1;",
        8,
        "bad line 1;",
    ),
    (
        "four numbers in a name",
        "auction 5 0 4;ad 1.1.1.1 5 1 5;",
        8,
        "bad line 2;",
    ),
    (
        "the greatest numbers",
        "auction 5 0 1;ad 1000000.1000000.1000000 5 1 1000000000000;",
        0,
        "1 1000000.1000000.1000000 5;end;",
    ),
    (
        "a greater number",
        "auction 5 0 1;ad 1000001.1.1 5 1 5;",
        8,
        "bad line 2;",
    ),
    (
        "a greater free budget",
        "auction 5 0 1;ad 1.1.1 5 1 1000000000001;",
        8,
        "bad line 2;",
    ),
    (
        "a return before each line feed",
        "auction 5 0 1\r;ad 1.1.1 9 1 9\r;",
        0,
        "1 1.1.1 5;end;",
    ),
    (
        "several spaces, and no line feed",
        "auction   5  0 1;ad  1.1.1 9   1 9",
        0,
        "1 1.1.1 5;end;",
    ),
];

#[test]
fn lines_are_judged_in_order(rt: HostRuntime) -> Result<(), Fail> {
    check_each(&rt, &LINES)
}

/// An auction of so many ads, each of its own account, with the bid 10 and the quality 10.
fn auction_of(alloc: Global, ads: u64) -> Result<String, NoMemory> {
    let mut text = String::from_str(alloc, "auction 5 0 1;")?;
    for number in 0..ads {
        let account = number % 1_000_000 + 1;
        write!(text, "ad {account}.1.1 10 10 10;")?;
    }
    Ok(text)
}

#[test]
fn ten_thousand_ads_are_the_most(rt: HostRuntime) -> Result<(), Fail> {
    let most = auction_of(rt.alloc(), 10_000)?;
    check(&rt, "the most", &most, 4_096, (0, "1 1.1.1 10;end;"))?;
    let more = auction_of(rt.alloc(), 10_001)?;
    check(&rt, "one more", &more, 4_096, (9, "too many lines;"))
}

#[test]
fn the_widest_page_is_written(rt: HostRuntime) -> Result<(), Fail> {
    let mut input = String::from_str(rt.alloc(), "auction 1000000 0 8;")?;
    let mut output = String::new(rt.alloc());
    for place in 1..=8_u64 {
        let account = 999_992 + place;
        write!(input, "ad {account}.1000000.1000000 1000000 100 1000000;")?;
        write!(output, "{place} {account}.1000000.1000000 1000000;")?;
    }
    output.push_str("end;")?;
    check(&rt, "the widest", &input, 4_096, (0, &output))
}
