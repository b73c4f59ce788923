// Lines of words, cut at single spaces.

use crate::{Command, Told, WordsFault, desk_words};
use desk_types::Settings;
use std::alloc::{AllocError, Global};
use std::process::Abort;
use std::test::Fail;

// What each line shows, and words that are refused.
const REFUSED: [(&str, &str); 76] = [
    ("no command", ""),
    ("another command", "auctions"),
    ("another spelling", "Auction"),
    ("an option in place of a command", "--reserve 5"),
    ("help in place of a command", "help"),
    ("help in place of a command", "--help"),
    ("help of auction", "auction --help"),
    ("help of script", "script -h"),
    ("help of serve", "serve --help"),
    ("a word of auction", "auction 1"),
    ("an empty word of auction", "auction "),
    ("a setting of auction", "auction --reserve 5"),
    ("a word of script", "script 1"),
    ("a setting behind the options", "script -- --reserve 5"),
    ("a part of an option's name", "script --res 5"),
    ("another option", "script --db desk.db"),
    ("a key of script", "script --host-key 12345678"),
    ("no reserve", "script --reserve"),
    ("an empty reserve", "script --reserve="),
    ("a reserve with a sign", "script --reserve +5"),
    ("a reserve below zero", "script --reserve -5"),
    ("a reserve below zero", "script --reserve=-5"),
    ("a leading zero", "script --reserve 05"),
    ("a leading zero", "script --floor=00"),
    ("a letter", "script --reserve 5c"),
    ("a fraction", "script --reserve 5.0"),
    ("2^64 + 5", "script --reserve 18446744073709551621"),
    ("reserve too small", "script --reserve 0"),
    ("reserve too great", "script --reserve 1000001"),
    ("floor too great", "script --floor 100000001"),
    ("places too few", "script --places 0"),
    ("places too many", "script --places=9"),
    ("journal too small", "script --journal 0"),
    ("journal too great", "script --journal 4000001"),
    ("bytes too few", "script --journal-bytes 0"),
    ("bytes too many", "script --journal-bytes 1000000001"),
    ("placements too few", "script --placements 0"),
    ("placements too many", "script --placements 2000001"),
    ("reserve twice", "script --reserve 5 --reserve 5"),
    ("floor twice", "script --floor 5 --floor=5"),
    ("places twice", "script --places=5 --places=5"),
    ("journal twice", "script --journal 5 --journal 5"),
    ("bytes twice", "script --journal-bytes 5 --journal-bytes 5"),
    ("placements twice", "script --placements=5 --placements 5"),
    ("no key of run", "run"),
    ("no key of run", "run --host-key"),
    ("a key of 7 bytes", "run --host-key 1234567"),
    (
        "a key of 65 bytes",
        "run --host-key 12345678901234567890123456789012345678901234567890123456789012345",
    ),
    (
        "a key with a letter beside ASCII",
        "run --host-key schlüssel",
    ),
    ("a key twice", "run --host-key 12345678 --host-key 12345678"),
    (
        "a setting of run out of range",
        "run --host-key 12345678 --places 9",
    ),
    ("a port of run", "run --host-key 12345678 --port 80"),
    ("no words of drill", "drill"),
    ("no size", "drill 1"),
    ("three words of drill", "drill 1 2 3"),
    ("a start of 2^31", "drill 2147483648 0"),
    ("a size too great", "drill 0 1001"),
    ("a leading zero", "drill 01 2"),
    ("a leading zero", "drill 1 02"),
    ("a start below zero", "drill -- -1 2"),
    ("a setting of drill", "drill 1 2 --reserve 5"),
    ("no key of serve", "serve --port 80 --workers 1"),
    ("no port", "serve --host-key 12345678 --workers 1"),
    ("no workers", "serve --host-key 12345678 --port 80"),
    (
        "port too small",
        "serve --host-key 12345678 --workers 1 --port 0",
    ),
    (
        "port too great",
        "serve --host-key 12345678 --workers 1 --port 65536",
    ),
    (
        "port twice",
        "serve --host-key 12345678 --workers 1 --port 80 --port 80",
    ),
    (
        "a leading zero",
        "serve --host-key 12345678 --workers 1 --port 080",
    ),
    (
        "workers too few",
        "serve --host-key 12345678 --port 80 --workers 0",
    ),
    (
        "workers too many",
        "serve --host-key 12345678 --port 80 --workers 9",
    ),
    (
        "workers twice",
        "serve --host-key 12345678 --port 80 --workers 1 --workers=1",
    ),
    (
        "sessions too few",
        "serve --host-key 12345678 --port 80 --workers 1 --sessions 0",
    ),
    (
        "sessions too many",
        "serve --host-key 12345678 --port 80 --workers 1 --sessions 1000001",
    ),
    (
        "sessions twice",
        "serve --host-key 12345678 --port 80 --workers 1 --sessions 5 --sessions 5",
    ),
    (
        "a setting of serve out of range",
        "serve --host-key 12345678 --port 80 --workers 1 --floor 100000001",
    ),
    (
        "a word of serve",
        "serve --host-key 12345678 --port 80 --workers 1 80",
    ),
];

// What words tell, whole.
#[derive(Clone, Copy)]
struct Case {
    shows: &'static str,
    line: &'static str,
    command: Command,
    // Reserve, floor, places, journal, bytes of the journal, placements.
    settings: [u64; 6],
    host_key: &'static str,
    // Port, workers, sessions, start, size.
    numbers: [u64; 5],
}

const USUAL: [u64; 6] = [5, 0, 4, 1_000_000, 1_000_000_000, 1_000_000];

const TOLD: [Case; 14] = [
    Case {
        shows: "auction",
        line: "auction",
        command: Command::Auction,
        settings: USUAL,
        host_key: "",
        numbers: [0, 0, 0, 0, 0],
    },
    Case {
        shows: "script, bare",
        line: "script",
        command: Command::Script,
        settings: USUAL,
        host_key: "",
        numbers: [0, 0, 0, 0, 0],
    },
    Case {
        shows: "the options ended",
        line: "script --reserve 7 --",
        command: Command::Script,
        settings: [7, 0, 4, 1_000_000, 1_000_000_000, 1_000_000],
        host_key: "",
        numbers: [0, 0, 0, 0, 0],
    },
    Case {
        shows: "the least settings",
        line: "script --reserve 1 --floor 0 --places 1 --journal 1 --journal-bytes 1 --placements 1",
        command: Command::Script,
        settings: [1, 0, 1, 1, 1, 1],
        host_key: "",
        numbers: [0, 0, 0, 0, 0],
    },
    Case {
        shows: "the greatest settings, in another order",
        line: "script --placements=2000000 --journal-bytes=1000000000 --journal=4000000 --places=8 --floor=100000000 --reserve=1000000",
        command: Command::Script,
        settings: [
            1_000_000,
            100_000_000,
            8,
            4_000_000,
            1_000_000_000,
            2_000_000,
        ],
        host_key: "",
        numbers: [0, 0, 0, 0, 0],
    },
    Case {
        shows: "run, with a key of 8 bytes",
        line: "run --host-key !2345678",
        command: Command::Run,
        settings: USUAL,
        host_key: "!2345678",
        numbers: [0, 0, 0, 0, 0],
    },
    Case {
        shows: "run, with a key of 64 bytes",
        line: "run --floor 3 --host-key=~234567890123456789012345678901234567890123456789012345678901234 --places=2",
        command: Command::Run,
        settings: [5, 3, 2, 1_000_000, 1_000_000_000, 1_000_000],
        host_key: "~234567890123456789012345678901234567890123456789012345678901234",
        numbers: [0, 0, 0, 0, 0],
    },
    Case {
        shows: "the least drill",
        line: "drill 0 0",
        command: Command::Drill,
        settings: USUAL,
        host_key: "",
        numbers: [0, 0, 0, 0, 0],
    },
    Case {
        shows: "the greatest drill",
        line: "drill 2147483647 1000",
        command: Command::Drill,
        settings: USUAL,
        host_key: "",
        numbers: [0, 0, 0, 2_147_483_647, 1_000],
    },
    Case {
        shows: "a drill, with no options",
        line: "drill -- 17 400",
        command: Command::Drill,
        settings: USUAL,
        host_key: "",
        numbers: [0, 0, 0, 17, 400],
    },
    Case {
        shows: "serve, with the usual sessions",
        line: "serve --host-key 12345678 --port 8080 --workers 3",
        command: Command::Serve,
        settings: USUAL,
        host_key: "12345678",
        numbers: [8_080, 3, 1_000, 0, 0],
    },
    Case {
        shows: "the least server",
        line: "serve --sessions=1 --workers=1 --port=1 --host-key=12345678",
        command: Command::Serve,
        settings: USUAL,
        host_key: "12345678",
        numbers: [1, 1, 1, 0, 0],
    },
    Case {
        shows: "the greatest server",
        line: "serve --port 65535 --host-key 12345678 --workers 8 --sessions 1000000",
        command: Command::Serve,
        settings: USUAL,
        host_key: "12345678",
        numbers: [65_535, 8, 1_000_000, 0, 0],
    },
    Case {
        shows: "a server with settings",
        line: "serve --reserve 9 --port 80 --host-key 12345678 --workers 2 --journal 77 --journal-bytes 88 --placements 99",
        command: Command::Serve,
        settings: [9, 0, 4, 77, 88, 99],
        host_key: "12345678",
        numbers: [80, 2, 1_000, 0, 0],
    },
];

#[test]
fn refuses_other_words(rt: HostRuntime) -> Result<(), Fail> {
    let alloc = rt.alloc();
    let none: Vec<String> = Vec::new(alloc);
    assert!(rt; is_refused(&desk_words(alloc, none.as_slice())), "no words");
    for (shows, line) in REFUSED {
        let words = words_of(alloc, line)?;
        assert!(rt;
            is_refused(&desk_words(alloc, words.as_slice())),
            "{shows}: {line}"
        );
    }
    Ok(())
}

#[test]
fn tells_what_words_say(rt: HostRuntime) -> Result<(), Fail> {
    let alloc = rt.alloc();
    for case in TOLD {
        let words = words_of(alloc, case.line)?;
        let told = desk_words(alloc, words.as_slice())?;
        assert_told(&rt, &case, &told);
    }
    Ok(())
}

fn assert_told(rt: &impl Abort, case: &Case, told: &Told) {
    let shows = case.shows;
    assert_eq!(rt; told.command, case.command, "{shows}");
    assert_eq!(rt; settings_of(&told.settings), case.settings, "{shows}");
    let key = match &told.host_key {
        Some(key) => key.as_str(),
        None => "",
    };
    assert_eq!(rt; key, case.host_key, "{shows}");
    let numbers = [
        told.port,
        told.workers,
        told.sessions,
        told.start,
        told.size,
    ];
    assert_eq!(rt; numbers, case.numbers, "{shows}");
    assert!(rt; told.db.is_none(), "{shows}");
}

fn settings_of(settings: &Settings) -> [u64; 6] {
    [
        settings.reserve(),
        settings.floor(),
        settings.places(),
        settings.journal(),
        settings.journal_bytes(),
        settings.placements(),
    ]
}

fn is_refused(answer: &Result<Told, WordsFault>) -> bool {
    matches!(answer, Err(WordsFault::Refused))
}

fn words_of(alloc: Global, line: &str) -> Result<Vec<String>, AllocError> {
    let mut words = Vec::new(alloc);
    for word in line.split(' ') {
        words.push(String::from_str(alloc, word)?)?;
    }
    Ok(words)
}
