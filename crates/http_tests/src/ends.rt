//! How sessions end, however their bytes are cut.

use crate::served::{PLAIN, Way, Wrote, bytes_of, ran};
use http_api::SessionEnd::{
    self, Closed, CutShort, Ended, Malformed, ReadFault, SessionFull, WriteFault,
};
use query_words::NoMemory;
use std::alloc::Global;
use std::process::Abort;
use std::test::Fail;

/// An account, a campaign and a line are made.
const MADE: &str =
    "POST /accounts HTTP/1.1~Host: localhost:8080~Desk-Key: hostkey1~Content-Length: 18~~{\"key\":\"secret01\"}\
    POST /a/1/campaigns HTTP/1.1~Host: localhost:8080~Desk-Key: secret01~Content-Length: 15~~{\"budget\":1000}\
    POST /a/1/lines HTTP/1.1~Host: localhost:8080~Desk-Key: secret01~Content-Length: 87~~\
    {\"bid\":50,\"campaign\":1,\"headline\":\"Shoes\",\"link\":\"http://s.example/\",\"pattern\":\"shoes\"}";

/// A search, and a click that asks to close.
const CLICKED: &str =
    "GET /search?q=red+shoes HTTP/1.1~Host: localhost:8080~User-Agent: curl/8.5.0~Accept: */*~~\
    GET /click/1 HTTP/1.1~Host: localhost:8080~Connection: close~~";

/// The answer to each of the first three messages.
const ONE: &str = "HTTP/1.1 200 OK~Content-Type: application/json~Content-Length: 10~~{\"made\":1}";

/// The page, and the link.
const WENT: &str = "HTTP/1.1 200 OK~Content-Type: application/json~Content-Length: 122~~\
    {\"page\":[{\"account\":1,\"campaign\":1,\"click\":1,\"headline\":\"Shoes\",\"line\":1,\"link\":\"http://s.example/\",\
    \"place\":1,\"price\":5}]}HTTP/1.1 302 Found~Content-Length: 0~Location: http://s.example/~Connection: close~~";

/// The answers where the journal has room for three entries.
const FULL: &str =
    "HTTP/1.1 507 Insufficient Storage~Content-Type: application/json~Content-Length: 43~~\
    {\"code\":0,\"detail\":\"\",\"name\":\"JournalFull\"}\
    HTTP/1.1 507 Insufficient Storage~Content-Type: application/json~Content-Length: 43~Connection: close~~\
    {\"code\":0,\"detail\":\"\",\"name\":\"JournalFull\"}";

/// Texts one behind another.
fn joined(alloc: Global, texts: &[&str]) -> Result<Vec<u8>, NoMemory> {
    let mut all = Vec::new(alloc);
    for text in texts {
        all.extend_from_slice(bytes_of(alloc, text)?.as_slice())?;
    }
    Ok(all)
}

/// Checks how a session ended, how many answers were written, and which.
fn check(
    rt: &(impl Abort + AllocGlobal),
    shows: &str,
    found: &Wrote,
    (end, messages): (SessionEnd, u64),
    written: &[u8],
) -> Result<(), Fail> {
    assert_eq!(rt; found.session.end, end, "{shows}");
    assert_eq!(rt; found.session.messages, messages, "{shows}");
    assert_eq!(rt; found.written.as_slice(), written, "{shows}");
    Ok(())
}

#[test]
fn a_session_is_the_same_in_pieces_of_any_size(rt: HostRuntime) -> Result<(), Fail> {
    let alloc = rt.alloc();
    let written = joined(alloc, &[ONE, ONE, ONE, WENT])?;
    for cut in [1, 2, 3, 7, 10_000] {
        let found = ran(
            alloc,
            joined(alloc, &[MADE, CLICKED])?,
            Way { cut, ..PLAIN },
        )?;
        check(&rt, "whole", &found, (Closed, 5), written.as_slice())?;
    }
    Ok(())
}

#[test]
fn a_full_journal_is_told(rt: HostRuntime) -> Result<(), Fail> {
    let alloc = rt.alloc();
    let found = ran(
        alloc,
        joined(alloc, &[MADE, CLICKED])?,
        Way {
            journal: 3,
            ..PLAIN
        },
    )?;
    let written = joined(alloc, &[ONE, ONE, ONE, FULL])?;
    check(&rt, "full", &found, (Closed, 5), written.as_slice())
}

#[test]
fn the_end_inside_a_body_cuts_short(rt: HostRuntime) -> Result<(), Fail> {
    let alloc = rt.alloc();
    let mut bytes = joined(alloc, &[MADE])?;
    bytes.truncate(bytes.len().saturating_sub(82));
    let found = ran(alloc, bytes, Way { cut: 7, ..PLAIN })?;
    let written = joined(alloc, &[ONE, ONE])?;
    check(&rt, "cut", &found, (CutShort, 2), written.as_slice())
}

#[test]
fn a_fault_leaves_the_answers_before_it(rt: HostRuntime) -> Result<(), Fail> {
    let alloc = rt.alloc();
    let one = joined(alloc, &[ONE])?;
    let way = Way {
        cut: 150,
        failing_read: 2,
        ..PLAIN
    };
    let found = ran(alloc, joined(alloc, &[MADE])?, way)?;
    check(&rt, "a read", &found, (ReadFault, 1), one.as_slice())?;
    let way = Way {
        failing_write: 2,
        ..PLAIN
    };
    let found = ran(alloc, joined(alloc, &[MADE])?, way)?;
    check(&rt, "a write", &found, (WriteFault, 1), one.as_slice())
}

/// Bytes, how a session of them ends, and how many answers are written.
const ENDS: [(&str, &str, SessionEnd, u64); 13] = [
    ("no bytes", "", Ended, 0),
    ("empty lines", "~\n~", Ended, 0),
    ("half an empty line", "~\r", CutShort, 0),
    (
        "a line end too few",
        "GET /x HTTP/1.1~Host: h~",
        CutShort,
        0,
    ),
    (
        "empty lines before a message and behind",
        "~\nGET /x HTTP/1.1~Host: h~~~",
        Ended,
        1,
    ),
    (
        "line feeds alone",
        "GET /x HTTP/1.1\nHost: h\n\nGET /x HTTP/1.1\nHost: h\n\n",
        Ended,
        2,
    ),
    (
        "the older version",
        "GET /x HTTP/1.0~~GET /x HTTP/1.1~Host: h~~",
        Closed,
        1,
    ),
    (
        "a list of tokens",
        "GET /x HTTP/1.1~Host: h~Connection: te ,\tCLOSE~~",
        Closed,
        1,
    ),
    (
        "another token",
        "GET /x HTTP/1.1~Host: h~Connection: closed~~",
        Ended,
        1,
    ),
    (
        "no head",
        "GET /x~Host: h~~GET /x HTTP/1.1~Host: h~~",
        Malformed,
        1,
    ),
    (
        "a coding",
        "GET /x HTTP/1.1~Host: h~Transfer-Encoding: chunked~~0~~",
        Malformed,
        1,
    ),
    (
        "two lengths",
        "GET /x HTTP/1.1~Host: h~Content-Length: 0~Content-Length: 0~~",
        Malformed,
        1,
    ),
    (
        "too long a body",
        "GET /x HTTP/1.1~Host: h~Content-Length: 000000262145~~",
        Malformed,
        1,
    ),
];

#[test]
fn sessions_end_by_their_bytes(rt: HostRuntime) -> Result<(), Fail> {
    let alloc = rt.alloc();
    for (shows, text, end, messages) in ENDS {
        let found = ran(alloc, bytes_of(alloc, text)?, PLAIN)?;
        assert_eq!(rt; found.session.end, end, "{shows}");
        assert_eq!(rt; found.session.messages, messages, "{shows}");
    }
    Ok(())
}

/// A head with so many fields beside Host, and its text behind so many bytes of empty lines.
fn head_of(alloc: Global, fields: u64, blank: u64) -> Result<Vec<u8>, NoMemory> {
    let mut bytes = Vec::new(alloc);
    for _ in 0..blank {
        bytes.push(b'\n')?;
    }
    bytes.extend_from_slice(b"GET /x HTTP/1.1\nHost: h\n")?;
    for _ in 0..fields {
        bytes.extend_from_slice(b"a:\n")?;
    }
    bytes.push(b'\n')?;
    Ok(bytes)
}

#[test]
fn a_head_has_its_limits(rt: HostRuntime) -> Result<(), Fail> {
    let alloc = rt.alloc();
    let rows = [
        ("64 fields", 63, 0, Ended),
        ("65 fields", 64, 0, Malformed),
        ("8,192 bytes", 0, 8_192 - 25, Ended),
        ("8,193 bytes", 0, 8_192 - 24, Malformed),
    ];
    for (shows, fields, blank, end) in rows {
        let found = ran(alloc, head_of(alloc, fields, blank)?, PLAIN)?;
        assert_eq!(rt; found.session.end, end, "{shows}");
        assert_eq!(rt; found.session.messages, 1, "{shows}");
    }
    Ok(())
}

#[test]
fn a_session_answers_so_many_messages(rt: HostRuntime) -> Result<(), Fail> {
    let alloc = rt.alloc();
    let mut bytes = Vec::new(alloc);
    for _ in 0..10_001 {
        bytes.extend_from_slice(b"GET /x HTTP/1.1\nHost: h\n\n")?;
    }
    let found = ran(alloc, bytes, PLAIN)?;
    assert_eq!(rt; found.session.end, SessionFull);
    assert_eq!(rt; found.session.messages, 10_000);
    assert!(rt;
        found.written.as_slice().ends_with(
            b"Connection: close\r\n\r\n{\"code\":0,\"detail\":\"\",\"name\":\"NoRoute\"}"
        )
    );
    Ok(())
}
