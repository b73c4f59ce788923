//! Each command, by its words.

use super::*;

const SESSION: &str =
    "POST /accounts HTTP/1.1;Host: localhost:8080;Desk-Key: hostkey1;Content-Length: 18;;{\"key\":\"secret01\"}\
    POST /a/1/campaigns HTTP/1.1;Host: localhost:8080;Desk-Key: secret01;Content-Length: 15;;{\"budget\":1000}\
    POST /a/1/lines HTTP/1.1;Host: localhost:8080;Desk-Key: secret01;Content-Length: 87;;{\"bid\":50,\"campaign\":1,\"headline\":\"Shoes\",\"link\":\"http://s.example/\",\"pattern\":\"shoes\"}\
    GET /search?q=red+shoes HTTP/1.1;Host: localhost:8080;User-Agent: curl/8.5.0;Accept: */*;;\
    GET /click/1 HTTP/1.1;Host: localhost:8080;Connection: close;;";

const CUT: &str =
    "POST /accounts HTTP/1.1;Host: localhost:8080;Desk-Key: hostkey1;Content-Length: 18;;{\"key\":\"secret01\"}\
    POST /a/1/campaigns HTTP/1.1;Host: localhost:8080;Desk-Key: secret01;Content-Length: 15;;{\"budget\":1000}\
    POST /a/1/lines HTTP/1.1;Host: localhost:8080;Desk-Key: secret01;Content-Length: 87;;{\"bid";

const ANSWERS: &str =
    "HTTP/1.1 200 OK\r;Content-Type: application/json\r;Content-Length: 10\r;\r;{\"made\":1}\
    HTTP/1.1 200 OK\r;Content-Type: application/json\r;Content-Length: 10\r;\r;{\"made\":1}\
    HTTP/1.1 200 OK\r;Content-Type: application/json\r;Content-Length: 10\r;\r;{\"made\":1}\
    HTTP/1.1 200 OK\r;Content-Type: application/json\r;Content-Length: 122\r;\r;{\"page\":[{\"account\":1,\"campaign\":1,\"click\":1,\"headline\":\"Shoes\",\"line\":1,\"link\":\"http://s.example/\",\"place\":1,\"price\":5}]}\
    HTTP/1.1 302 Found\r;Content-Length: 0\r;Location: http://s.example/\r;Connection: close\r;\r;";

const TWO_MADE: &str =
    "HTTP/1.1 200 OK\r;Content-Type: application/json\r;Content-Length: 10\r;\r;{\"made\":1}\
    HTTP/1.1 200 OK\r;Content-Type: application/json\r;Content-Length: 10\r;\r;{\"made\":1}";

const FULL: &str =
    "HTTP/1.1 200 OK\r;Content-Type: application/json\r;Content-Length: 10\r;\r;{\"made\":1}\
    HTTP/1.1 200 OK\r;Content-Type: application/json\r;Content-Length: 10\r;\r;{\"made\":1}\
    HTTP/1.1 200 OK\r;Content-Type: application/json\r;Content-Length: 10\r;\r;{\"made\":1}\
    HTTP/1.1 507 Insufficient Storage\r;Content-Type: application/json\r;Content-Length: 43\r;\r;{\"code\":0,\"detail\":\"\",\"name\":\"JournalFull\"}\
    HTTP/1.1 507 Insufficient Storage\r;Content-Type: application/json\r;Content-Length: 43\r;Connection: close\r;\r;{\"code\":0,\"detail\":\"\",\"name\":\"JournalFull\"}";

const RUN: &str = "run --host-key hostkey1";

const P: &str = "100 account secret01;100 campaign 1 secret01 1000;\
    100 line 1 secret01 1 50 http://s.example/ shoes | Shoes;100 search - shoes;";

const RESERVED: &str =
    "100 account secret01;100 campaign 1 secret01 100;100 line 1 secret01 1 10 http://s.example/ shoes | Shoes;\
    100 search - shoes;100 budget 1 secret01 1 9;100 budget 1 secret01 1 10;100 report 1 secret01 0;";

const AT_RESERVE: &str =
    "made 1;made 1;made 1;page 1 | 1 1.1.1 10 #1;refused BudgetBelowUsed 10;done;\
    day 0 | 1 budget 10 shown 1 clicks 0 spent 0 escrowed 10 free 0 credited 0;";

const AUCTION: &str = "auction 5 0 2;ad 1.1.1 100 10 1000;ad 2.1.1 80 10 1000;ad 3.1.1 50 12 1000;";

const PAGE: &str = "1 1.1.1 80;2 2.1.1 61;end;";

const NO_DRILL: &str = "entries 0 faulted 0 searches 0 placements 0 settled 0 cents 0;";

const DRILL: &str = "entries 41 faulted 0 searches 25 placements 25 settled 5 cents 25;";

const DRILL_OF_40: &str =
    "entries 1640 faulted 0 searches 1000 placements 4000 settled 200 cents 14224;";

const WHOLE: Faults = (4_096, 0, 0);

const PIECES: Faults = (1, 0, 0);

const WORKS: [Case; 15] = [
    ("an auction", "auction", AUCTION, WHOLE, 0, PAGE),
    ("an auction in pieces", "auction", AUCTION, PIECES, 0, PAGE),
    (
        "a reserve",
        "script --reserve 10",
        RESERVED,
        WHOLE,
        0,
        AT_RESERVE,
    ),
    (
        "a reserve, in one word",
        "script --reserve=10",
        RESERVED,
        PIECES,
        0,
        AT_RESERVE,
    ),
    (
        "a short journal",
        "script --journal 3",
        P,
        WHOLE,
        0,
        "made 1;made 1;made 1;fault journal;",
    ),
    ("a session", RUN, SESSION, WHOLE, 0, ANSWERS),
    ("a session in pieces", RUN, SESSION, PIECES, 0, ANSWERS),
    ("a session that is cut short", RUN, CUT, WHOLE, 8, TWO_MADE),
    (
        "a session with a short journal",
        "run --journal 3 --host-key hostkey1",
        SESSION,
        WHOLE,
        0,
        FULL,
    ),
    ("a drill of none", "drill 7 0", "", WHOLE, 0, NO_DRILL),
    ("a drill of one", "drill 7 1", "", WHOLE, 0, DRILL),
    (
        "a drill of one from elsewhere",
        "drill 2147483647 1",
        "",
        WHOLE,
        0,
        DRILL,
    ),
    ("a drill of forty", "drill 7 40", "", WHOLE, 0, DRILL_OF_40),
    ("half a drill", "drill 7", "", WHOLE, 2, "words refused;"),
    (
        "a drill from too far",
        "drill 2147483648 1",
        "",
        WHOLE,
        2,
        "words refused;",
    ),
];

#[test]
fn a_command_works_by_its_words(rt: HostRuntime) -> Result<(), Fail> {
    check_each(&rt, &WORKS)
}

/// A server is another call's.
const SERVE: &str = "serve --host-key hostkey1 --port 8080 --workers 1";

const OTHER: [Case; 6] = [
    ("a server", SERVE, AUCTION, WHOLE, 2, "words refused;"),
    (
        "a key for a script",
        "script --host-key hostkey1",
        AUCTION,
        WHOLE,
        2,
        "words refused;",
    ),
    (
        "a short key",
        "run --host-key seven77",
        AUCTION,
        WHOLE,
        2,
        "words refused;",
    ),
    ("an empty word", "", AUCTION, WHOLE, 2, "words refused;"),
    (
        "another case",
        "Auction",
        AUCTION,
        WHOLE,
        2,
        "words refused;",
    ),
    (
        "a word twice",
        "auction auction",
        AUCTION,
        WHOLE,
        2,
        "words refused;",
    ),
];

#[test]
fn other_words_are_refused(rt: HostRuntime) -> Result<(), Fail> {
    check_each(&rt, &OTHER)
}
