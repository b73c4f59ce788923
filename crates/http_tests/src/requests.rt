//! What messages ask for: each route once, members and names in every form.

use crate::served::{PLAIN, bytes_of, ran};
use query_words::NoMemory;
use std::alloc::Global;
use std::test::Fail;

/// What a message asks for: its method and target, its key and its body, and the status and the body of its answer.
type Request = (
    &'static str,
    &'static str,
    &'static str,
    &'static str,
    &'static str,
);

const OK: &str = "200 OK";

/// Messages to one desk, one behind another.
const ASKED: [Request; 33] = [
    (
        "POST /accounts",
        "hostkey1",
        "{\"key\":\"secret01\"}",
        OK,
        "{\"made\":1}",
    ),
    (
        "POST /accounts",
        "hostkey1",
        "{\"key\":7,\"key\":\"secret02\",\"more\":[1.5e3]}",
        OK,
        "{\"made\":2}",
    ),
    (
        "POST /accounts",
        "hostkey1",
        "{\"key\":\"secret\\u0030\\u0033\"}",
        OK,
        "{\"made\":3}",
    ),
    (
        "POST /accounts",
        "hostkey1",
        "{\"key\":\"short\"}",
        "422 Unprocessable Entity",
        "{\"code\":7,\"detail\":\"Key\",\"name\":\"BadField\"}",
    ),
    (
        "POST /a/1/campaigns",
        "secret01",
        "{\"budget\":1000}",
        OK,
        "{\"made\":1}",
    ),
    (
        "POST /a/1/campaigns",
        "secret01",
        "{\"budget\":1e3}",
        "400 Bad Request",
        BAD_BODY,
    ),
    (
        "POST /a/1/campaigns",
        "secret01",
        "{\"budget\":\"1000\"}",
        "400 Bad Request",
        BAD_BODY,
    ),
    (
        "POST /a/1/campaigns",
        "secret01",
        "[1000]",
        "400 Bad Request",
        BAD_BODY,
    ),
    (
        "POST /a/1/campaigns",
        "wrongkey",
        "{\"budget\":1}",
        "403 Forbidden",
        "{\"code\":1,\"detail\":\"\",\"name\":\"BadKey\"}",
    ),
    (
        "POST /a/1/budget",
        "secret01",
        "{\"amount\":900,\"campaign\":1}",
        OK,
        DONE,
    ),
    (
        "POST /a/1/lines",
        "secret01",
        "{\"bid\":50,\"campaign\":1,\"headline\":\"\\\"A\\\" \\\\\",\"link\":\"http://s/\",\"pattern\":\"shoes\"}",
        OK,
        "{\"made\":1}",
    ),
    (
        "POST /a/1/lines",
        "secret01",
        "{\"bid\":50,\"campaign\":1,\"headline\":\"B\",\"link\":\"http://s/\",\"pattern\":\"[shoes\"}",
        "422 Unprocessable Entity",
        "{\"code\":8,\"detail\":\"Unclosed\",\"name\":\"BadPattern\"}",
    ),
    (
        "POST /a/1/lines",
        "secret01",
        "{\"bid\":50,\"campaign\":1,\"headline\":\"B\",\"link\":\"http://s/\",\"pattern\":\"Shoes\"}",
        "409 Conflict",
        "{\"code\":9,\"detail\":\"1\",\"name\":\"LineThere\"}",
    ),
    (
        "POST /a/1/bid",
        "secret01",
        "{\"bid\":60,\"line\":1}",
        OK,
        DONE,
    ),
    (
        "POST /quality",
        "hostkey1",
        "{\"account\":1,\"line\":1,\"quality\":20}",
        OK,
        DONE,
    ),
    (
        "POST /suspend",
        "hostkey1",
        "{\"account\":1,\"suspended\":false}",
        OK,
        DONE,
    ),
    (
        "POST /a/1/pause",
        "secret01",
        "{\"campaign\":1,\"on\":true}",
        OK,
        DONE,
    ),
    (
        "POST /a/1/pause",
        "secret01",
        "{\"line\":1,\"on\":true}",
        OK,
        DONE,
    ),
    (
        "POST /a/1/pause",
        "secret01",
        "{\"campaign\":1,\"line\":\"x\",\"on\":true}",
        "400 Bad Request",
        BAD_BODY,
    ),
    (
        "POST /a/1/negatives",
        "secret01",
        "{\"campaign\":1,\"pattern\":\"-cheap\"}",
        OK,
        "{\"made\":1}",
    ),
    ("POST /a/1/drop/1", "secret01", "not read", OK, DONE),
    ("GET /search?q=sh%6Fes&q=boots&n=1", "", "", OK, PAGE),
    ("GET /search?%71=+SHOES+&n=&x", "", "", OK, PAGE_AGAIN),
    ("GET /search?&=&n", "", "", OK, "{\"page\":[]}"),
    (
        "GET /search?q=shoes&n=9",
        "",
        "",
        "422 Unprocessable Entity",
        "{\"code\":7,\"detail\":\"Places\",\"name\":\"BadField\"}",
    ),
    ("GET /%73earch", "", "", "404 Not Found", NO_ROUTE),
    ("GET /search/", "", "", "404 Not Found", NO_ROUTE),
    ("GET /click/", "", "", "404 Not Found", NO_ROUTE),
    (
        "GET /click/18446744073709551616",
        "",
        "",
        "404 Not Found",
        NO_ROUTE,
    ),
    (
        "GET /click/9",
        "",
        "",
        "404 Not Found",
        "{\"code\":6,\"detail\":\"\",\"name\":\"NoPlacement\"}",
    ),
    ("GET /click/1", "", "", "302 Found", ""),
    ("POST /credit/1", "hostkey1", "", OK, "{\"credited\":5}"),
    (
        "GET /host/0",
        "hostkey1",
        "",
        OK,
        "{\"accounts\":3,\"clicks\":1,\"credited\":5,\"day\":0,\"escrowed\":5,\"shown\":2,\"spent\":5}",
    ),
];

const DONE: &str = "{\"done\":true}";

const BAD_BODY: &str = "{\"code\":0,\"detail\":\"\",\"name\":\"BadBody\"}";

const NO_ROUTE: &str = "{\"code\":0,\"detail\":\"\",\"name\":\"NoRoute\"}";

const PAGE: &str =
    "{\"page\":[{\"account\":1,\"campaign\":1,\"click\":1,\"headline\":\"\\\"A\\\" \\\\\",\"line\":1,\
    \"link\":\"http://s/\",\"place\":1,\"price\":5}]}";

const PAGE_AGAIN: &str =
    "{\"page\":[{\"account\":1,\"campaign\":1,\"click\":2,\"headline\":\"\\\"A\\\" \\\\\",\"line\":1,\
    \"link\":\"http://s/\",\"place\":1,\"price\":5}]}";

/// The messages of some requests, and the answers that they get.
fn exchanged(alloc: Global, requests: &[Request]) -> Result<(Vec<u8>, Vec<u8>), NoMemory> {
    let mut asked = Vec::new(alloc);
    let mut answers = Vec::new(alloc);
    for (target, key, body, status, answer) in requests {
        let size = body.len();
        let message = format!(in alloc;
            "{target} HTTP/1.1~Host: h~Desk-Key: {key}~Content-Length: {size}~~{body}"
        )?;
        asked.extend_from_slice(bytes_of(alloc, message.as_str())?.as_slice())?;
        let size = answer.len();
        let text = match answer.is_empty() {
            true => format!(in alloc; "HTTP/1.1 {status}~Content-Length: 0~Location: http://s/~~")?,
            false => format!(in alloc;
                "HTTP/1.1 {status}~Content-Type: application/json~Content-Length: {size}~~{answer}"
            )?,
        };
        answers.extend_from_slice(bytes_of(alloc, text.as_str())?.as_slice())?;
    }
    Ok((asked, answers))
}

#[test]
fn each_route_asks_for_its_call(rt: HostRuntime) -> Result<(), Fail> {
    let alloc = rt.alloc();
    let (asked, answers) = exchanged(alloc, &ASKED)?;
    let found = ran(alloc, asked, PLAIN)?;
    assert_eq!(rt; found.written.as_slice(), answers.as_slice());
    Ok(())
}
