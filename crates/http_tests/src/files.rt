//! Files of sessions: imports, reports and statements, on a desk whose clock says 100 all the time.

use crate::served::{PLAIN, bytes_of, ran};
use query_words::NoMemory;
use std::alloc::Global;
use std::test::Fail;

/// A message, by its method and target, its key and its body, and its answer, by its status, the type of its content and
/// its body; a click is answered by a link, and has no content.
#[derive(Clone, Copy)]
struct Request {
    target: &'static str,
    key: &'static str,
    body: &'static str,
    status: &'static str,
    content: &'static str,
    answer: &'static str,
}

const OK: &str = "200 OK";

const BAD: &str = "400 Bad Request";

const JSON: &str = "application/json";

const CSV: &str = "text/csv; charset=utf-8";

/// A file without a line end behind its record.
const RED: &str = "campaign,bid,pattern,headline,link\n1,20,red,Red,http://s.example/r";

/// A file behind a byte order mark.
const BLUE: &str =
    "\u{feff}campaign,bid,pattern,headline,link\r\n1,20,blue,\"Blue, too\",http://s.example/b\r\n";

const PAGE: &str =
    "{\"page\":[{\"account\":1,\"campaign\":1,\"click\":1,\"headline\":\"Red\",\"line\":1,\
    \"link\":\"http://s.example/r\",\"place\":1,\"price\":5}]}";

const PAGE_AGAIN: &str =
    "{\"page\":[{\"account\":1,\"campaign\":1,\"click\":2,\"headline\":\"Blue, too\",\"line\":2,\
    \"link\":\"http://s.example/b\",\"place\":1,\"price\":5}]}";

const REPORT: &str =
    "camp          budget     shown    clicks           spent        escrowed            free        credited
   1            1000         2         1               5               5             990               0
 all            1000         2         1               5               5             990               0
";

const SHOWN: &str = "placement,campaign,line,place,price,shown,fate,moment\n\
    1,1,1,1,5,100,settled,100\n2,1,2,1,5,100,open,\n";

const SHOWN_FROM: &str =
    "placement,campaign,line,place,price,shown,fate,moment\n2,1,2,1,5,100,open,\n";

/// Messages to one desk, one behind another.
const ASKED: [Request; 13] = [
    Request {
        target: "POST /accounts",
        key: "hostkey1",
        body: "{\"key\":\"secret01\"}",
        status: OK,
        content: JSON,
        answer: "{\"made\":1}",
    },
    Request {
        target: "POST /a/1/campaigns",
        key: "secret01",
        body: "{\"budget\":1000}",
        status: OK,
        content: JSON,
        answer: "{\"made\":1}",
    },
    Request {
        target: "POST /a/1/import/5",
        key: "secret01",
        body: RED,
        status: OK,
        content: JSON,
        answer: "{\"count\":1,\"first\":1}",
    },
    Request {
        target: "POST /a/1/import/6",
        key: "secret01",
        body: BLUE,
        status: OK,
        content: JSON,
        answer: "{\"count\":1,\"first\":2}",
    },
    Request {
        target: "POST /a/1/import/7",
        key: "secret01",
        body: "campaign,bid,pattern,headline,link\n1,+20,red,Red,http://s/",
        status: BAD,
        content: JSON,
        answer: "{\"code\":0,\"detail\":\"1\",\"name\":\"BadCsv\"}",
    },
    Request {
        target: "POST /a/1/import/7",
        key: "secret01",
        body: "campaign,bid,pattern\n1,20,red",
        status: BAD,
        content: JSON,
        answer: "{\"code\":0,\"detail\":\"\",\"name\":\"BadCsv\"}",
    },
    Request {
        target: "GET /search?q=red",
        key: "",
        body: "",
        status: OK,
        content: JSON,
        answer: PAGE,
    },
    Request {
        target: "GET /click/1",
        key: "",
        body: "",
        status: "302 Found",
        content: "",
        answer: "",
    },
    Request {
        target: "GET /search?q=blue",
        key: "",
        body: "",
        status: OK,
        content: JSON,
        answer: PAGE_AGAIN,
    },
    Request {
        target: "GET /a/1/report/0?from=x",
        key: "secret01",
        body: "",
        status: OK,
        content: "text/plain; charset=utf-8",
        answer: REPORT,
    },
    Request {
        target: "GET /a/1/shown/0?from=&from=x",
        key: "secret01",
        body: "",
        status: OK,
        content: CSV,
        answer: SHOWN,
    },
    Request {
        target: "GET /a/1/shown/0?from=2",
        key: "secret01",
        body: "",
        status: OK,
        content: CSV,
        answer: SHOWN_FROM,
    },
    Request {
        target: "GET /a/1/shown/0?from=01",
        key: "secret01",
        body: "",
        status: BAD,
        content: JSON,
        answer: "{\"code\":0,\"detail\":\"\",\"name\":\"BadQuery\"}",
    },
];

/// The messages of requests, and the answers that they get.
fn exchanged(alloc: Global, requests: &[Request]) -> Result<(Vec<u8>, Vec<u8>), NoMemory> {
    let mut asked = Vec::new(alloc);
    let mut answers = Vec::new(alloc);
    for request in requests {
        let message = message_of(alloc, request)?;
        asked.extend_from_slice(message.as_slice())?;
        let answer = answer_of(alloc, request)?;
        answers.extend_from_slice(answer.as_slice())?;
    }
    Ok((asked, answers))
}

/// The message of a request.
fn message_of(alloc: Global, request: &Request) -> Result<Vec<u8>, NoMemory> {
    let Request {
        target,
        key,
        body,
        ..
    } = *request;
    let size = body.len();
    let message = format!(in alloc;
        "{target} HTTP/1.1~Host: h~Desk-Key: {key}~Content-Length: {size}~~{body}"
    )?;
    bytes_of(alloc, message.as_str())
}

/// The answer to a request.
fn answer_of(alloc: Global, request: &Request) -> Result<Vec<u8>, NoMemory> {
    let Request {
        status,
        content,
        answer,
        ..
    } = *request;
    let size = answer.len();
    let text = match content.is_empty() {
        true => format!(in alloc;
            "HTTP/1.1 {status}~Content-Length: 0~Location: http://s.example/r~~"
        )?,
        false => format!(in alloc;
            "HTTP/1.1 {status}~Content-Type: {content}~Content-Length: {size}~~{answer}"
        )?,
    };
    bytes_of(alloc, text.as_str())
}

#[test]
fn files_are_read_and_written(rt: HostRuntime) -> Result<(), Fail> {
    let alloc = rt.alloc();
    let (asked, answers) = exchanged(alloc, &ASKED)?;
    let found = ran(alloc, asked, PLAIN)?;
    assert_eq!(rt; found.written.as_slice(), answers.as_slice());
    Ok(())
}
