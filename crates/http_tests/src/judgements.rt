//! What is judged of a message, each once, with its answer whole.

use crate::served::{PLAIN, bytes_of, ran};
use http_api::SessionEnd::Ended;
use std::test::Fail;

/// A message, the status of its answer, the fields behind the type of the content, and the name in its body.
const JUDGED: [(&str, &str, &str, &str); 15] = [
    (
        "GET /search HTTP/1.1~~",
        "400 Bad Request",
        "Content-Length: 39~",
        "BadHost",
    ),
    (
        "GET /search HTTP/1.1~Host: a~host: b~~",
        "400 Bad Request",
        "Content-Length: 39~",
        "BadHost",
    ),
    (
        "GET /search HTTP/1.1~Host: h~Content-Encoding: gzip~~",
        "415 Unsupported Media Type",
        "Content-Length: 43~",
        "BadEncoding",
    ),
    (
        "GET * HTTP/1.1~Host: h~~",
        "400 Bad Request",
        "Content-Length: 41~",
        "BadTarget",
    ),
    (
        "GET http://h/search HTTP/1.1~Host: h~~",
        "400 Bad Request",
        "Content-Length: 41~",
        "BadTarget",
    ),
    (
        "GET /find HTTP/1.1~Host: h~~",
        "404 Not Found",
        "Content-Length: 39~",
        "NoRoute",
    ),
    (
        "GET /click/01 HTTP/1.1~Host: h~~",
        "404 Not Found",
        "Content-Length: 39~",
        "NoRoute",
    ),
    (
        "GET /a/1/reports/0 HTTP/1.1~Host: h~~",
        "404 Not Found",
        "Content-Length: 39~",
        "NoRoute",
    ),
    (
        "POST /search HTTP/1.1~Host: h~~",
        "405 Method Not Allowed",
        "Content-Length: 41~Allow: GET~",
        "BadMethod",
    ),
    (
        "GET /accounts HTTP/1.1~Host: h~~",
        "405 Method Not Allowed",
        "Content-Length: 41~Allow: POST~",
        "BadMethod",
    ),
    (
        "POST /accounts HTTP/1.1~Host: h~~",
        "403 Forbidden",
        "Content-Length: 39~",
        "HostKey",
    ),
    (
        "POST /accounts HTTP/1.1~Host: h~Desk-Key: secret01~Desk-Key: hostkey1~~",
        "403 Forbidden",
        "Content-Length: 39~",
        "HostKey",
    ),
    (
        "GET /search?n=01 HTTP/1.1~Host: h~~",
        "400 Bad Request",
        "Content-Length: 40~",
        "BadQuery",
    ),
    (
        "POST /accounts HTTP/1.1~Host: h~Desk-Key: hostkey1~Content-Length: 2~~{}",
        "400 Bad Request",
        "Content-Length: 39~",
        "BadBody",
    ),
    (
        "POST /a/1/bid HTTP/1.1~Host: h~~",
        "400 Bad Request",
        "Content-Length: 39~",
        "BadBody",
    ),
];

#[test]
fn each_judgement_is_answered(rt: HostRuntime) -> Result<(), Fail> {
    let alloc = rt.alloc();
    for (message, status, fields, name) in JUDGED {
        let answer = format!(in alloc;
            "HTTP/1.1 {status}~Content-Type: application/json~{fields}~{{\"code\":0,\"detail\":\"\",\"name\":\"{name}\"}}"
        )?;
        let found = ran(alloc, bytes_of(alloc, message)?, PLAIN)?;
        assert_eq!(rt; found.session.end, Ended, "{message}");
        assert_eq!(rt;
            found.written.as_slice(),
            bytes_of(alloc, answer.as_str())?.as_slice(),
            "{message}"
        );
    }
    Ok(())
}

/// A message with the method HEAD, and its answer.
const BODILESS: [(&str, &str); 3] = [
    (
        "HEAD /search HTTP/1.1~Host: h~~",
        "HTTP/1.1 405 Method Not Allowed~Content-Type: application/json~Content-Length: 41~Allow: GET~~",
    ),
    (
        "HEAD /a/1/report/0 HTTP/1.1~Host: h~Desk-Key: secret01~~",
        "HTTP/1.1 405 Method Not Allowed~Content-Type: application/json~Content-Length: 41~Allow: GET~~",
    ),
    (
        "HEAD / HTTP/1.1~Host: h~Transfer-Encoding: x~~",
        "HTTP/1.1 400 Bad Request~Content-Type: application/json~Content-Length: 40~Connection: close~~",
    ),
];

#[test]
fn an_answer_to_head_has_no_body(rt: HostRuntime) -> Result<(), Fail> {
    let alloc = rt.alloc();
    for (message, answer) in BODILESS {
        let found = ran(alloc, bytes_of(alloc, message)?, PLAIN)?;
        assert_eq!(rt;
            found.written.as_slice(),
            bytes_of(alloc, answer)?.as_slice(),
            "{message}"
        );
    }
    Ok(())
}
