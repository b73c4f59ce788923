//! Where the head of a message ends.

ghost use Rattle.std.specs.Prelude.{◌≡◌, ◌≤◌, ◌↔◌, IsTrue, IfNone, IfSome, [], length, drop};
ghost use Rattle.http_api.specs.HeadEnd.{end_in_front as end_at_front, head_length as length_of_head, length_through_end as through_end, without_blank};
ghost use Rattle.http_api.specs.Held.{IsBehindBlank};

use memchr::memchr;

/// How long the head is that stands in front of the bytes: empty lines before it count, and it runs through the first
/// line feed behind which an empty line stands. `None` where it does not end.
pub fn head_length(bytes: &[u8]) -> Option<usize>
    ensures { result ≡ length_of_head bytes.now }
{
    let blank = blank_length(bytes);
    let end = length_through_end(&bytes[blank..])?;
    Some(blank + end)
}

/// Whether the bytes are empty lines alone.
pub fn is_blank(bytes: &[u8]) -> bool
    ensures { IsTrue result ↔ (without_blank bytes.now ≡ []) }
{
    blank_length(bytes) == bytes.len()
}

/// How many bytes the empty lines in front have.
fn blank_length(bytes: &[u8]) -> usize
    ensures within { result ≤ length bytes.now }
    ensures behind { drop result bytes.now ≡ without_blank bytes.now }
{
    let mut rest = bytes;
    while let Some(more) = behind_blank(rest) {
        rest = more;
    }
    bytes.len() - rest.len()
}

/// The bytes behind the empty line in front, if one stands there.
fn behind_blank(bytes: &[u8]) -> Option<&[u8]>
    ensures some { IfSome result (λ rest. IsBehindBlank bytes.now rest.now) }
    ensures none { IfNone result (without_blank bytes.now ≡ bytes.now) }
{
    match bytes.strip_prefix(b"\n") {
        Some(rest) => Some(rest),
        None => bytes.strip_prefix(b"\r\n"),
    }
}

/// How many bytes run through the first end of a head.
fn length_through_end(bytes: &[u8]) -> Option<usize>
    ensures { result ≡ through_end bytes.now }
{
    let mut passed = 0;
    loop {
        let feed = memchr(b'\n', &bytes[passed..])?;
        let line_end = passed + feed;
        if let Some(end) = end_in_front(&bytes[line_end..]) {
            return Some(line_end + end);
        }
        passed = line_end + 1;
    }
}

/// How long the end of a head is that stands in front: a line feed, and an empty line behind it.
fn end_in_front(bytes: &[u8]) -> Option<usize>
    ensures { result ≡ end_at_front bytes.now }
{
    if bytes.starts_with(b"\n\n") {
        Some(2)
    } else if bytes.starts_with(b"\n\r\n") {
        Some(3)
    } else {
        None
    }
}
