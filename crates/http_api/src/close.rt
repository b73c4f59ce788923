//! Whether a message asks to close.

ghost use Rattle.std.specs.Prelude.{◌≡◌, ◌≤◌, ◌&&◌, codes, length, not, reverse};
ghost use Rattle.std.specs.Str.{str_eq_ignore_ascii_case};
ghost use Rattle.std.specs.List.{position_or_len};
ghost use Rattle.httparse.specs.Grammar.{trim_ows, is_ows};
ghost use Rattle.http_api.specs.Fields.{has_token as is_token_of, asks_to_close as closes};

use crate::head::Head;

/// Whether a message asks to close: by its version, or by the token `close` of a Connection field.
pub fn asks_to_close(head: &Head) -> bool
    ensures { result ≡ closes head.now }
{
    if head.minor() == 0 {
        return true;
    }
    for place in 0..head.field_count() {
        if is_close(head.field(place)) {
            return true;
        }
    }
    false
}

/// Whether a field, a name and a value, is a Connection that has the token `close`.
fn is_close(field: (&[u8], &[u8])) -> bool
    ensures { result ≡ (str_eq_ignore_ascii_case field.entry.0.now (codes "connection")
        && is_token_of (codes "close") field.entry.1.now) }
{
    let (name, value) = field;
    name.eq_ignore_ascii_case(b"connection") && has_token(b"close", value)
}

/// Whether a token stands among those of a value, which commas part, in any ASCII case.
fn has_token(token: &[u8], value: &[u8]) -> bool
    ensures { result ≡ is_token_of token.now value.now }
{
    value
        .split(|byte| *byte == b',')
        .any(|part| is_token(token, part))
}

/// Whether a part of a value is the token, in any ASCII case, but for spaces and tabs round it.
fn is_token(token: &[u8], part: &[u8]) -> bool
    ensures { result ≡ str_eq_ignore_ascii_case (trim_ows part.now) token.now }
{
    trimmed(part).eq_ignore_ascii_case(token)
}

/// The bytes without the spaces and tabs at both ends.
fn trimmed(bytes: &[u8]) -> &[u8]
    ensures { result.now ≡ trim_ows bytes.now }
{
    let rest = &bytes[spaces_in_front(bytes)..];
    &rest[..rest.len() - spaces_at_end(rest)]
}

/// How many spaces and tabs stand in front.
fn spaces_in_front(bytes: &[u8]) -> usize
    ensures count { result ≡ position_or_len (λ byte. not (is_ows byte)) bytes.now }
    ensures fits { result ≤ length bytes.now }
{
    bytes
        .iter()
        .position(|byte| !is_space(*byte))
        .unwrap_or(bytes.len())
}

/// How many spaces and tabs stand at the end.
fn spaces_at_end(bytes: &[u8]) -> usize
    ensures count { result ≡ position_or_len (λ byte. not (is_ows byte)) (reverse bytes.now) }
    ensures fits { result ≤ length bytes.now }
{
    bytes
        .iter()
        .rev()
        .position(|byte| !is_space(*byte))
        .unwrap_or(bytes.len())
}

/// Whether a byte is a space or a tab.
fn is_space(byte: u8) -> bool
    ensures { result ≡ is_ows byte }
{
    byte == b' ' || byte == b'\t'
}
