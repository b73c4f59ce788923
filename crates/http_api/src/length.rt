//! How long the body of a message is.

ghost use Rattle.std.specs.Prelude.{◌≡◌, ◌≤◌, ◌<◌, ◌+◌, ◌*◌, ◌⊎◌, min, true, false, [], ◌∷◌, IfSome, IfNone};
ghost use Rattle.std.specs.Char.{is_ascii_digit, digit_value};
ghost use Rattle.std.specs.Str.Parse.{digits_value};
ghost use Rattle.http_api.specs.Fields.{are_lengths};
ghost use Rattle.http_api.specs.Judging.{body_length as length_of_body};

use crate::head::{Found, Head};
use crate::limits::{BODY_BYTES_MAX, FIELDS_MAX};

/// How many bytes of body a head asks for, or `None` where it ends the session: it has more than 64 fields, a
/// Transfer-Encoding, or a Content-Length that is no number, stands more than once or is above 262,144.
pub fn body_length(head: &Head) -> Option<usize>
    ensures { result ≡ length_of_body head.now }
{
    if head.field_count() > FIELDS_MAX || head.has("transfer-encoding") {
        return None;
    }
    match head.find("content-length") {
        Found::Absent => Some(0),
        Found::Once(digits) => length_in(digits),
        Found::Repeated(_) => None,
    }
}

/// The length that digits spell, where there are digits alone and the length is at most that of a body. Zeros may stand
/// in front.
fn length_in(digits: &[u8]) -> Option<usize>
    ensures some { IfSome result (λ size. (are_lengths (digits.now ∷ []) ≡ true)
        × (digits_value 10 digits.now ≡ size) × (size ≤ BODY_BYTES_MAX)) }
    ensures none { IfNone result ((are_lengths (digits.now ∷ []) ≡ false)
        ⊎ (BODY_BYTES_MAX < digits_value 10 digits.now)) }
{
    if digits.is_empty() {
        return None;
    }
    let mut size = 0;
    for digit in digits {
        size = with_digit(size, *digit)?;
    }
    if size <= BODY_BYTES_MAX {
        Some(size)
    } else {
        None
    }
}

/// A length with a digit behind it, at most one past that of any body; `None` where the byte is no digit.
fn with_digit(size: usize, byte: u8) -> Option<usize>
    requires { size ≤ BODY_BYTES_MAX + 1 }
    ensures none { IfNone result (is_ascii_digit byte ≡ false) }
    ensures some { IfSome result (λ more. (is_ascii_digit byte ≡ true)
        × (more ≡ min (size * 10 + digit_value byte) (BODY_BYTES_MAX + 1))) }
{
    if !byte.is_ascii_digit() {
        return None;
    }
    let digit = usize::from(byte - b'0');
    Some((size * 10 + digit).min(BODY_BYTES_MAX + 1))
}
