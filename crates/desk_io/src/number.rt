//! Numbers as they stand in a text.

ghost use Rattle.std.specs.Prelude.{◌≡◌, ◌⊎◌, ◌+◌, ◌*◌, ◌^◌, ◌≤◌, true, false, IfSome, IfNone};
ghost use Rattle.std.specs.Char.{is_ascii_digit, digit_value};
ghost use Rattle.desk_io.specs.Number.{number as number_spelled, number_within};

/// The number that a text spells in decimal digits, without sign and without leading zeros,
/// where it is at least `least` and at most `most`; else `None`.
pub fn number_in(text: &[u8], least: u64, most: u64) -> Option<u64>
    ensures number { result ≡ number_within least most text.now }
    ensures in_range { IfSome result (λ n. (least ≤ n) × (n ≤ most)) }
{
    if text.is_empty() {
        return None;
    }
    if text[0] == b'0' && text.len() > 1 {
        return None;
    }
    let mut number = 0;
    for byte in text {
        number = with_digit(number, *byte)?;
    }
    if least <= number && number <= most {
        Some(number)
    } else {
        None
    }
}

/// The number below 2^64 that a text spells in decimal digits, without sign and without leading
/// zeros, or `None` where it spells none.
pub fn number(text: &str) -> Option<u64>
    ensures { result ≡ number_spelled text.now }
{
    number_in(text.as_bytes(), 0, u64::MAX)
}

/// A number with a digit behind it, or `None` where the byte is no digit or the number not below 2^64.
fn with_digit(number: u64, byte: u8) -> Option<u64>
    ensures none { IfNone result ((is_ascii_digit byte ≡ false) ⊎ (2 ^ 64 ≤ number * 10 + digit_value byte)) }
    ensures some { IfSome result (λ more. (is_ascii_digit byte ≡ true) × (more ≡ number * 10 + digit_value byte)) }
{
    if !byte.is_ascii_digit() {
        return None;
    }
    number.checked_mul(10)?.checked_add(u64::from(byte - b'0'))
}
