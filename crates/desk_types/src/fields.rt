//! The forms of keys, headlines and links.

ghost use Rattle.std.specs.Prelude.{◌≡◌, ◌==◌, ◌&&◌, ◌≤◌, not, nat_le, length, IsTrue};
ghost use Rattle.std.specs.List.{list_all};
ghost use Rattle.desk_types.specs.Fields.{has_scheme, is_headline, is_key, is_link, is_visible};

use crate::limits::{HEADLINE_BYTES_MAX, KEY_BYTES_MAX, KEY_BYTES_MIN, LINK_BYTES_MAX};

/// Whether a text is a key: 8 to 64 visible ASCII bytes.
#[tactic(auto, unfolding(crate::specs::Fields::is_key))]
pub fn is_key(text: &str) -> bool
    ensures { result ≡ is_key text.now }
{
    let bytes = text.as_bytes();
    let length = bytes.len() as u64;
    if length < KEY_BYTES_MIN || length > KEY_BYTES_MAX {
        return false;
    }
    are_visible(bytes)
}

/// Whether a text is a headline: 1 to 90 bytes, none of them a control character of ASCII.
#[tactic(auto, unfolding(crate::specs::Fields::is_headline))]
pub fn is_headline(text: &str) -> bool
    ensures { result ≡ is_headline text.now }
{
    let bytes = text.as_bytes();
    let length = bytes.len() as u64;
    if length < 1 || length > HEADLINE_BYTES_MAX {
        return false;
    }
    are_shown(bytes)
}

/// Whether a text is a link: at most 512 visible ASCII bytes that begin with a scheme of the web.
#[tactic(auto, unfolding(crate::specs::Fields::is_link))]
pub(crate) fn is_link(text: &str) -> bool
    ensures test { result ≡ is_link text.now }
    ensures fits { IsTrue result → length text.now ≤ LINK_BYTES_MAX }
{
    let bytes = text.as_bytes();
    if bytes.len() > LINK_BYTES_MAX {
        return false;
    }
    if !has_scheme(bytes) {
        return false;
    }
    are_visible(bytes)
}

/// Whether the bytes begin with a scheme of the web.
fn has_scheme(text: &[u8]) -> bool
    ensures { result ≡ has_scheme text.now }
{
    text.starts_with(b"http://") || text.starts_with(b"https://")
}

/// Whether each of the bytes is a visible ASCII character.
fn are_visible(bytes: &[u8]) -> bool
    ensures { result ≡ list_all is_visible bytes.now }
{
    bytes.iter().all(|byte| is_visible(*byte))
}

/// Whether a byte is a visible ASCII character.
fn is_visible(byte: u8) -> bool
    ensures { result ≡ is_visible byte }
{
    (0x21..=0x7E).contains(&byte)
}

/// Whether none of the bytes is a control character of ASCII.
fn are_shown(bytes: &[u8]) -> bool
    ensures { result ≡ list_all (λ byte. nat_le 0x20 byte && not (byte == 0x7F)) bytes.now }
{
    bytes.iter().all(|byte| *byte >= 0x20 && *byte != 0x7F)
}
