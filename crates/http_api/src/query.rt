//! The names and values of a query.

ghost use Rattle.std.specs.Prelude.{◌≡◌, IfOk, option_map};
ghost use Rattle.std.specs.Cow.{cow_str_bytes};
ghost use Rattle.http_api.specs.Asked.{form_text, from_asked as from_by, number_told, places_asked as places_by, query_value as value_of, text_asked as text_by};

use desk_io::NoMemory;
use desk_io::number::number_in;
use form_urlencoded::{decode, raw_pairs};
use query_words::Text;
use std::alloc::Global;
use std::borrow::CowStr;

/// The text that is searched for, empty where none is given.
pub fn text_asked(alloc: Global, query: &[u8]) -> Result<Text, NoMemory>
    ensures { IfOk result (λ text. text ≡ text_by query.now) }
{
    match query_value(alloc, "q", query)? {
        Some(text) => Text::new(alloc, text.as_ref()),
        None => Text::new(alloc, ""),
    }
}

/// The places that are asked for: `Some(None)` where none are given, `None` where what is given is no number.
pub fn places_asked(alloc: Global, query: &[u8]) -> Result<Option<Option<u64>>, NoMemory>
    ensures { IfOk result (λ places. places ≡ places_by query.now) }
{
    number_asked(alloc, "n", query)
}

/// The placement from which on a statement is asked for: 0 where none is given, `None` where what is given is no
/// number.
pub fn from_asked(alloc: Global, query: &[u8]) -> Result<Option<u64>, NoMemory>
    ensures { IfOk result (λ from. from ≡ from_by query.now) }
{
    match number_asked(alloc, "from", query)? {
        Some(from) => Ok(Some(from.unwrap_or(0))),
        None => Ok(None),
    }
}

/// The number of a name: `Some(None)` where it is missing or empty, `None` where what is given is no number.
fn number_asked(alloc: Global, name: &str, query: &[u8]) -> Result<Option<Option<u64>>, NoMemory>
    ensures { IfOk result (λ number. number ≡ number_told (value_of name.now query.now)) }
{
    let Some(value) = query_value(alloc, name, query)? else {
        return Ok(Some(None));
    };
    let value: &str = value.as_ref();
    if value.is_empty() {
        return Ok(Some(None));
    }
    match number_in(value.as_bytes(), 0, u64::MAX) {
        Some(number) => Ok(Some(Some(number))),
        None => Ok(None),
    }
}

/// The first value of a name.
fn query_value<'a>(
    alloc: Global,
    name: &str,
    query: &'a [u8],
) -> Result<Option<CowStr<'a>>, NoMemory>
    ensures { IfOk result (λ value. option_map cow_str_bytes value ≡ value_of name.now query.now) }
{
    for (named, value) in raw_pairs(query) {
        if decode(alloc, named)?.as_ref() == name {
            return Ok(Some(decode(alloc, value)?));
        }
    }
    Ok(None)
}
