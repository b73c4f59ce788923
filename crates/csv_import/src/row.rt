//! What a record of an import holds.

ghost use Rattle.std.specs.Prelude.{◌≡◌, ◌<◌, true, false, [], ◌∷◌, codes, length, IfOk, IfSome, IfNone, Some, slice_index_or};
ghost use Rattle.std.specs.List.{list_all};
ghost use Rattle.std.specs.Str.{is_utf8};
ghost use Rattle.csv.specs.Records.{field_at, fields_of};
ghost use Rattle.csv_import.specs.ImportFile.{fields_eq, heading, row_of as row_by};

use csv::ByteRecord;
use desk_io::number::number;
use desk_types::ImportRow;
use query_words::{NoMemory, Text};
use std::alloc::Global;

/// The texts of a record of five fields.
#[derive(Clone, Copy)]
struct RowTexts<'a> {
    campaign: &'a str,
    bid: &'a str,
    pattern: &'a str,
    headline: &'a str,
    link: &'a str,
}

/// Whether a record is the heading.
pub(crate) fn is_heading(entry: &ByteRecord) -> bool
    ensures { result ≡ fields_eq (fields_of entry.now) heading }
{
    let Some(texts) = texts_of(entry) else {
        return false;
    };
    texts.campaign == "campaign"
        && texts.bid == "bid"
        && texts.pattern == "pattern"
        && texts.headline == "headline"
        && texts.link == "link"
}

/// The row of a record, if it is one.
pub(crate) fn row_of(alloc: Global, entry: &ByteRecord) -> Result<Option<ImportRow>, NoMemory>
    ensures { IfOk result (λ row. row ≡ row_by (fields_of entry.now)) }
{
    let Some(texts) = texts_of(entry) else {
        return Ok(None);
    };
    let Some(campaign) = number(texts.campaign) else {
        return Ok(None);
    };
    let Some(bid) = number(texts.bid) else {
        return Ok(None);
    };
    Ok(Some(ImportRow {
        campaign,
        bid,
        pattern: Text::new(alloc, texts.pattern)?,
        headline: Text::new(alloc, texts.headline)?,
        link: Text::new(alloc, texts.link)?,
    }))
}

/// The texts of a record, where it has five fields of UTF-8.
fn texts_of(entry: &ByteRecord) -> Option<RowTexts<'_>>
    ensures fields { IfSome result (λ texts. fields_of entry.now
        ≡ texts.campaign.now ∷ texts.bid.now ∷ texts.pattern.now ∷ texts.headline.now ∷ texts.link.now ∷ []) }
    ensures utf8 { IfSome result (λ texts. list_all is_utf8 (fields_of entry.now) ≡ true) }
    ensures none { IfNone result (length (fields_of entry.now) ≡ 5
        → list_all is_utf8 (fields_of entry.now) ≡ false) }
{
    if entry.len() != 5 {
        return None;
    }
    Some(RowTexts {
        campaign: text_at(entry, 0)?,
        bid: text_at(entry, 1)?,
        pattern: text_at(entry, 2)?,
        headline: text_at(entry, 3)?,
        link: text_at(entry, 4)?,
    })
}

/// The text of a record's field, where it is UTF-8.
fn text_at(entry: &ByteRecord, place: usize) -> Option<&str>
    ensures text { IfSome result (λ text. (field_at (fields_of entry.now) place ≡ Some text.now)
        × (is_utf8 text.now ≡ true)) }
    ensures none { IfNone result (place < length (fields_of entry.now)
        → is_utf8 (slice_index_or (fields_of entry.now) place []) ≡ false) }
{
    match str::from_utf8(entry.get(place)?) {
        Ok(text) => Some(text),
        Err(_) => None,
    }
}
