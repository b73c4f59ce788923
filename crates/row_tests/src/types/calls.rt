//! Calls and refusals.

use desk_types::{Call, Detail, Field, ImportRow, Refusal};
use match_types::PatternCause;
use query_words::{List, Text, Twin};
use std::process::Abort;
use std::test::Fail;

#[test]
fn a_line_weighs_what_its_four_texts_do(rt: HostRuntime) -> Result<(), Fail> {
    let call = Call::AddLine {
        account: 1,
        key: Text::new(rt.alloc(), "secret01")?,
        campaign: 1,
        bid: 50,
        pattern: Text::new(rt.alloc(), "shoes")?,
        headline: Text::new(rt.alloc(), "Shoes!")?,
        link: Text::new(rt.alloc(), "http://s")?,
    };
    assert_eq!(rt; call.weight(), 27);
    assert_eq!(rt; call.twin()?.weight(), 27);
    Ok(())
}

#[test]
fn a_row_of_an_import_weighs_128_and_its_three_texts(rt: HostRuntime) -> Result<(), Fail> {
    let row = ImportRow {
        campaign: 1,
        bid: 50,
        pattern: Text::new(rt.alloc(), "shoes")?,
        headline: Text::new(rt.alloc(), "Shoes!")?,
        link: Text::new(rt.alloc(), "http://s")?,
    };
    let call = Call::Import {
        account: 1,
        key: Text::new(rt.alloc(), "secret01")?,
        batch: 5,
        rows: List::from_vec(vec![in rt.alloc(); row]?),
    };
    assert_eq!(rt; call.weight(), 155);
    assert_eq!(rt; call.twin()?.weight(), 155);
    Ok(())
}

/// A refusal of each kind of detail, its number and its name.
static REFUSALS: [(Refusal, u64, &str, Detail); 5] = [
    (Refusal::BadKey, 1, "BadKey", Detail::Nothing),
    (
        Refusal::BadField(Field::Bid),
        7,
        "BadField",
        Detail::Field(Field::Bid),
    ),
    (
        Refusal::BadPattern(PatternCause::Minus),
        8,
        "BadPattern",
        Detail::Cause(PatternCause::Minus),
    ),
    (
        Refusal::QueryTooMany(33),
        19,
        "QueryTooMany",
        Detail::Number(33),
    ),
    (Refusal::BadRow(2, 7), 20, "BadRow", Detail::Row(2, 7)),
];

#[test]
fn refusals_have_a_number_a_name_and_a_detail(rt: HostRuntime) {
    for (refusal, number, name, detail) in &REFUSALS {
        check_refusal(&rt, *refusal, *number, name, *detail);
    }
}

fn check_refusal(rt: &impl Abort, refusal: Refusal, number: u64, name: &str, detail: Detail) {
    assert_eq!(rt; refusal.number(), number, "{name}");
    assert_eq!(rt; refusal.name(), name);
    assert!(rt; refusal.detail() == detail, "{name}");
}
