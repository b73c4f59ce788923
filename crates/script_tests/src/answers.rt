//! The lines of answers.

use desk_io::{MemSink, OutBuf};
use desk_types::{
    CampaignDay, DayReport, Fault, Field, HostDay, LinkText, Refusal, Reply, ShownFate, ShownRow,
    Spot,
};
use match_types::PatternCause;
use query_words::{List, NoMemory, Text};
use script_api::put_answer_line;
use std::alloc::Global;
use std::process::Abort;
use std::test::Fail;

/// Checks the line of an answer.
fn check_line(
    rt: &(impl Abort + AllocGlobal),
    answer: Result<Reply, Fault>,
    line: &str,
) -> Result<(), Fail> {
    let alloc = rt.alloc();
    let mut sink = MemSink::new(alloc, 1_000, 1_000, Vec::new(alloc))?;
    let mut out = OutBuf::new(alloc)?;
    assert!(rt;
        put_answer_line(&mut out, &mut sink, &answer).is_ok(),
        "{line}"
    );
    assert!(rt; out.flush(&mut sink).is_ok(), "{line}");
    assert_eq!(rt; sink.bytes(), line.as_bytes(), "{line}");
    Ok(())
}

/// A place of a page.
fn spot_of(
    rt: &impl Abort,
    alloc: Global,
    place: u64,
    placement: u64,
    price: u64,
) -> Result<Spot, NoMemory> {
    Ok(Spot {
        place,
        placement,
        account: 1,
        campaign: 2,
        line: 3,
        headline: Text::new(alloc, "Shoes")?,
        link: LinkText::read("http://s.example/").expect(rt, "it is a link"),
        price,
    })
}

#[test]
fn a_reply_has_its_line(rt: HostRuntime) -> Result<(), Fail> {
    let link = LinkText::read("http://s.example/").expect(&rt, "it is a link");
    check_line(&rt, Ok(Reply::Made(12)), "made 12\n")?;
    check_line(&rt, Ok(Reply::Done), "done\n")?;
    check_line(&rt, Ok(Reply::Credited(51)), "credited 51\n")?;
    let imported = Reply::Imported { first: 3, count: 2 };
    check_line(&rt, Ok(imported), "imported 3 2\n")?;
    check_line(&rt, Ok(Reply::Went(link)), "went http://s.example/\n")
}

#[test]
fn a_page_has_its_line(rt: HostRuntime) -> Result<(), Fail> {
    let alloc = rt.alloc();
    let mut spots = Vec::new(alloc);
    spots.push(spot_of(&rt, alloc, 1, 11, 51)?)?;
    spots.push(spot_of(&rt, alloc, 2, 12, 5)?)?;
    let line = "page 2 | 1 1.2.3 51 #11 | 2 1.2.3 5 #12\n";
    check_line(&rt, Ok(Reply::Page(List::from_vec(spots))), line)
}

const HOST: HostDay = HostDay {
    day: 1,
    accounts: 2,
    shown: 3,
    clicks: 4,
    spent: 5,
    escrowed: 6,
    credited: 7,
};

const CAMPAIGN: CampaignDay = CampaignDay {
    campaign: 2,
    budget: 3,
    shown: 4,
    clicks: 5,
    spent: 6,
    escrowed: 7,
    free: 8,
    credited: 9,
};

#[test]
fn the_numbers_of_a_day_have_their_lines(rt: HostRuntime) -> Result<(), Fail> {
    let alloc = rt.alloc();
    let line = "host 1 accounts 2 shown 3 clicks 4 spent 5 escrowed 6 credited 7\n";
    check_line(&rt, Ok(Reply::HostDay(HOST)), line)?;
    let rows = List::from_vec(vec![in alloc; CAMPAIGN; 1]?);
    let line = "day 1 | 2 budget 3 shown 4 clicks 5 spent 6 escrowed 7 free 8 credited 9\n";
    check_line(&rt, Ok(Reply::Day(DayReport { day: 1, rows })), line)
}

/// What became of a placement, and how it is told.
const FATES: [(ShownFate, &str); 4] = [
    (ShownFate::Open, "shown 1 | 1 2 3 4 5 open\n"),
    (ShownFate::Expired, "shown 1 | 1 2 3 4 5 expired\n"),
    (ShownFate::Settled(7), "shown 1 | 1 2 3 4 5 settled\n"),
    (ShownFate::Credited(7, 8), "shown 1 | 1 2 3 4 5 credited\n"),
];

#[test]
fn a_statement_has_its_line(rt: HostRuntime) -> Result<(), Fail> {
    let alloc = rt.alloc();
    for (fate, line) in FATES {
        let row = ShownRow {
            placement: 1,
            campaign: 2,
            line: 3,
            place: 4,
            price: 5,
            shown: 6,
            fate,
        };
        let rows = List::from_vec(vec![in alloc; row; 1]?);
        check_line(&rt, Ok(Reply::ShownRows(rows)), line)?;
    }
    Ok(())
}

const KEEPER: Fault = Fault::Keeper {
    before: 0,
    after: 1,
};

const FULL: Fault = Fault::JournalFull {
    entries: 3,
    bytes: 4,
};

const FAULTS: [(Fault, &str); 3] = [
    (KEEPER, "fault keeper\n"),
    (FULL, "fault journal\n"),
    (Fault::NoMemory, "fault memory\n"),
];

#[test]
fn a_fault_has_its_line(rt: HostRuntime) -> Result<(), Fail> {
    for (fault, line) in FAULTS {
        check_line(&rt, Err(fault), line)?;
    }
    Ok(())
}

const UNCLOSED: Refusal = Refusal::BadPattern(PatternCause::Unclosed);

const QUALITY: Refusal = Refusal::BadField(Field::Quality);

const REFUSALS: [(Refusal, &str); 13] = [
    (Refusal::BadKey, "refused BadKey\n"),
    (Refusal::NoLine, "refused NoLine\n"),
    (Refusal::BadRow(2, 9), "refused BadRow 2 9\n"),
    (QUALITY, "refused BadField Quality\n"),
    (Refusal::BadField(Field::Batch), "refused BadField Batch\n"),
    (Refusal::BadField(Field::Rows), "refused BadField Rows\n"),
    (Refusal::BadField(Field::Bid), "refused BadField Bid\n"),
    (Refusal::BadField(Field::Day), "refused BadField Day\n"),
    (Refusal::BudgetBelowUsed(5), "refused BudgetBelowUsed 5\n"),
    (Refusal::NotSettled, "refused NotSettled\n"),
    (UNCLOSED, "refused BadPattern Unclosed\n"),
    (Refusal::LineThere(7), "refused LineThere 7\n"),
    (Refusal::QueryTooLong(513), "refused QueryTooLong 513\n"),
];

#[test]
fn a_refusal_has_its_line(rt: HostRuntime) -> Result<(), Fail> {
    for (refusal, line) in REFUSALS {
        check_line(&rt, Ok(Reply::Refused(refusal)), line)?;
    }
    Ok(())
}
