//! Tests of what a book answers to edits, one after another.

ghost use Rattle.std.specs.Prelude.{IfOk, IsTrue};
ghost use Rattle.accounts.specs.Planned.{is_edit};

use accounts::{Book, EditFault};
use desk_types::{Call, Field, ImportRow, Part, Refusal, Reply};
use match_types::PatternCause;
use query_words::{List, Text};
use std::alloc::{AllocError, Global};
use std::process::Abort;
use std::rt::HostRuntime;

/// An account's number and a key.
type Who = (u64, &'static str);

/// The first account with its key and with a wrong one, the second, and no account.
const ONE: Who = (1, "secret01");

const WRONG: Who = (1, "wrongkey");

const TWO: Who = (2, "secret02");

const NOBODY: Who = (9, "secret01");

/// What is used today of the campaign whose budget an edit sets.
const USED: u64 = 40;

/// A link.
const LINK: &str = "http://s.example/";

/// An edit, told by its numbers and texts; of a line the headline, or else the link, is the last one.
#[derive(Clone, Copy)]
enum Asked {
    Account(&'static str),
    Campaign(Who, u64),
    Budget(Who, u64, u64),
    Line(Who, u64, u64, &'static str),
    Headline(&'static str),
    Link(&'static str),
    Negative(Who, u64, &'static str),
    Drop(Who, u64),
    Quality(u64, u64, u64),
    Suspend(u64, bool),
    Bid(Who, u64, u64),
    Pause(Who, Part, bool),
    Import(Who, u64, &'static [RowAsked]),
}

/// A row of an import: the campaign, the bid and the pattern.
type RowAsked = (u64, u64, &'static str);

/// The reply to an edit.
#[derive(Clone, Copy)]
enum Told {
    Made(u64),
    Done,
    Imported(u64, u64),
    No(Refusal),
}

/// The edit that is told.
fn edit_of(alloc: Global, asked: Asked) -> Result<Call, AllocError>
    ensures { IfOk result (λ call. IsTrue (is_edit call)) }
{
    match asked {
        Asked::Account(key) => Ok(Call::AddAccount {
            key: Text::new(alloc, key)?,
        }),
        Asked::Campaign((account, key), budget) => Ok(Call::AddCampaign {
            account,
            key: Text::new(alloc, key)?,
            budget,
        }),
        Asked::Budget((account, key), campaign, amount) => Ok(Call::SetBudget {
            account,
            key: Text::new(alloc, key)?,
            campaign,
            amount,
        }),
        Asked::Line(who, campaign, bid, pattern) => {
            line_of(alloc, who, (campaign, bid), [pattern, "Shoes", LINK])
        }
        Asked::Headline(headline) => line_of(alloc, ONE, (1, 5), ["hats", headline, LINK]),
        Asked::Link(link) => line_of(alloc, ONE, (1, 5), ["hats", "Hats", link]),
        Asked::Negative((account, key), campaign, pattern) => Ok(Call::AddNegative {
            account,
            key: Text::new(alloc, key)?,
            campaign,
            pattern: Text::new(alloc, pattern)?,
        }),
        Asked::Drop((account, key), negative) => Ok(Call::DropNegative {
            account,
            key: Text::new(alloc, key)?,
            negative,
        }),
        Asked::Quality(account, line, quality) => Ok(Call::SetQuality {
            account,
            line,
            quality,
        }),
        Asked::Suspend(account, suspended) => Ok(Call::Suspend { account, suspended }),
        Asked::Bid((account, key), line, bid) => Ok(Call::SetBid {
            account,
            key: Text::new(alloc, key)?,
            line,
            bid,
        }),
        Asked::Pause((account, key), part, on) => Ok(Call::Pause {
            account,
            key: Text::new(alloc, key)?,
            part,
            on,
        }),
        Asked::Import((account, key), batch, rows) => Ok(Call::Import {
            account,
            key: Text::new(alloc, key)?,
            batch,
            rows: rows_of(alloc, rows)?,
        }),
    }
}

/// An edit that asks for a line in a campaign, with a bid, and with its pattern, its headline and its link.
fn line_of(
    alloc: Global,
    who: Who,
    numbers: (u64, u64),
    texts: [&str; 3],
) -> Result<Call, AllocError>
    ensures { IfOk result (λ call. IsTrue (is_edit call)) }
{
    let (account, key) = who;
    let (campaign, bid) = numbers;
    let [pattern, headline, link] = texts;
    Ok(Call::AddLine {
        account,
        key: Text::new(alloc, key)?,
        campaign,
        bid,
        pattern: Text::new(alloc, pattern)?,
        headline: Text::new(alloc, headline)?,
        link: Text::new(alloc, link)?,
    })
}

/// The rows of an import.
fn rows_of(alloc: Global, rows: &[RowAsked]) -> Result<List<ImportRow>, AllocError> {
    let mut all = Vec::new(alloc);
    for (campaign, bid, pattern) in rows {
        all.push(ImportRow {
            campaign: *campaign,
            bid: *bid,
            pattern: Text::new(alloc, pattern)?,
            headline: Text::new(alloc, "Boots")?,
            link: Text::new(alloc, LINK)?,
        })?;
    }
    Ok(List::from_vec(all))
}

/// Makes an edit at the moment 1.
fn edit(alloc: Global, book: &mut Book, asked: Asked) -> Result<Reply, EditFault> {
    let call = edit_of(alloc, asked)?;
    let plan = book.judge(&call, 1, USED)?;
    book.make_room(&plan)?;
    Ok(book.commit(plan))
}

/// Whether an edit is answered as is told.
fn answers(alloc: Global, book: &mut Book, row: &(Asked, Told)) -> bool {
    let (asked, told) = row;
    match edit(alloc, book, *asked) {
        Ok(Reply::Made(number)) => matches!(told, Told::Made(wanted) if number == *wanted),
        Ok(Reply::Done) => matches!(told, Told::Done),
        Ok(Reply::Imported { first, count }) => {
            matches!(told, Told::Imported(one, all) if first == *one && count == *all)
        }
        Ok(_) => false,
        Err(EditFault::Refused(refusal)) => matches!(told, Told::No(wanted) if refusal == *wanted),
        Err(EditFault::NoMemory) => false,
    }
}

/// Makes the edits of a table on a new book, each of which is to be answered as is told.
fn book_with(rt: &(impl Abort + AllocGlobal), rows: &[(Asked, Told)]) -> Book {
    let mut book = Book::new(rt.alloc());
    for (number, row) in rows.iter().enumerate() {
        assert!(rt; answers(rt.alloc(), &mut book, row), "row {number}");
    }
    book
}

static EDITS: &[(Asked, Told)] = &[
    (
        Asked::Account("short"),
        Told::No(Refusal::BadField(Field::Key)),
    ),
    (Asked::Account("secret01"), Told::Made(1)),
    (Asked::Account("secret02"), Told::Made(2)),
    (Asked::Campaign(NOBODY, 100), Told::No(Refusal::NoAccount)),
    (Asked::Campaign(WRONG, 100), Told::No(Refusal::BadKey)),
    (
        Asked::Campaign(ONE, 0),
        Told::No(Refusal::BadField(Field::Budget)),
    ),
    (Asked::Campaign(ONE, 100), Told::Made(1)),
    (Asked::Campaign(ONE, 200), Told::Made(2)),
    (Asked::Campaign(TWO, 300), Told::Made(1)),
    (
        Asked::Line(ONE, 3, 0, "shoes"),
        Told::No(Refusal::NoCampaign),
    ),
    (
        Asked::Line(ONE, 1, 0, "[]"),
        Told::No(Refusal::BadField(Field::Bid)),
    ),
    (
        Asked::Line(ONE, 1, 5, "[]"),
        Told::No(Refusal::BadPattern(PatternCause::NoWords)),
    ),
    (
        Asked::Headline(""),
        Told::No(Refusal::BadField(Field::Headline)),
    ),
    (
        Asked::Link("s.example"),
        Told::No(Refusal::BadField(Field::Link)),
    ),
    (Asked::Line(ONE, 1, 5, "shoes"), Told::Made(1)),
    (
        Asked::Line(ONE, 1, 6, "SHOES"),
        Told::No(Refusal::LineThere(1)),
    ),
    (Asked::Line(ONE, 1, 7, "[shoes]"), Told::Made(2)),
    (Asked::Line(ONE, 2, 8, "shoes"), Told::Made(3)),
    (Asked::Line(TWO, 1, 9, "shoes"), Told::Made(1)),
    (
        Asked::Negative(ONE, 3, "cheap"),
        Told::No(Refusal::NoCampaign),
    ),
    (
        Asked::Negative(ONE, 1, "--"),
        Told::No(Refusal::BadPattern(PatternCause::Minus)),
    ),
    (Asked::Negative(ONE, 1, "-cheap"), Told::Made(1)),
    (
        Asked::Negative(ONE, 1, "Cheap"),
        Told::No(Refusal::NegativeThere(1)),
    ),
    (Asked::Negative(ONE, 2, "cheap"), Told::Made(2)),
    (Asked::Drop(ONE, 3), Told::No(Refusal::NoNegative)),
    (Asked::Drop(ONE, 1), Told::Done),
    (Asked::Drop(ONE, 1), Told::No(Refusal::NoNegative)),
    (Asked::Negative(ONE, 1, "cheap"), Told::Made(1)),
];

#[test]
fn edits_are_answered_in_order(rt: HostRuntime) {
    let book = book_with(&rt, EDITS);
    assert_eq!(rt; book.count(), 2, "both accounts are there");
}

/// Changes to rows that are there, behind the edits above.
static CHANGES: &[(Asked, Told)] = &[
    (Asked::Quality(9, 9, 0), Told::No(Refusal::NoAccount)),
    (Asked::Quality(1, 9, 0), Told::No(Refusal::NoLine)),
    (
        Asked::Quality(1, 1, 0),
        Told::No(Refusal::BadField(Field::Quality)),
    ),
    (Asked::Quality(1, 1, 100), Told::Done),
    (Asked::Suspend(9, true), Told::No(Refusal::NoAccount)),
    (Asked::Suspend(2, true), Told::Done),
    (Asked::Bid(NOBODY, 9, 0), Told::No(Refusal::NoAccount)),
    (Asked::Bid(WRONG, 9, 0), Told::No(Refusal::BadKey)),
    (Asked::Bid(ONE, 9, 0), Told::No(Refusal::NoLine)),
    (
        Asked::Bid(ONE, 1, 0),
        Told::No(Refusal::BadField(Field::Bid)),
    ),
    (Asked::Bid(ONE, 3, 80), Told::Done),
    (
        Asked::Pause(NOBODY, Part::OfLine(9), false),
        Told::No(Refusal::NoAccount),
    ),
    (
        Asked::Pause(WRONG, Part::OfLine(9), false),
        Told::No(Refusal::BadKey),
    ),
    (
        Asked::Pause(ONE, Part::OfLine(9), false),
        Told::No(Refusal::NoLine),
    ),
    (
        Asked::Pause(ONE, Part::OfCampaign(9), false),
        Told::No(Refusal::NoCampaign),
    ),
    (Asked::Pause(ONE, Part::OfCampaign(2), false), Told::Done),
    (Asked::Pause(ONE, Part::OfLine(1), false), Told::Done),
];

#[test]
fn rows_that_are_there_are_changed(rt: HostRuntime) {
    let mut book = book_with(&rt, EDITS);
    for (number, row) in CHANGES.iter().enumerate() {
        assert!(rt; answers(rt.alloc(), &mut book, row), "row {number}");
    }
    assert!(rt; !book.is_active_account(2), "the account is suspended");
    assert!(rt; !book.is_active_campaign(1, 2), "the campaign is off");
    assert_eq!(rt;
        book.line(1, 3).map(|line| line.bid),
        Some(80),
        "the bid is the new one"
    );
    assert_eq!(rt;
        book.line(1, 1).map(|line| (line.quality, line.on)),
        Some((100, false)),
        "quality and switch are the new ones"
    );
}

/// Budgets that are set, behind the edits above: an amount below what is used is refused.
static BUDGETS: &[(Asked, Told)] = &[
    (Asked::Budget(NOBODY, 9, 0), Told::No(Refusal::NoAccount)),
    (Asked::Budget(WRONG, 9, 0), Told::No(Refusal::BadKey)),
    (Asked::Budget(ONE, 9, 0), Told::No(Refusal::NoCampaign)),
    (
        Asked::Budget(ONE, 1, 0),
        Told::No(Refusal::BadField(Field::Budget)),
    ),
    (
        Asked::Budget(ONE, 1, 39),
        Told::No(Refusal::BudgetBelowUsed(40)),
    ),
    (Asked::Budget(ONE, 1, 40), Told::Done),
    (Asked::Budget(ONE, 1, 50), Told::Done),
];

#[test]
fn the_budget_of_a_day_is_replaced(rt: HostRuntime) {
    let mut book = book_with(&rt, EDITS);
    for (number, row) in BUDGETS.iter().enumerate() {
        assert!(rt; answers(rt.alloc(), &mut book, row), "row {number}");
    }
    assert_eq!(rt; book.budgets(1).len(), 2, "no setting more");
    assert_eq!(rt;
        book.budgets(1).first().map(|setting| setting.amount),
        Some(50),
        "the amount is the last one"
    );
}

/// Imports, behind the edits above: a bad row by its number and its cause, and a batch that comes again.
static IMPORTS: &[(Asked, Told)] = &[
    (Asked::Import(NOBODY, 0, &[]), Told::No(Refusal::NoAccount)),
    (Asked::Import(WRONG, 0, &[]), Told::No(Refusal::BadKey)),
    (
        Asked::Import(ONE, 0, &[]),
        Told::No(Refusal::BadField(Field::Batch)),
    ),
    (
        Asked::Import(ONE, 5, &[]),
        Told::No(Refusal::BadField(Field::Rows)),
    ),
    (
        Asked::Import(ONE, 5, &[(1, 20, "a"), (1, 0, "b"), (1, 20, "c")]),
        Told::No(Refusal::BadRow(2, 7)),
    ),
    (
        Asked::Import(ONE, 5, &[(1, 20, "a"), (2, 20, "a"), (1, 20, "A")]),
        Told::No(Refusal::BadRow(3, 9)),
    ),
    (
        Asked::Import(ONE, 5, &[(1, 20, "a"), (1, 21, "b"), (1, 22, "c")]),
        Told::Imported(4, 3),
    ),
    (Asked::Import(ONE, 5, &[(9, 0, "")]), Told::Imported(4, 3)),
];

#[test]
fn a_batch_is_imported_whole_and_once(rt: HostRuntime) {
    let mut book = book_with(&rt, EDITS);
    for (number, row) in IMPORTS.iter().enumerate() {
        assert!(rt; answers(rt.alloc(), &mut book, row), "row {number}");
    }
    assert_eq!(rt; book.lines(1).len(), 6, "three lines more");
    assert_eq!(rt;
        book.line(1, 6).map(|line| line.bid),
        Some(22),
        "the lines are in the order of the rows"
    );
}

#[test]
fn rows_are_found_by_their_numbers(rt: HostRuntime) {
    let book = book_with(&rt, EDITS);
    assert!(rt;
        book.key_fits(2, "secret02") && !book.key_fits(1, "secret02"),
        "the key is the account's"
    );
    assert!(rt;
        book.is_active_account(1) && !book.is_active_account(3),
        "an account is there"
    );
    assert!(rt;
        book.is_active_campaign(1, 2) && !book.is_active_campaign(2, 2),
        "a campaign is there"
    );
    assert_eq!(rt;
        book.line(1, 3).map(|line| line.bid),
        Some(8),
        "the bid is the third line's"
    );
    assert!(rt;
        book.line(2, 2).is_none(),
        "the lines of others do not count"
    );
    assert_eq!(rt; book.campaigns(1).len(), 2, "campaigns");
    assert_eq!(rt; book.budgets(1).len(), 2, "budget settings");
    assert_eq!(rt; book.lines(1).len(), 3, "lines");
    assert_eq!(rt; book.negatives(1).len(), 2, "negatives");
    assert!(rt; book.lines(9).is_empty(), "no account, no line");
}

#[test]
fn an_account_has_64_campaigns(rt: HostRuntime) {
    let mut book = book_with(&rt, &[(Asked::Account("secret01"), Told::Made(1))]);
    for number in 1..65 {
        let made = (Asked::Campaign(ONE, 5), Told::Made(number));
        assert!(rt; answers(rt.alloc(), &mut book, &made), "campaign {number}");
    }
    let full = (Asked::Campaign(ONE, 5), Told::No(Refusal::CampaignsFull));
    assert!(rt; answers(rt.alloc(), &mut book, &full), "one more");
}
