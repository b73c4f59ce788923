//! Tests of what placements answer to clicks, credits and statements.

ghost use Rattle.std.specs.Prelude.{◌≡◌, ◌≤◌, All, OnOk};
ghost use Rattle.desk_types.specs.declared.limits.TheConstants.{MOMENT_MAX};
ghost use Rattle.placements.specs.Clicks.{found, is_settled};

use desk_types::limits::CLICK_WINDOW;
use desk_types::{Fate, Placement};
use placements::{Clicked, Placements};
use query_words::List;
use std::alloc::{AllocError, Global};
use std::process::Abort;
use std::rt::HostRuntime;
use std::test::Fail;

/// Shows the next placement of an account at a moment.
fn show(placements: &mut Placements, account: u64, moment: u64) -> Result<(), AllocError>
    requires within { moment ≤ MOMENT_MAX }
    requires last { All (λ p. p.shown ≤ moment) placements.old.rows }
    ensures { OnOk result (All (λ p. p.shown ≤ moment) placements.new.rows) }
{
    placements.make_room(1)?;
    let number = placements.count() + 1;
    placements.show(Placement {
        number,
        account,
        campaign: 1,
        line: 1,
        place: 1,
        bid: 50,
        price: 5,
        shown: moment,
        deadline: moment + CLICK_WINDOW,
        fate: Fate::Open,
    });
    Ok(())
}

/// Three placements: of the accounts 1 and 2 on the day 0, and of the account 1 on the day 1.
fn three(alloc: Global) -> Result<Placements, AllocError> {
    let mut placements = Placements::load(alloc, List::new(alloc), 0)?;
    show(&mut placements, 1, 100)?;
    show(&mut placements, 2, 100)?;
    show(&mut placements, 1, 86_500)?;
    Ok(placements)
}

/// A number, a moment, and what a click does.
static CLICKS: [(u64, u64, Clicked); 5] = [
    (0, 100, Clicked::Unknown),
    (4, 100, Clicked::Unknown),
    (2, 1_899, Clicked::Settles),
    (2, 1_900, Clicked::Same),
    (3, 86_500, Clicked::Settles),
];

#[test]
fn a_click_settles_until_the_deadline(rt: HostRuntime) -> Result<(), Fail> {
    let placements = three(rt.alloc())?;
    for (number, moment, clicked) in &CLICKS {
        assert_eq!(rt;
            placements.judge_click(*number, *moment),
            *clicked,
            "{number} at {moment}"
        );
    }
    Ok(())
}

/// What became of a placement.
fn fate_of(placements: &Placements, number: u64) -> Option<Fate> {
    placements.get(number).map(|row| row.fate)
}

/// Whether a click settled a placement.
fn is_settled(placements: &Placements, number: u64) -> bool
    ensures { result ≡ is_settled (found number placements.now.rows) }
{
    match placements.get(number) {
        Some(row) => matches!(row.fate, Fate::Settled(_)),
        None => false,
    }
}

#[test]
fn a_placement_is_settled_and_credited_once(rt: HostRuntime) -> Result<(), Fail> {
    let mut placements = three(rt.alloc())?;
    if placements.judge_click(1, 200) == Clicked::Settles {
        placements.click(1, 200);
    }
    assert_eq!(rt; placements.judge_click(1, 300), Clicked::Same);
    assert_eq!(rt; fate_of(&placements, 1), Some(Fate::Settled(200)));
    if is_settled(&placements, 1) {
        placements.credit(1, 400);
    }
    assert_eq!(rt; fate_of(&placements, 1), Some(Fate::Credited(200, 400)));
    assert_eq!(rt; fate_of(&placements, 3), Some(Fate::Open));
    Ok(())
}

/// An account, a day, a number, and the sum of the numbers of the statement from this number on.
static STATEMENTS: [(u64, u64, u64, u64); 5] = [
    (1, 0, 0, 1),
    (1, 1, 0, 3),
    (2, 0, 2, 2),
    (2, 0, 3, 0),
    (3, 0, 0, 0),
];

#[test]
fn a_statement_has_the_accounts_placements_of_the_day(rt: HostRuntime) -> Result<(), Fail> {
    let placements = three(rt.alloc())?;
    for (account, day, from, numbers) in &STATEMENTS {
        let rows = placements.of_account(*account, *day, *from)?;
        let mut sum: u64 = 0;
        for row in rows.as_slice() {
            sum = sum.wrapping_add(row.number);
        }
        assert_eq!(rt; sum, *numbers, "account {account} on day {day} from {from}");
    }
    Ok(())
}
