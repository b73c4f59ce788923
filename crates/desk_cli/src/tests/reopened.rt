//! A desk that is opened on the tables that another one left.

use super::scripts::{Script, check_behind};
use super::*;

/// The setting of a script.
fn script_of(alloc: Global, lines: &str) -> Result<Setting, NoMemory> {
    let lines = lines_of(alloc, lines)?;
    setting_of(alloc, "script", lines.as_slice(), in_pieces(4_096))
}

/// The keeper of a desk on which a script was run.
fn keeper_behind(rt: &impl Abort, alloc: Global, script: Setting, keeper: KeeperMem) -> KeeperMem {
    let (_, served) = call_on(alloc, script, keeper);
    served.desk.expect(rt, "a desk is opened").end()
}

/// What a script leaves on a keeper that held no rows, and of which this call fails, or none where it is 0.
fn left_by(
    rt: &(impl Abort + AllocGlobal),
    failing_call: u64,
    lines: &str,
) -> Result<KeeperMem, NoMemory> {
    let alloc = rt.alloc();
    let fails = failing(alloc, failing_call)?;
    let script = script_of(alloc, lines)?;
    let keeper = KeeperMem::new(alloc, Tables::new(alloc), fails);
    Ok(keeper_behind(rt, alloc, script, keeper))
}

/// What a script is answered on a keeper.
fn told_on(alloc: Global, script: Setting, keeper: KeeperMem) -> Wrote {
    let (wrote, _) = call_on(alloc, script, keeper);
    wrote
}

/// What a script is answered on what another one leaves.
fn told_behind(
    rt: &(impl Abort + AllocGlobal),
    failing_call: u64,
    first: &str,
    then: &str,
) -> Result<Wrote, NoMemory> {
    let alloc = rt.alloc();
    let script = script_of(alloc, then)?;
    let keeper = left_by(rt, failing_call, first)?;
    Ok(told_on(alloc, script, keeper))
}

/// What is shown, the call of the keeper that fails, or 0, a script, one that follows on its tables, and the answers to
/// this one.
type Reopened = (&'static str, u64, &'static str, &'static str, &'static str);

const CLICKED: &str = "100 account secret01;100 campaign 1 secret01 1000;\
    100 line 1 secret01 1 50 http://s.example/ shoes | Shoes;100 search - shoes;100 search - shoes;\
    100 search - shoes;1899 click 1;1899 click 1;1900 click 2;1900 credit 1;";

/// Two days of two accounts: lines and negatives, pages, clicks, a credit, placements that expire, and edits of each
/// kind.
const DAYS: &str =
    "100 account secret01;100 account secret02;100 campaign 1 secret01 1000;100 campaign 2 secret02 70;\
    100 campaign 1 secret01 30;100 line 1 secret01 1 50 http://s.example/ shoes | Shoes;\
    100 line 2 secret02 1 60 http://t.example/ \"red shoes\" | Red;\
    100 line 1 secret01 2 9 http://u.example/ [boots] | Boots;100 quality 2 1 30;100 negative 2 secret02 1 cheap;\
    100 negative 1 secret01 1 old;110 search - red shoes;120 search - cheap red shoes;130 search 1 boots;140 click 1;\
    150 click 4;160 credit 1;170 drop 1 secret01 1;180 bid 1 secret01 1 70;190 pause 1 secret01 line 2 off;\
    200 suspend 2 on;210 budget 1 secret01 1 2000;86500 search - red shoes;86600 budget 1 secret01 1 900;\
    86700 suspend 2 off;86800 search - red shoes;";

const DAYS_ANSWERED: &str =
    "made 1;made 2;made 1;made 1;made 2;made 1;made 1;made 2;done;made 1;made 1;page 2 | 1 2.1.1 17 #1 | 2 1.1.1 5 #2;\
    page 1 | 1 1.1.1 5 #3;page 1 | 1 1.2.2 5 #4;went http://t.example/;went http://u.example/;credited 17;done;done;\
    done;done;done;page 1 | 1 1.1.1 5 #5;done;done;page 2 | 1 2.1.1 24 #6 | 2 1.1.1 5 #7;";

/// What is asked of a desk behind them.
const THEN: &str =
    "86900 report 1 secret01 0;86900 report 1 secret01 1;86900 report 2 secret02 0;86900 shown 1 secret01 0 1;\
    86900 shown 2 secret02 1 1;86900 host 0;86900 host 1;86900 search - red shoes;86900 click 6;86900 credit 4;\
    86900 line 1 secret01 1 50 http://s.example/ shoes | Again;86900 negative 1 secret01 1 old;";

const THEN_ANSWERED: &str =
    "day 0 | 1 budget 2000 shown 2 clicks 0 spent 0 escrowed 0 free 2000 credited 0 \
    | 2 budget 30 shown 1 clicks 1 spent 5 escrowed 0 free 25 credited 0;\
    day 1 | 1 budget 900 shown 2 clicks 0 spent 0 escrowed 10 free 890 credited 0 \
    | 2 budget 30 shown 0 clicks 0 spent 0 escrowed 0 free 30 credited 0;\
    day 0 | 1 budget 70 shown 1 clicks 1 spent 17 escrowed 0 free 53 credited 17;\
    shown 3 | 2 1 1 2 5 expired | 3 1 1 1 5 expired | 4 2 2 1 5 settled;shown 1 | 6 1 1 1 24 open;\
    host 0 accounts 2 shown 4 clicks 2 spent 22 escrowed 0 credited 17;\
    host 1 accounts 2 shown 3 clicks 0 spent 0 escrowed 34 credited 0;page 1 | 1 1.1.1 5 #8;went http://t.example/;\
    credited 5;refused LineThere 1;made 1;";

const REOPENED: [Reopened; 3] = [
    (
        "placements, of which one is credited",
        0,
        CLICKED,
        "1900 report 1 secret01 0;1900 shown 1 secret01 0 1;1900 host 0;1900 search - shoes;",
        "day 0 | 1 budget 1000 shown 3 clicks 1 spent 5 escrowed 0 free 995 credited 5;\
        shown 3 | 1 1 1 1 5 credited | 2 1 1 1 5 expired | 3 1 1 1 5 expired;\
        host 0 accounts 1 shown 3 clicks 1 spent 5 escrowed 0 credited 5;page 1 | 1 1.1.1 5 #4;",
    ),
    (
        "a keeper that failed once, at the second search",
        6,
        CLICKED,
        "1900 report 1 secret01 0;1900 shown 1 secret01 0 1;",
        "day 0 | 1 budget 1000 shown 2 clicks 1 spent 5 escrowed 0 free 995 credited 5;\
        shown 2 | 1 1 1 1 5 credited | 2 1 1 1 5 expired;",
    ),
    ("two days of two accounts", 0, DAYS, THEN, THEN_ANSWERED),
];

/// Checks what the script that follows is answered.
fn check_reopened(rt: &(impl Abort + AllocGlobal), reopened: Reopened) -> Result<(), Fail> {
    let (shows, failing_call, first, then, answers) = reopened;
    let answers = lines_of(rt.alloc(), answers)?;
    let wrote = told_behind(rt, failing_call, first, then)?;
    assert_eq!(rt; wrote.output.bytes(), answers.as_slice(), "{shows}");
    assert_eq!(rt; wrote.status, 0, "{shows}");
    Ok(())
}

#[test]
fn a_desk_opened_again_answers_by_the_tables(rt: HostRuntime) -> Result<(), Fail> {
    for reopened in REOPENED {
        check_reopened(&rt, reopened)?;
    }
    Ok(())
}

const GOES_ON: [Script; 1] = [("two days of two accounts", "script", THEN, THEN_ANSWERED)];

#[test]
fn a_desk_that_goes_on_answers_the_same(rt: HostRuntime) -> Result<(), Fail> {
    check_behind(&rt, DAYS, DAYS_ANSWERED, &GOES_ON)
}
