//! Whole scripts: pages and prices, fates and days, budgets, reports and statements.

use super::*;

/// What a script shows, the words of the call, the lines of the script, and their answers; lines end with semicolons.
pub(super) type Script = (&'static str, &'static str, &'static str, &'static str);

/// An account, a campaign with a budget of 1,000 cents a day, and a line with a bid of 50 for `shoes`; and their
/// answers.
pub(super) const OPENING: &str = "100 account secret01;100 campaign 1 secret01 1000;\
    100 line 1 secret01 1 50 http://s.example/ shoes | Shoes;";

pub(super) const OPENED: &str = "made 1;made 1;made 1;";

/// Checks what scripts are answered, each of which begins with these lines and is then answered so.
pub(super) fn check_behind(
    rt: &(impl Abort + AllocGlobal),
    opening: &str,
    opened: &str,
    scripts: &[Script],
) -> Result<(), Fail> {
    let alloc = rt.alloc();
    for (shows, words, lines, answers) in scripts {
        let input = format!(in alloc; "{opening}{lines}")?;
        let output = format!(in alloc; "{opened}{answers}")?;
        check_script(rt, shows, words, &input, &output)?;
    }
    Ok(())
}

/// Checks what a script is answered, of which every line is in its form.
pub(super) fn check_script(
    rt: &(impl Abort + AllocGlobal),
    shows: &str,
    words: &str,
    input: &str,
    output: &str,
) -> Result<(), Fail> {
    let alloc = rt.alloc();
    let input = lines_of(alloc, input)?;
    let output = lines_of(alloc, output)?;
    let wrote = call(alloc, words, input.as_slice(), in_pieces(4_096))?;
    assert_eq!(rt; wrote.output.bytes(), output.as_slice(), "{shows}");
    assert_eq!(rt; wrote.status, 0, "{shows}");
    Ok(())
}

/// Checks what scripts are answered behind the opening.
pub(super) fn check_opened(
    rt: &(impl Abort + AllocGlobal),
    scripts: &[Script],
) -> Result<(), Fail> {
    check_behind(rt, OPENING, OPENED, scripts)
}

const DAYS: [Script; 10] = [
    (
        "a click settles in the last second of the window, and is credited once",
        "script",
        "100 search - shoes;100 search - shoes;100 search - shoes;1899 click 1;1899 click 1;1900 click 2;\
        1900 click 9;1900 credit 2;1900 credit 1;1900 credit 1;1900 report 1 secret01 0;50 shown 1 secret01 0 1;",
        "page 1 | 1 1.1.1 5 #1;page 1 | 1 1.1.1 5 #2;page 1 | 1 1.1.1 5 #3;went http://s.example/;\
        went http://s.example/;went http://s.example/;refused NoPlacement;refused NotSettled;credited 5;credited 5;\
        day 0 | 1 budget 1000 shown 3 clicks 1 spent 5 escrowed 0 free 995 credited 5;\
        shown 3 | 1 1 1 1 5 credited | 2 1 1 1 5 expired | 3 1 1 1 5 expired;",
    ),
    (
        "a placement is of the day on which it was shown",
        "script",
        "86390 search - shoes;86405 click 1;86405 report 1 secret01 0;86405 report 1 secret01 1;",
        "page 1 | 1 1.1.1 5 #1;went http://s.example/;\
        day 0 | 1 budget 1000 shown 1 clicks 1 spent 5 escrowed 0 free 995 credited 0;\
        day 1 | 1 budget 1000 shown 0 clicks 0 spent 0 escrowed 0 free 1000 credited 0;",
    ),
    (
        "a day has its first and its last second",
        "script",
        "86399 search - shoes;86400 search - shoes;172799 search - shoes;172800 shown 1 secret01 1 1;\
        172800 shown 1 secret01 0 1;",
        "page 1 | 1 1.1.1 5 #1;page 1 | 1 1.1.1 5 #2;page 1 | 1 1.1.1 5 #3;\
        shown 2 | 2 1 1 1 5 expired | 3 1 1 1 5 open;shown 1 | 1 1 1 1 5 expired;",
    ),
    (
        "a moment above the greatest counts as that",
        "script",
        "253402300799 search - shoes;253402300800 search - shoes;18446744073709551615 click 1;1 host 2932896;\
        1 shown 1 secret01 2932896 1;",
        "page 1 | 1 1.1.1 5 #1;page 1 | 1 1.1.1 5 #2;went http://s.example/;\
        host 2932896 accounts 1 shown 2 clicks 1 spent 5 escrowed 5 credited 0;\
        shown 2 | 1 1 1 1 5 settled | 2 1 1 1 5 open;",
    ),
    (
        "a refused call moves the moment",
        "script",
        "100 search - shoes;1900 click 9;100 shown 1 secret01 0 1;100 click 1;100 report 1 secret01 0;",
        "page 1 | 1 1.1.1 5 #1;refused NoPlacement;shown 1 | 1 1 1 1 5 expired;went http://s.example/;\
        day 0 | 1 budget 1000 shown 1 clicks 0 spent 0 escrowed 0 free 1000 credited 0;",
    ),
    (
        "a budget that is set again counts from today on",
        "script",
        "100 search - shoes;100 budget 1 secret01 1 54;100 search - shoes;100 budget 1 secret01 1 55;\
        100 search - shoes;86400 budget 1 secret01 1 1;86400 report 1 secret01 0;86400 report 1 secret01 2;",
        "page 1 | 1 1.1.1 5 #1;done;page 0;done;page 1 | 1 1.1.1 5 #2;done;\
        day 0 | 1 budget 55 shown 2 clicks 0 spent 0 escrowed 0 free 55 credited 0;\
        day 2 | 1 budget 1 shown 0 clicks 0 spent 0 escrowed 0 free 1 credited 0;",
    ),
    (
        "a campaign has no budget before the day on which it was made",
        "script",
        "86400 campaign 1 secret01 70;86400 report 1 secret01 0;86400 report 1 secret01 1;",
        "made 2;day 0 | 1 budget 1000 shown 0 clicks 0 spent 0 escrowed 0 free 1000 credited 0 \
        | 2 budget 0 shown 0 clicks 0 spent 0 escrowed 0 free 0 credited 0;\
        day 1 | 1 budget 1000 shown 0 clicks 0 spent 0 escrowed 0 free 1000 credited 0 \
        | 2 budget 70 shown 0 clicks 0 spent 0 escrowed 0 free 70 credited 0;",
    ),
    (
        "a statement begins with the placement that is asked for",
        "script",
        "100 shown 1 secret01 0 0;100 search - shoes;110 search - shoes;120 click 2;120 shown 1 secret01 0 0;\
        120 shown 1 secret01 0 2;120 shown 1 secret01 0 3;120 shown 1 secret01 1 1;",
        "shown 0;page 1 | 1 1.1.1 5 #1;page 1 | 1 1.1.1 5 #2;went http://s.example/;\
        shown 2 | 1 1 1 1 5 open | 2 1 1 1 5 settled;shown 1 | 2 1 1 1 5 settled;shown 0;shown 0;",
    ),
    (
        "an advertiser is told of its own account, and the host of all",
        "script",
        "100 account secret02;100 campaign 2 secret02 1000;\
        100 line 2 secret02 1 60 http://t.example/ shoes | Shoes;100 search - shoes;100 click 1;100 credit 1;\
        100 shown 1 secret01 0 1;100 report 1 secret01 0;100 report 2 secret02 0;100 host 0;",
        "made 2;made 1;made 1;page 2 | 1 2.1.1 51 #1 | 2 1.1.1 5 #2;went http://t.example/;credited 51;\
        shown 1 | 2 1 1 2 5 open;day 0 | 1 budget 1000 shown 1 clicks 0 spent 0 escrowed 5 free 995 credited 0;\
        day 0 | 1 budget 1000 shown 1 clicks 1 spent 51 escrowed 0 free 949 credited 51;\
        host 0 accounts 2 shown 2 clicks 1 spent 51 escrowed 5 credited 51;",
    ),
    (
        "a suspended account edits and reads, and its placements are clicked",
        "script",
        "100 search - shoes;100 suspend 1 on;100 search - shoes;100 click 1;100 bid 1 secret01 1 60;\
        100 report 1 secret01 0;",
        "page 1 | 1 1.1.1 5 #1;done;page 0;went http://s.example/;done;\
        day 0 | 1 budget 1000 shown 1 clicks 1 spent 5 escrowed 0 free 995 credited 0;",
    ),
];

#[test]
fn a_desk_keeps_its_days(rt: HostRuntime) -> Result<(), Fail> {
    check_opened(&rt, &DAYS)
}

const PAGES: [Script; 10] = [
    (
        "edits are of quality, account, line and bid",
        "script",
        "100 quality 1 1 101;100 quality 1 1 20;100 suspend 1 on;100 search - shoes;100 suspend 1 off;\
        100 pause 1 secret01 line 1 off;100 search - shoes;100 pause 1 secret01 line 2 on;100 bid 1 secret01 1 0;\
        100 pause 1 secret01 line 1 on;100 pause 1 secret01 campaign 1 off;100 search - shoes;\
        100 pause 1 secret01 campaign 1 on;100 search - shoes;",
        "refused BadField Quality;done;done;page 0;done;done;page 0;refused NoLine;refused BadField Bid;\
        done;done;page 0;done;page 1 | 1 1.1.1 5 #1;",
    ),
    (
        "a negative stands until it is dropped",
        "script",
        "100 negative 1 secret01 1 -\"running shoes\";100 search - red running shoes;100 search - running red shoes;\
        100 drop 1 secret01 1;100 drop 1 secret01 1;100 search - red running shoes;\
        100 negative 1 secret01 1 -\"running shoes\";100 search - red running shoes;",
        "made 1;page 0;page 1 | 1 1.1.1 5 #1;done;refused NoNegative;page 1 | 1 1.1.1 5 #2;made 1;page 0;",
    ),
    (
        "a negative is of its campaign alone",
        "script",
        "100 campaign 1 secret01 1000;100 line 1 secret01 2 40 http://u.example/ shoes | Shoes;\
        100 negative 1 secret01 1 red;100 search - red shoes;100 search - shoes;",
        "made 2;made 2;made 1;page 1 | 1 1.2.2 5 #1;page 1 | 1 1.1.1 5 #2;",
    ),
    (
        "words match exactly, as a phrase and broadly",
        "script",
        "100 line 1 secret01 1 90 http://s.example/ [tennis shoes] | A;\
        100 line 1 secret01 1 80 http://s.example/ \"tennis shoes\" | B;\
        100 line 1 secret01 1 70 http://s.example/ shoes tennis | C;\
        100 search - tennis-shoes!;100 search - Tennis SHOES red;100 search - shoes  tennis;100 search - red shoes;\
        100 search - tennis;",
        "made 2;made 3;made 4;page 1 | 1 1.1.2 5 #1;page 1 | 1 1.1.3 5 #2;page 1 | 1 1.1.4 5 #3;page 1 | 1 1.1.1 5 #4;\
        page 0;",
    ),
    (
        "words match in any case and any composition",
        "script",
        "100 line 1 secret01 1 50 http://s.example/ [cafe\u{301} stra\u{DF}e] | A;100 search - CAF\u{C9} STRASSE;\
        100 search - cafe strasse;",
        "made 2;page 1 | 1 1.1.2 5 #1;page 0;",
    ),
    (
        "of two equal scores the higher quality wins",
        "script",
        "100 account secret02;100 campaign 2 secret02 1000;100 line 2 secret02 1 25 http://t.example/ shoes | B;\
        100 quality 2 1 20;100 search - shoes;100 bid 2 secret02 1 24;100 search - shoes;",
        "made 2;made 1;made 1;done;page 2 | 1 2.1.1 25 #1 | 2 1.1.1 5 #2;done;\
        page 2 | 1 1.1.1 49 #3 | 2 2.1.1 5 #4;",
    ),
    (
        "of two equal ads the smaller number wins",
        "script",
        "100 account secret02;100 campaign 2 secret02 1000;100 line 2 secret02 1 50 http://t.example/ shoes | B;\
        100 search - shoes;100 bid 2 secret02 1 51;100 search - shoes;",
        "made 2;made 1;made 1;page 2 | 1 1.1.1 50 #1 | 2 2.1.1 5 #2;done;page 2 | 1 2.1.1 51 #3 | 2 1.1.1 5 #4;",
    ),
    (
        "a page has the places that are asked for, one of each account",
        "script",
        "100 line 1 secret01 1 90 http://s.example/ red | A;100 account secret02;100 account secret03;\
        100 campaign 2 secret02 1000;100 campaign 3 secret03 1000;\
        100 line 2 secret02 1 80 http://t.example/ shoes | B;100 line 3 secret03 1 60 http://u.example/ shoes | C;\
        100 search - red shoes;100 search 1 shoes;100 search 2 red shoes;100 search 8 red;",
        "made 2;made 2;made 3;made 1;made 1;made 1;made 1;\
        page 3 | 1 1.1.2 80 #1 | 2 2.1.1 60 #2 | 3 3.1.1 5 #3;page 1 | 1 2.1.1 60 #4;\
        page 2 | 1 1.1.2 80 #5 | 2 2.1.1 60 #6;page 1 | 1 1.1.2 5 #7;",
    ),
    (
        "a usual page has the places that the words say",
        "script --places 1",
        "100 account secret02;100 campaign 2 secret02 1000;100 line 2 secret02 1 60 http://t.example/ shoes | B;\
        100 search - shoes;100 search 2 shoes;",
        "made 2;made 1;made 1;page 1 | 1 2.1.1 51 #1;page 2 | 1 2.1.1 51 #2 | 2 1.1.1 5 #3;",
    ),
    (
        "a line without money leaves its place to the account's next",
        "script",
        "100 campaign 1 secret01 9;100 line 1 secret01 2 9 http://u.example/ [shoes] | B;\
        100 budget 1 secret01 1 54;100 search - shoes;100 search - shoes;100 search - shoes;1900 search - shoes;",
        "made 2;made 2;done;page 1 | 1 1.1.1 5 #1;page 1 | 1 1.2.2 5 #2;page 0;page 1 | 1 1.1.1 5 #3;",
    ),
];

#[test]
fn the_best_lines_have_the_places(rt: HostRuntime) -> Result<(), Fail> {
    check_opened(&rt, &PAGES)
}

const MONEY: [Script; 9] = [
    (
        "an account with a line",
        "script",
        "100 account secret01;100 campaign 1 secret01 50;\
        100 line 1 secret01 1 50 http://s.example/ [red shoes] | Shoes;100 search - red shoes;100 click 1;\
        100 search - red shoes;100 search - shoes;100 host 0;",
        "made 1;made 1;made 1;page 1 | 1 1.1.1 5 #1;went http://s.example/;page 0;page 0;\
        host 0 accounts 1 shown 1 clicks 1 spent 5 escrowed 0 credited 0;",
    ),
    (
        "a line is eligible while its bid is free",
        "script",
        "100 account secret01;100 campaign 1 secret01 50;100 line 1 secret01 1 50 http://s.example/ shoes | Shoes;\
        100 search - red shoes;100 click 1;100 search - shoes;100 search -;",
        "made 1;made 1;made 1;page 1 | 1 1.1.1 5 #1;went http://s.example/;page 0;page 0;",
    ),
    (
        "a price is escrowed until its deadline",
        "script",
        "100 account secret01;100 campaign 1 secret01 12;100 line 1 secret01 1 7 http://s.example/ shoes | Shoes;\
        100 search - shoes;100 search - shoes;1899 search - shoes;1899 click 1;1900 click 2;1900 search - shoes;\
        1900 search - shoes;100 search - shoes;",
        "made 1;made 1;made 1;page 1 | 1 1.1.1 5 #1;page 1 | 1 1.1.1 5 #2;page 0;went http://s.example/;\
        went http://s.example/;page 1 | 1 1.1.1 5 #3;page 0;page 0;",
    ),
    (
        "a credit does not free the day's budget",
        "script",
        "100 account secret01;100 campaign 1 secret01 54;100 line 1 secret01 1 50 http://s.example/ shoes | Shoes;\
        100 search - shoes;100 click 1;100 credit 1;100 search - shoes;100 budget 1 secret01 1 4;\
        86400 search - shoes;",
        "made 1;made 1;made 1;page 1 | 1 1.1.1 5 #1;went http://s.example/;credited 5;page 0;\
        refused BudgetBelowUsed 5;page 1 | 1 1.1.1 5 #2;",
    ),
    (
        "a budget is not set below what is used",
        "script --reserve 10",
        "100 account secret01;100 campaign 1 secret01 100;100 line 1 secret01 1 10 http://s.example/ shoes | Shoes;\
        100 search - shoes;100 search - shoes;100 search - shoes;100 search - shoes;100 search - shoes;\
        100 search - shoes;100 search - shoes;100 search - shoes;100 click 1;100 click 2;100 click 3;\
        100 budget 1 secret01 1 79;100 budget 1 secret01 1 80;100 report 1 secret01 0;100 host 0;",
        "made 1;made 1;made 1;page 1 | 1 1.1.1 10 #1;page 1 | 1 1.1.1 10 #2;page 1 | 1 1.1.1 10 #3;\
        page 1 | 1 1.1.1 10 #4;page 1 | 1 1.1.1 10 #5;page 1 | 1 1.1.1 10 #6;page 1 | 1 1.1.1 10 #7;\
        page 1 | 1 1.1.1 10 #8;went http://s.example/;went http://s.example/;went http://s.example/;\
        refused BudgetBelowUsed 80;done;\
        day 0 | 1 budget 80 shown 8 clicks 3 spent 30 escrowed 50 free 0 credited 0;\
        host 0 accounts 1 shown 8 clicks 3 spent 30 escrowed 50 credited 0;",
    ),
    (
        "a new line whose score is the floor competes, with a budget of one cent for one place",
        "script --reserve 1 --floor 10",
        "100 account secret01;100 campaign 1 secret01 1;100 line 1 secret01 1 1 http://s.example/ shoes | Shoes;\
        100 search - shoes;100 search - shoes;100 report 1 secret01 0;",
        "made 1;made 1;made 1;page 1 | 1 1.1.1 1 #1;page 0;\
        day 0 | 1 budget 1 shown 1 clicks 0 spent 0 escrowed 1 free 0 credited 0;",
    ),
    (
        "a new line below the floor does not, and one above pays what meets it",
        "script --reserve=1 --floor=11",
        "100 account secret01;100 campaign 1 secret01 9;100 line 1 secret01 1 1 http://s.example/ shoes | Shoes;\
        100 search - shoes;100 line 1 secret01 1 9 http://s.example/ [shoes] | Shoes;100 search - shoes;",
        "made 1;made 1;made 1;page 0;made 2;page 1 | 1 1.1.2 2 #1;",
    ),
    (
        "the greatest floor is met by the greatest bid and quality",
        "script --floor 100000000",
        "100 account secret01;100 campaign 1 secret01 1000000000000;\
        100 line 1 secret01 1 1000000 http://s.example/ shoes | Shoes;100 search - shoes;100 quality 1 1 100;\
        100 search - shoes;100 report 1 secret01 0;",
        "made 1;made 1;made 1;page 0;done;page 1 | 1 1.1.1 1000000 #1;\
        day 0 | 1 budget 1000000000000 shown 1 clicks 0 spent 0 escrowed 1000000 free 999999000000 credited 0;",
    ),
    (
        "the greatest reserve is met by the greatest bid",
        "script --reserve 1000000",
        "100 account secret01;100 campaign 1 secret01 1999999;\
        100 line 1 secret01 1 999999 http://s.example/ shoes | Shoes;100 search - shoes;100 bid 1 secret01 1 1000000;\
        100 search - shoes;100 search - shoes;",
        "made 1;made 1;made 1;page 0;done;page 1 | 1 1.1.1 1000000 #1;page 0;",
    ),
];

#[test]
fn prices_are_escrowed_and_spent(rt: HostRuntime) -> Result<(), Fail> {
    check_behind(&rt, "", "", &MONEY)
}
