//! Refusals: each call is refused for the first cause that holds.

use super::scripts::{Script, check_opened};
use super::*;

const EDITS: [Script; 9] = [
    (
        "an account",
        "script",
        "100 account secret0;100 account secret0\u{7F};100 account secret\u{E9};100 account secret02;",
        "refused BadField Key;refused BadField Key;refused BadField Key;made 2;",
    ),
    (
        "a quality",
        "script",
        "100 quality 9 9 0;100 quality 1 9 0;100 quality 1 1 0;100 quality 1 1 101;100 quality 1 1 100;\
        100 quality 1 1 1;",
        "refused NoAccount;refused NoLine;refused BadField Quality;refused BadField Quality;done;done;",
    ),
    (
        "a suspension",
        "script",
        "100 suspend 0 on;100 suspend 2 off;100 suspend 1 off;",
        "refused NoAccount;refused NoAccount;done;",
    ),
    (
        "a campaign",
        "script",
        "100 campaign 9 wrongkey 0;100 campaign 1 wrongkey 0;100 campaign 1 secret01 0;\
        100 campaign 1 secret01 1000000000001;100 campaign 1 secret01 1000000000000;100 campaign 1 secret01 1;",
        "refused NoAccount;refused BadKey;refused BadField Budget;refused BadField Budget;made 2;made 3;",
    ),
    (
        "a budget",
        "script",
        "100 search - shoes;100 budget 9 wrongkey 9 0;100 budget 1 wrongkey 9 0;100 budget 1 secret01 9 0;\
        100 budget 1 secret01 1 0;100 budget 1 secret01 1 1000000000001;100 budget 1 secret01 1 4;\
        100 budget 1 secret01 1 5;100 budget 1 secret01 1 1000000000000;",
        "page 1 | 1 1.1.1 5 #1;refused NoAccount;refused BadKey;refused NoCampaign;refused BadField Budget;\
        refused BadField Budget;refused BudgetBelowUsed 5;done;done;",
    ),
    (
        "a line",
        "script",
        "100 line 9 wrongkey 9 0 s.example - | \u{7F};100 line 1 wrongkey 9 0 s.example - | \u{7F};\
        100 line 1 secret01 9 0 s.example - | \u{7F};100 line 1 secret01 1 0 s.example - | \u{7F};\
        100 line 1 secret01 1 1000001 s.example - | \u{7F};100 line 1 secret01 1 1000000 s.example - | \u{7F};\
        100 line 1 secret01 1 1 s.example [shoes | \u{7F};100 line 1 secret01 1 1 s.example [] | \u{7F};\
        100 line 1 secret01 1 1 s.example a b c d e f g h i j k | \u{7F};\
        100 line 1 secret01 1 1 s.example SHOES | \u{7F};100 line 1 secret01 1 1 s.example SHOES | B;\
        100 line 1 secret01 1 1 http://s.example/ SHOES | B;100 line 1 secret01 1 1 http://s.example/ [shoes] | B;\
        100 line 1 secret01 1 1 https://s.example/ \"shoes\" | B;",
        "refused NoAccount;refused BadKey;refused NoCampaign;refused BadField Bid;refused BadField Bid;\
        refused BadPattern Minus;refused BadPattern Unclosed;refused BadPattern NoWords;refused BadPattern TooMany;\
        refused BadField Headline;refused BadField Link;refused LineThere 1;made 2;made 3;",
    ),
    (
        "a bid",
        "script",
        "100 bid 9 wrongkey 9 0;100 bid 1 wrongkey 9 0;100 bid 1 secret01 9 0;100 bid 1 secret01 1 0;\
        100 bid 1 secret01 1 1000001;100 bid 1 secret01 1 1000000;100 bid 1 secret01 1 1;",
        "refused NoAccount;refused BadKey;refused NoLine;refused BadField Bid;refused BadField Bid;done;done;",
    ),
    (
        "a pause",
        "script",
        "100 pause 9 wrongkey campaign 9 on;100 pause 1 wrongkey campaign 9 on;100 pause 1 secret01 campaign 9 on;\
        100 pause 9 wrongkey line 9 on;100 pause 1 wrongkey line 9 on;100 pause 1 secret01 line 9 on;\
        100 pause 1 secret01 campaign 1 on;100 pause 1 secret01 line 1 on;",
        "refused NoAccount;refused BadKey;refused NoCampaign;refused NoAccount;refused BadKey;refused NoLine;\
        done;done;",
    ),
    (
        "a negative",
        "script",
        "100 negative 9 wrongkey 9 [a;100 negative 1 wrongkey 9 [a;100 negative 1 secret01 9 [a;\
        100 negative 1 secret01 1 [a;100 negative 1 secret01 1 --a;100 negative 1 secret01 1 -free;\
        100 negative 1 secret01 1 FREE;100 negative 1 secret01 1 [free];100 drop 9 wrongkey 9;100 drop 1 wrongkey 9;\
        100 drop 1 secret01 9;100 drop 1 secret01 1;100 drop 1 secret01 1;100 negative 1 secret01 1 free;",
        "refused NoAccount;refused BadKey;refused NoCampaign;refused BadPattern Unclosed;refused BadPattern Minus;\
        made 1;refused NegativeThere 1;made 2;refused NoAccount;refused BadKey;refused NoNegative;done;\
        refused NoNegative;made 1;",
    ),
];

#[test]
fn an_edit_is_refused_for_the_first_cause(rt: HostRuntime) -> Result<(), Fail> {
    check_opened(&rt, &EDITS)
}

const OTHERS: [Script; 5] = [
    (
        "a report",
        "script",
        "100 report 9 wrongkey 2932897;100 report 1 wrongkey 2932897;100 report 1 secret01 2932897;\
        100 report 1 secret01 2932896;",
        "refused NoAccount;refused BadKey;refused BadField Day;\
        day 2932896 | 1 budget 1000 shown 0 clicks 0 spent 0 escrowed 0 free 1000 credited 0;",
    ),
    (
        "a statement",
        "script",
        "100 shown 9 wrongkey 2932897 1;100 shown 1 wrongkey 2932897 1;100 shown 1 secret01 2932897 1;\
        100 shown 1 secret01 2932896 1;",
        "refused NoAccount;refused BadKey;refused BadField Day;shown 0;",
    ),
    (
        "a report of the host",
        "script",
        "100 host 2932897;100 host 2932896;",
        "refused BadField Day;host 2932896 accounts 1 shown 0 clicks 0 spent 0 escrowed 0 credited 0;",
    ),
    (
        "a search",
        "script",
        "100 search 0 1 2 3 4 5 6 7 8 9 10 11 12 13 14 15 16 17 18 19 20 21 22 23 24 25 26 27 28 29 30 31 32 33;\
        100 search 0 1 2 3 4 5 6 7 8 9 10 11 12 13 14 15 16 17 18 19 20 21 22 23 24 25 26 27 28 29 30 31 32;\
        100 search 9 shoes;100 search 8 boots;\
        100 search 1 1 2 3 4 5 6 7 8 9 10 11 12 13 14 15 16 17 18 19 20 21 22 23 24 25 26 27 28 29 30 31 shoes;",
        "refused QueryTooMany 33;refused BadField Places;refused BadField Places;page 0;page 1 | 1 1.1.1 5 #1;",
    ),
    (
        "a click and a credit",
        "script",
        "100 click 0;100 click 1;100 credit 0;100 credit 1;100 search - shoes;100 credit 1;100 click 1;100 credit 1;",
        "refused NoPlacement;refused NoPlacement;refused NoPlacement;refused NoPlacement;page 1 | 1 1.1.1 5 #1;\
        refused NotSettled;went http://s.example/;credited 5;",
    ),
];

#[test]
fn another_call_is_refused_for_the_first_cause(rt: HostRuntime) -> Result<(), Fail> {
    check_opened(&rt, &OTHERS)
}

/// A line in no form ends a script.
const ENDS: [Case; 1] = [(
    "a line in no form, behind refusals",
    "script",
    "100 account secret01;100 campaign 1 secret01 1000;100 line 1 secret01 1 50 http://s.example/ shoes | Shoes;\
    100 campaign 7 secret01 0;100 campaign 1 wrongkey 0;100 campaign 1 secret01 0;\
    100 line 1 secret01 1 50 http://s.example/ shoes | Shoes;100 nothing;100 host 0;",
    (4_096, 0, 0),
    8,
    "made 1;made 1;made 1;refused NoAccount;refused BadKey;refused BadField Budget;refused LineThere 1;bad line 8;",
)];

#[test]
fn a_line_in_no_form_ends_a_script(rt: HostRuntime) -> Result<(), Fail> {
    check_each(&rt, &ENDS)
}
