//! The rules of tables, each broken alone, and two at once.

use desk_keeper::{BadTables, CheckFault, check};
use desk_types::{
    Account, Batch, BudgetSet, Campaign, Fate, Line, LinkText, Negative, Placement, Tables,
};
use match_types::Pattern;
use query_words::{List, NoMemory, Text};
use std::alloc::Global;
use std::process::Abort;
use std::test::Fail;

/// An account's number and its key.
type AccountRow = (u64, &'static str);

/// A line's account, number, campaign, pattern, headline, bid and quality.
type LineRow = (u64, u64, u64, &'static str, &'static str, u64, u64);

/// A negative's account, number, campaign and pattern.
type NegativeRow = (u64, u64, u64, &'static str);

/// The rows of tables.
#[derive(Clone, Copy)]
struct Rows {
    accounts: &'static [AccountRow],
    campaigns: &'static [Campaign],
    budgets: &'static [BudgetSet],
    lines: &'static [LineRow],
    negatives: &'static [NegativeRow],
    placements: &'static [Placement],
    batches: &'static [Batch],
}

/// The rule that is broken first, by its number, its table and its row.
type Bad = (u64, u64, u64);

const CAMPAIGN: Campaign = Campaign {
    account: 1,
    number: 1,
    on: true,
};

const BUDGET: BudgetSet = BudgetSet {
    account: 1,
    campaign: 1,
    at: 50,
    amount: 8,
};

const OTHER_BUDGET: BudgetSet = BudgetSet {
    account: 2,
    ..BUDGET
};

const SHOWN: Placement = Placement {
    number: 1,
    account: 1,
    campaign: 1,
    line: 1,
    place: 1,
    bid: 6,
    price: 5,
    shown: 100,
    deadline: 1_900,
    fate: Fate::Open,
};

const BATCH: Batch = Batch {
    account: 1,
    number: 7,
    first: 1,
    count: 2,
};

const SHOES: LineRow = (1, 1, 1, "shoes", "Shoes", 6, 10);

const BOOTS: LineRow = (1, 2, 1, "[boots]", "Boots", 6, 10);

/// Sound rows.
const SOUND: Rows = Rows {
    accounts: &[(1, "secret01"), (2, "secret02")],
    campaigns: &[
        CAMPAIGN,
        Campaign {
            account: 2,
            ..CAMPAIGN
        },
    ],
    budgets: &[BUDGET, OTHER_BUDGET],
    lines: &[SHOES, BOOTS],
    negatives: &[(1, 1, 1, "old"), (2, 1, 1, "old")],
    placements: &[
        SHOWN,
        Placement {
            number: 2,
            shown: 2_000,
            deadline: 3_800,
            ..SHOWN
        },
    ],
    batches: &[BATCH],
};

/// Rows that stand for the sound ones but for one table, and what is broken.
static BROKEN: [(&str, Rows, Bad); 26] = [
    (
        "two settings of one day",
        Rows {
            budgets: &[BUDGET, BudgetSet { at: 60, ..BUDGET }, OTHER_BUDGET],
            ..SOUND
        },
        (1, 3, 2),
    ),
    (
        "batches out of order",
        Rows {
            batches: &[BATCH, Batch { number: 6, ..BATCH }],
            ..SOUND
        },
        (1, 7, 2),
    ),
    (
        "a short key",
        Rows {
            accounts: &[(1, "short")],
            ..SOUND
        },
        (2, 1, 1),
    ),
    (
        "a budget of nothing",
        Rows {
            budgets: &[
                BudgetSet {
                    amount: 0,
                    ..BUDGET
                },
                OTHER_BUDGET,
            ],
            ..SOUND
        },
        (2, 3, 1),
    ),
    (
        "a moment past the last one",
        Rows {
            budgets: &[
                BudgetSet {
                    at: 253_402_300_800,
                    ..BUDGET
                },
                OTHER_BUDGET,
            ],
            ..SOUND
        },
        (2, 3, 1),
    ),
    (
        "a quality above 100",
        Rows {
            lines: &[SHOES, (1, 2, 1, "[boots]", "Boots", 6, 101)],
            ..SOUND
        },
        (2, 4, 2),
    ),
    (
        "no headline",
        Rows {
            lines: &[(1, 1, 1, "shoes", "", 6, 10)],
            ..SOUND
        },
        (2, 4, 1),
    ),
    (
        "a price above the bid",
        Rows {
            placements: &[Placement { price: 7, ..SHOWN }],
            ..SOUND
        },
        (2, 6, 1),
    ),
    (
        "a ninth place",
        Rows {
            placements: &[Placement { place: 9, ..SHOWN }],
            ..SOUND
        },
        (2, 6, 1),
    ),
    (
        "a batch without lines",
        Rows {
            batches: &[Batch { count: 0, ..BATCH }],
            ..SOUND
        },
        (2, 7, 1),
    ),
    (
        "the second account alone",
        Rows {
            accounts: &[(2, "secret02")],
            ..SOUND
        },
        (3, 1, 1),
    ),
    (
        "a gap between lines",
        Rows {
            lines: &[SHOES, (1, 3, 1, "[boots]", "Boots", 6, 10)],
            ..SOUND
        },
        (3, 4, 2),
    ),
    (
        "a gap between placements",
        Rows {
            placements: &[SHOWN, Placement { number: 3, ..SHOWN }],
            ..SOUND
        },
        (3, 6, 2),
    ),
    (
        "a line of no campaign",
        Rows {
            lines: &[SHOES, (1, 2, 2, "[boots]", "Boots", 6, 10)],
            ..SOUND
        },
        (4, 4, 2),
    ),
    (
        "a placement of another campaign than its line's",
        Rows {
            placements: &[Placement {
                account: 2,
                ..SHOWN
            }],
            ..SOUND
        },
        (4, 6, 1),
    ),
    (
        "a batch with a line that is not there",
        Rows {
            batches: &[Batch { count: 3, ..BATCH }],
            ..SOUND
        },
        (4, 7, 1),
    ),
    (
        "two lines of one pattern",
        Rows {
            lines: &[SHOES, (1, 2, 1, "SHOES", "Again", 6, 10)],
            ..SOUND
        },
        (5, 4, 2),
    ),
    (
        "two negatives of one pattern",
        Rows {
            negatives: &[(1, 1, 1, "old"), (1, 2, 1, "Old")],
            ..SOUND
        },
        (5, 5, 2),
    ),
    (
        "a campaign without a budget",
        Rows {
            budgets: &[BUDGET],
            ..SOUND
        },
        (7, 2, 2),
    ),
    (
        "a placement shown before the one before it",
        Rows {
            placements: &[
                SHOWN,
                Placement {
                    number: 2,
                    shown: 99,
                    deadline: 1_899,
                    ..SHOWN
                },
            ],
            ..SOUND
        },
        (8, 6, 2),
    ),
    (
        "a deadline a second early",
        Rows {
            placements: &[Placement {
                deadline: 1_899,
                ..SHOWN
            }],
            ..SOUND
        },
        (8, 6, 1),
    ),
    (
        "a click at the deadline",
        Rows {
            placements: &[Placement {
                fate: Fate::Settled(1_900),
                ..SHOWN
            }],
            ..SOUND
        },
        (8, 6, 1),
    ),
    (
        "a credit before its click",
        Rows {
            placements: &[Placement {
                fate: Fate::Credited(150, 149),
                ..SHOWN
            }],
            ..SOUND
        },
        (8, 6, 1),
    ),
    (
        "two prices of 5 on a budget of 8",
        Rows {
            placements: &[SHOWN, Placement { number: 2, ..SHOWN }],
            ..SOUND
        },
        (9, 6, 2),
    ),
    (
        "a credited price counts as spent",
        Rows {
            placements: &[
                Placement {
                    fate: Fate::Credited(150, 1_899),
                    ..SHOWN
                },
                Placement { number: 2, ..SHOWN },
            ],
            ..SOUND
        },
        (9, 6, 2),
    ),
    (
        "a key of the first table and a quality of the fourth",
        Rows {
            accounts: &[(1, "secret01"), (3, "secret02")],
            lines: &[(1, 1, 1, "shoes", "Shoes", 6, 0)],
            ..SOUND
        },
        (3, 1, 2),
    ),
];

/// The accounts of these rows.
fn accounts_of(alloc: Global, rows: &[AccountRow]) -> Result<List<Account>, NoMemory> {
    let mut accounts = Vec::new(alloc);
    for (number, key) in rows {
        accounts.push(Account {
            number: *number,
            key: Text::new(alloc, key)?,
            suspended: false,
        })?;
    }
    Ok(List::from_vec(accounts))
}

/// The pattern of a text.
fn pattern_of(alloc: Global, text: &str) -> Result<Pattern, NoMemory> {
    Pattern::read(alloc, text).map_err(|_| NoMemory)
}

/// The lines of these rows.
fn lines_of(alloc: Global, rows: &[LineRow]) -> Result<List<Line>, NoMemory> {
    let mut lines = Vec::new(alloc);
    for (account, number, campaign, pattern, headline, bid, quality) in rows {
        lines.push(Line {
            account: *account,
            number: *number,
            campaign: *campaign,
            pattern: pattern_of(alloc, pattern)?,
            headline: Text::new(alloc, headline)?,
            link: LinkText::read("http://s.example/").ok_or(NoMemory)?,
            bid: *bid,
            quality: *quality,
            on: true,
        })?;
    }
    Ok(List::from_vec(lines))
}

/// The negatives of these rows.
fn negatives_of(alloc: Global, rows: &[NegativeRow]) -> Result<List<Negative>, NoMemory> {
    let mut negatives = Vec::new(alloc);
    for (account, number, campaign, pattern) in rows {
        negatives.push(Negative {
            account: *account,
            number: *number,
            campaign: *campaign,
            pattern: pattern_of(alloc, pattern)?,
            live: true,
        })?;
    }
    Ok(List::from_vec(negatives))
}

/// The tables of these rows.
fn tables_of(alloc: Global, rows: &Rows) -> Result<Tables, NoMemory> {
    Ok(Tables {
        accounts: accounts_of(alloc, rows.accounts)?,
        campaigns: List::from_vec(rows.campaigns.to_vec(alloc)?),
        budgets: List::from_vec(rows.budgets.to_vec(alloc)?),
        lines: lines_of(alloc, rows.lines)?,
        negatives: negatives_of(alloc, rows.negatives)?,
        placements: List::from_vec(rows.placements.to_vec(alloc)?),
        batches: List::from_vec(rows.batches.to_vec(alloc)?),
    })
}

/// Whether tables break this rule first.
fn is_broken(found: Result<(), CheckFault>, (rule, table, row): Bad) -> bool {
    found == Err(CheckFault::Bad(BadTables { rule, table, row }))
}

#[test]
fn the_first_broken_rule_is_found(rt: HostRuntime) -> Result<(), Fail> {
    let alloc = rt.alloc();
    for (shows, rows, bad) in &BROKEN {
        let tables = tables_of(alloc, rows)?;
        assert!(rt; is_broken(check(alloc, &tables), *bad), "{shows}");
    }
    Ok(())
}

/// A credit at the deadline of the second placement, which has then expired.
const CREDITED_LATE: Rows = Rows {
    placements: &[
        Placement {
            fate: Fate::Credited(150, 1_900),
            ..SHOWN
        },
        Placement { number: 2, ..SHOWN },
    ],
    ..SOUND
};

#[test]
fn sound_tables_pass(rt: HostRuntime) -> Result<(), Fail> {
    let alloc = rt.alloc();
    assert!(rt; check(alloc, &tables_of(alloc, &SOUND)?).is_ok());
    assert!(rt; check(alloc, &tables_of(alloc, &CREDITED_LATE)?).is_ok());
    assert!(rt; check(alloc, &Tables::new(alloc)).is_ok());
    Ok(())
}

/// So many accounts.
fn many_accounts(alloc: Global, count: u64) -> Result<Tables, NoMemory> {
    let mut tables = Tables::new(alloc);
    let mut accounts = Vec::new(alloc);
    for number in 1..=count {
        accounts.push(Account {
            number,
            key: Text::new(alloc, "secret01")?,
            suspended: false,
        })?;
    }
    tables.accounts = List::from_vec(accounts);
    Ok(tables)
}

#[test]
fn there_are_1000_accounts_at_most(rt: HostRuntime) -> Result<(), Fail> {
    let alloc = rt.alloc();
    assert!(rt; check(alloc, &many_accounts(alloc, 1_000)?).is_ok());
    assert!(rt; is_broken(check(alloc, &many_accounts(alloc, 1_001)?), (6, 1, 1_001)));
    Ok(())
}
