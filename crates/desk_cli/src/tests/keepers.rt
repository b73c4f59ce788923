//! What becomes of the keeper.

use super::*;
use desk_types::{Account, Outcome};
use query_words::{List, Text};

/// The tables of one account of this number.
fn one_account(alloc: Global, number: u64) -> Result<Tables, NoMemory> {
    let mut accounts = Vec::new(alloc);
    accounts.push(Account {
        number,
        key: Text::new(alloc, "secret01")?,
        suspended: false,
    })?;
    let mut tables = Tables::new(alloc);
    tables.accounts = List::from_vec(accounts);
    Ok(tables)
}

/// Words, an account's number, the call of the keeper and the write that fail, or 0, and the status and what is
/// written.
type Unopened = (&'static str, u64, u64, u64, u8, &'static str);

/// Calls for which no desk is opened.
const UNOPENED: [Unopened; 9] = [
    ("script", 2, 0, 0, 6, "bad tables 3 1 1\n"),
    ("script", 2, 0, 1, 4, ""),
    ("script", 1, 1, 0, 7, "keeper fault\n"),
    ("script", 1, 1, 1, 4, ""),
    ("auction", 2, 1, 0, 8, "bad line 1\n"),
    ("drill 7 1", 2, 0, 0, 6, "bad tables 3 1 1\n"),
    ("drill 7 1", 1, 1, 0, 7, "keeper fault\n"),
    ("run --host-key hostkey1", 2, 0, 0, 6, "bad tables 3 1 1\n"),
    ("drill", 2, 1, 0, 2, "words refused\n"),
];

#[test]
fn a_keeper_on_which_no_desk_is_opened_comes_back(rt: HostRuntime) -> Result<(), Fail> {
    let alloc = rt.alloc();
    for (word, number, failing_call, failing_write, status, output) in UNOPENED {
        let way = faulty(100, 0, failing_write);
        let setting = setting_of(alloc, word, b"100 host 0\n", way)?;
        let fails = failing(alloc, failing_call)?;
        let keeper = KeeperMem::new(alloc, one_account(alloc, number)?, fails);
        let (wrote, served) = call_on(alloc, setting, keeper);
        assert_eq!(rt; wrote.status, status, "{word} {number} {failing_call}");
        assert_eq!(rt;
            wrote.output.bytes(),
            output.as_bytes(),
            "{word} {number} {failing_call}"
        );
        assert!(rt; served.desk.is_none());
        let held = served.keeper.expect(&rt, "no desk is opened");
        assert_eq!(rt; held.tables().accounts.as_slice().len(), 1);
    }
    Ok(())
}

/// A script whose second change fails.
const FAULTED: &[u8] =
    b"100 account secret01\n100 campaign 1 secret01 9\n100 campaign 1 secret01 9\n";

#[test]
fn a_script_goes_on_behind_a_keepers_fault(rt: HostRuntime) -> Result<(), Fail> {
    let alloc = rt.alloc();
    let setting = setting_of(alloc, "script", FAULTED, in_pieces(100))?;
    let fails = failing(alloc, 3)?;
    let keeper = KeeperMem::new(alloc, Tables::new(alloc), fails);
    let (wrote, served) = call_on(alloc, setting, keeper);
    assert_eq!(rt; wrote.status, 0);
    assert_eq!(rt;
        wrote.output.bytes(),
        b"made 1\nfault keeper\nmade 1\n".as_slice()
    );
    assert!(rt; served.keeper.is_none());
    let desk = served.desk.expect(&rt, "a desk is opened");
    assert_eq!(rt; desk.log().len(), 3);
    let failed = Outcome::Faulted {
        before: 0,
        after: 1,
    };
    for (place, entry) in desk.log().iter().enumerate() {
        let wanted = if place == 1 {
            failed
        } else {
            Outcome::Answered
        };
        assert!(rt; entry.outcome == wanted, "{place}");
    }
    Ok(())
}
