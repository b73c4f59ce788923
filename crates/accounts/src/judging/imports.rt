//! The judging of imports.

ghost use Rattle.std.specs.Prelude.{◌≡◌, ℕ, ◌==◌, ◌++◌, [], ◌∷◌, None, find, map, IfErr, IfOk, OnOk};
ghost use Rattle.std.specs.Option.{option_copied};
ghost use Rattle.desk_types.specs.declared.call.Call.{Call};
ghost use Rattle.desk_types.specs.declared.tables.Change.{Change as ChangeMade};
ghost use Rattle.desk_types.specs.declared.tables.Tables.{Tables};
ghost use Rattle.desk_types.specs.Asked.{asked_by, line_made, lines_made};
ghost use Rattle.desk_types.specs.Judged.{bad_rows, first, row_refusal};
ghost use Rattle.desk_types.specs.Tables.{batch_of};
ghost use Rattle.accounts.specs.Planned.{IsFirst, IsPlanned, IsStop, in_row, state_on};
ghost use Rattle.accounts.specs.Shelved.{HasShelf, IsBehind};

use crate::book::Book;
use crate::judging::lines::Asked;
use crate::line_table::LineTable;
use crate::plan::{EditFault, Plan, when};
use crate::shelf::Shelf;
use desk_types::limits::{BATCH_MAX, ROWS_MAX};
use desk_types::{Batch, Change, Field, ImportRow, Line, Refusal, Reply};
use query_words::{List, NoMemory, Text};
use std::alloc::Global;

impl Book {
    /// Plans an import: its lines and the batch, or nothing where the batch is there.
    #[tactic(auto, unfolding(desk_types::specs::Judged::refusals, desk_types::specs::Changes::changes, desk_types::specs::Changes::reply))]
    pub(crate) fn plan_import(
        &self,
        account: u64,
        key: &Text,
        batch: u64,
        rows: &[ImportRow],
    ) -> Result<Plan, EditFault>
        ensures planned { (m : ℕ) → IfOk result
            (IsPlanned (state_on self.now.tables m) (Call.Import account key.now batch rows.now)) }
        ensures stopped { (m : ℕ) → IfErr result
            (IsStop (state_on self.now.tables m) (Call.Import account key.now batch rows.now)) }
    {
        let shelf = self.owner(account, key)?;
        when(
            !(1..=BATCH_MAX).contains(&batch),
            Refusal::BadField(Field::Batch),
        )?;
        if let Some(there) = shelf.batch(batch) {
            return Ok(Plan {
                changes: List::new(self.alloc()),
                reply: Reply::Imported {
                    first: there.first,
                    count: there.count,
                },
            });
        }
        let count = rows.len() as u64;
        when(
            !(1..=ROWS_MAX).contains(&count),
            Refusal::BadField(Field::Rows),
        )?;
        let lines = shelf.lines_made(account, rows)?;
        let first = shelf.count_lines() + 1;
        let made = Batch {
            account,
            number: batch,
            first,
            count,
        };
        let changes = put_import(self.alloc(), lines, made)?;
        Ok(Plan {
            changes: List::from_vec(changes),
            reply: Reply::Imported { first, count },
        })
    }
}

impl Shelf {
    /// The batch of a number, if there is one.
    fn batch(&self, number: u64) -> Option<&Batch>
        ensures { (T : Tables) (account : ℕ) → HasShelf T account self.now
            → option_copied result ≡ batch_of T account number }
    {
        batch_like(&self.batches, number)
    }

    /// The lines that the rows of an import make, each judged behind those before it, or why the first row that is refused
    /// is.
    fn lines_made(&self, account: u64, rows: &[ImportRow]) -> Result<Vec<Line>, EditFault>
        ensures lines { IfOk result (λ lines. (T : Tables) → HasShelf T account self.now
            → lines.items ≡ lines_made T account rows.now) }
        ensures passed { OnOk result ((T : Tables) → HasShelf T account self.now
            → first (bad_rows T account 1 rows.now) ≡ None) }
        ensures stopped { IfErr result (λ fault. (T : Tables) → HasShelf T account self.now
            → IsFirst (bad_rows T account 1 rows.now) fault) }
    {
        let mut made = LineTable::new(*self.campaigns.allocator());
        let mut number = 1;
        for row in rows {
            let line = self.row_made(account, &made, number, row)?;
            made.push(line)?;
            number += 1;
        }
        Ok(made.into_rows())
    }

    /// The line that a row of an import makes behind lines that were made before it, or why the row of this number is
    /// refused.
    fn row_made(
        &self,
        account: u64,
        made: &LineTable,
        number: u64,
        row: &ImportRow,
    ) -> Result<Line, EditFault>
        ensures line { IfOk result (λ line. (T : Tables) → IsBehind T account self.now made.now.rows
            → line ≡ line_made T account (asked_by row.now)) }
        ensures passed { OnOk result ((T : Tables) → IsBehind T account self.now made.now.rows
            → row_refusal T account number row.now ≡ None) }
        ensures stopped { IfErr result (λ fault. (T : Tables) → IsBehind T account self.now made.now.rows
            → IsFirst (row_refusal T account number row.now ∷ []) fault) }
    {
        let asked = Asked {
            campaign: row.campaign,
            bid: row.bid,
            pattern: &row.pattern,
            headline: &row.headline,
            link: &row.link,
        };
        match self.line_made(account, made, &asked) {
            Ok(line) => Ok(line),
            Err(fault) => Err(in_row(number, fault)),
        }
    }
}

/// The batch of these of a number, if there is one.
fn batch_like(batches: &[Batch], number: u64) -> Option<&Batch>
    ensures { option_copied result ≡ find (λ b. b.number == number) batches.now }
{
    batches.iter().find(|row| row.number == number)
}

/// Why an import is not made, for why the line of its row of this number is not.
fn in_row(number: u64, fault: EditFault) -> EditFault
    ensures { result ≡ in_row number fault }
{
    match fault {
        EditFault::Refused(cause) => EditFault::Refused(Refusal::BadRow(number, cause.number())),
        EditFault::NoMemory => EditFault::NoMemory,
    }
}

/// The changes that put lines, and then their batch.
fn put_import(alloc: Global, lines: Vec<Line>, batch: Batch) -> Result<Vec<Change>, NoMemory>
    ensures { IfOk result (λ changes.
        changes.items ≡ map (λ l. ChangeMade.PutLine l) lines.items ++ ChangeMade.PutBatch batch ∷ []) }
{
    let mut changes = Vec::new(alloc);
    for line in lines {
        changes.push(Change::PutLine(line))?;
    }
    changes.push(Change::PutBatch(batch))?;
    Ok(changes)
}
