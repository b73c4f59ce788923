//! The book of tables that are there.

ghost use Rattle.std.specs.Prelude.{◌≡◌, IfOk, OnOk};
ghost use Rattle.accounts.specs.AtHome.{HasOwner, IsAtHome};
ghost use Rattle.accounts.specs.BookValue.{catalogue_rows};
ghost use Rattle.accounts.specs.LoadedTables.{with_accounts, with_budgets, with_campaigns, with_lines, with_negatives};
ghost use Rattle.desk_types.specs.Rules.{AreSound};
ghost use Rattle.desk_types.specs.Tables.{no_rows, put as put_change};

use crate::book::Book;
use desk_types::{Change, Tables};
use query_words::Twin;
use std::alloc::{AllocError, Global};

impl Book {
    /// The book of sound tables: it has all their rows but the placements.
    pub fn load(alloc: Global, tables: &Tables) -> Result<Book, AllocError>
        requires sound { AreSound tables.now }
        ensures { IfOk result (λ book. book.tables ≡ catalogue_rows tables.now) }
    {
        let mut book = Book::new(alloc);
        book.load_accounts(tables)?;
        book.load_campaigns(tables)?;
        book.load_budgets(tables)?;
        book.load_lines(tables)?;
        book.load_negatives(tables)?;
        book.load_batches(tables)?;
        Ok(book)
    }

    /// Puts the accounts of sound tables.
    fn load_accounts(&mut self, tables: &Tables) -> Result<(), AllocError>
        requires sound { AreSound tables.now }
        requires empty { self.old.tables ≡ no_rows }
        ensures { OnOk result (self.new.tables ≡ with_accounts tables.now) }
    {
        for row in tables.accounts.as_slice() {
            self.add(Change::PutAccount(row.twin()?))?;
        }
        Ok(())
    }

    /// Puts their campaigns.
    fn load_campaigns(&mut self, tables: &Tables) -> Result<(), AllocError>
        requires sound { AreSound tables.now }
        requires accounts { self.old.tables ≡ with_accounts tables.now }
        ensures { OnOk result (self.new.tables ≡ with_campaigns tables.now) }
    {
        for row in tables.campaigns.as_slice() {
            self.add(Change::PutCampaign(*row))?;
        }
        Ok(())
    }

    /// Puts their budget settings.
    fn load_budgets(&mut self, tables: &Tables) -> Result<(), AllocError>
        requires sound { AreSound tables.now }
        requires campaigns { self.old.tables ≡ with_campaigns tables.now }
        ensures { OnOk result (self.new.tables ≡ with_budgets tables.now) }
    {
        for row in tables.budgets.as_slice() {
            self.add(Change::PutBudget(*row))?;
        }
        Ok(())
    }

    /// Puts their lines.
    fn load_lines(&mut self, tables: &Tables) -> Result<(), AllocError>
        requires sound { AreSound tables.now }
        requires budgets { self.old.tables ≡ with_budgets tables.now }
        ensures { OnOk result (self.new.tables ≡ with_lines tables.now) }
    {
        for row in tables.lines.as_slice() {
            self.add(Change::PutLine(row.twin()?))?;
        }
        Ok(())
    }

    /// Puts their negatives.
    fn load_negatives(&mut self, tables: &Tables) -> Result<(), AllocError>
        requires sound { AreSound tables.now }
        requires lines { self.old.tables ≡ with_lines tables.now }
        ensures { OnOk result (self.new.tables ≡ with_negatives tables.now) }
    {
        for row in tables.negatives.as_slice() {
            self.add(Change::PutNegative(row.twin()?))?;
        }
        Ok(())
    }

    /// Puts their batches.
    fn load_batches(&mut self, tables: &Tables) -> Result<(), AllocError>
        requires sound { AreSound tables.now }
        requires negatives { self.old.tables ≡ with_negatives tables.now }
        ensures { OnOk result (self.new.tables ≡ catalogue_rows tables.now) }
    {
        for row in tables.batches.as_slice() {
            self.add(Change::PutBatch(*row))?;
        }
        Ok(())
    }

    /// Puts a further row.
    fn add(&mut self, change: Change) -> Result<(), AllocError>
        requires owner { HasOwner self.old.tables change }
        requires at_home { IsAtHome self.old.tables change }
        ensures { OnOk result (self.new.tables ≡ put_change self.old.tables change) }
    {
        self.make_room_for(&change, 1)?;
        self.put(change);
        Ok(())
    }
}
