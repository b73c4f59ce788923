//! The rows of an import.

ghost use Rattle.std.specs.Prelude.{◌≡◌, ◌≢◌, ◌≤◌, ℕ, List, ◌∷◌, Some, Ok, Err, IfOk, IfErr, map};
ghost use Rattle.csv.specs.Reading.{AreRecords, default_config, strip_bom};
ghost use Rattle.csv.specs.Records.{fields_of};
ghost use Rattle.csv.specs.declared.parser.State.TheVariants as st;
ghost use Rattle.csv_import.specs.ImportFile.{Tells, row_of as row_by, rows_from, rows_of};
ghost use Rattle.csv_import.specs.declared.limits.TheConstants.{FILE_ROWS_MAX};

use crate::fault::CsvFault;
use crate::limits::FILE_ROWS_MAX;
use crate::row::{is_heading, row_of};
use csv::{ByteRecord, ReaderBuilder};
use desk_types::ImportRow;
use query_words::List;
use std::alloc::Global;

/// The rows that a file of an import tells, in order: CSV (RFC 4180) whose heading is `campaign,bid,pattern,headline,link`.
/// A leading byte order mark is dropped. The first fault is told; a record past the 1,000th is too many whatever it holds.
pub fn read_rows(alloc: Global, bytes: &[u8]) -> Result<List<ImportRow>, CsvFault>
    ensures rows { IfOk result (λ rows. Tells bytes.now (Ok rows)) }
    ensures fault { IfErr result (λ fault. fault ≢ CsvFault.NoMemory → Tells bytes.now (Err fault)) }
{
    let records = all_records(alloc, bytes)?;
    rows_told(alloc, records.as_slice())
}

/// Every record of a file. Its only fault is want of memory.
fn all_records(alloc: Global, bytes: &[u8]) -> Result<Vec<ByteRecord>, CsvFault>
    ensures all { IfOk result (λ records.
        AreRecords default_config st.StartRecord (strip_bom bytes.now) (map fields_of records.items)) }
    ensures fault { IfErr result (λ fault. fault ≡ CsvFault.NoMemory) }
{
    let reader = ReaderBuilder::new()
        .has_headers(false)
        .flexible(true)
        .from_reader(alloc, bytes);
    let mut records = Vec::new(alloc);
    for read in reader.into_byte_records() {
        let Ok(entry) = read else {
            return Err(CsvFault::NoMemory);
        };
        if records.push(entry).is_err() {
            return Err(CsvFault::NoMemory);
        }
    }
    Ok(records)
}

/// The rows that records tell.
fn rows_told(alloc: Global, records: &[ByteRecord]) -> Result<List<ImportRow>, CsvFault>
    ensures rows { IfOk result (λ rows. rows_of (map fields_of records.now) ≡ Ok rows) }
    ensures fault { IfErr result (λ fault. fault ≢ CsvFault.NoMemory
        → rows_of (map fields_of records.now) ≡ Err fault) }
{
    let Some((first, more)) = records.split_first() else {
        return Err(CsvFault::Heading);
    };
    if !is_heading(first) {
        return Err(CsvFault::Heading);
    }
    rows_behind(alloc, more)
}

/// The rows of the records behind the heading.
fn rows_behind(alloc: Global, records: &[ByteRecord]) -> Result<List<ImportRow>, CsvFault>
    ensures rows { IfOk result (λ rows. rows_from 1 (map fields_of records.now) ≡ Ok rows) }
    ensures fault { IfErr result (λ fault. fault ≢ CsvFault.NoMemory
        → rows_from 1 (map fields_of records.now) ≡ Err fault) }
{
    let mut rows = List::new(alloc);
    let mut place = 1;
    for entry in records {
        let row = row_at(alloc, place, entry)?;
        if rows.push(row).is_err() {
            return Err(CsvFault::NoMemory);
        }
        place += 1;
    }
    Ok(rows)
}

/// The row of the record at a place behind the heading, from 1.
fn row_at(alloc: Global, place: u64, entry: &ByteRecord) -> Result<ImportRow, CsvFault>
    ensures row { IfOk result (λ row. (place ≤ FILE_ROWS_MAX) × (row_by (fields_of entry.now) ≡ Some row)) }
    ensures fault { IfErr result (λ fault. fault ≢ CsvFault.NoMemory → (more : List (List (List ℕ)))
        → rows_from place (fields_of entry.now ∷ more) ≡ Err fault) }
{
    if place > FILE_ROWS_MAX {
        return Err(CsvFault::TooMany);
    }
    match row_of(alloc, entry)? {
        Some(row) => Ok(row),
        None => Err(CsvFault::Row(place)),
    }
}
