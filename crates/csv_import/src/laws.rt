//! What follows of files.

ghost use Rattle.std.specs.Prelude.{◌≡◌, ℕ, List, Result};
ghost use Rattle.csv.specs.Reading.{AreRecords, default_config};
ghost use Rattle.csv.specs.declared.parser.State.TheVariants as st;
ghost use Rattle.desk_types.specs.declared.call.ImportRow.{ImportRow};
ghost use Rattle.csv_import.specs.ImportFile.{Tells};
ghost use Rattle.csv_import.specs.declared.fault.CsvFault.{CsvFault as Fault};

/// A law, with nothing to run: a text has one list of records, and a file tells one thing.
pub fn a_file_tells_one_thing()
    ensures records { (text : List ℕ) (rows others : List (List (List ℕ)))
        → AreRecords default_config st.StartRecord text rows
        → AreRecords default_config st.StartRecord text others → rows ≡ others }
    ensures told { (bytes : List ℕ) (told other : Result (List ImportRow) Fault)
        → Tells bytes told → Tells bytes other → told ≡ other }
{}
