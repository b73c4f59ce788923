//! Why a file of an import is not read.

use query_words::NoMemory as WantOfMemory;
use thiserror::Error;

/// Why a file of an import is not read.
#[derive(Clone, Copy, Debug, PartialEq, Eq, Error)]
pub enum CsvFault {
    /// The first record is not the heading, or there is none.
    #[error("the heading is not campaign,bid,pattern,headline,link")]
    Heading,
    /// The record of this number behind the heading, from 1, is no row: it has not five fields, one of them is not UTF-8, or
    /// its campaign or its bid is no number.
    #[error("row {0} is none")]
    Row(u64),
    /// A record follows the 1,000th behind the heading.
    #[error("there are more than 1,000 rows")]
    TooMany,
    /// Memory was wanted.
    #[error("no memory")]
    NoMemory,
}

impl From<WantOfMemory> for CsvFault {
    ghost use Rattle.std.specs.Prelude.{◌≡◌};
    ghost use Rattle.csv_import.specs.declared.fault.CsvFault.TheVariants.{NoMemory};

    ghost from_gives = { λ _ fault. fault ≡ NoMemory };

    fn from(_: WantOfMemory) -> Self {
        CsvFault::NoMemory
    }
}
