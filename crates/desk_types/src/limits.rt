//! The ranges of the numbers and texts that the desk takes, and how many of each thing it holds.

ghost use Rattle.std.specs.Prelude.{◌≡◌};
ghost use Rattle.desk_types.specs.Day.{day_of};

/// The reserve of the usual settings, in cents per click.
pub const RESERVE_USUAL: u64 = 5;

/// The quality of a new line.
pub const QUALITY_NEW: u64 = 10;

/// The places of a page of the usual settings.
pub const PLACES_USUAL: u64 = 4;

/// The most that a journal's number of entries may be set to; the least is one.
pub const JOURNAL_MAX: u64 = 4_000_000;

/// The entries of a journal of the usual settings.
pub const JOURNAL_USUAL: u64 = 1_000_000;

/// The most that the bytes of a journal's texts may be set to, and what the usual settings have; the
/// least is one.
pub const JOURNAL_BYTES_MAX: u64 = 1_000_000_000;

/// The most that the number of placements may be set to; the least is one.
pub const PLACEMENTS_MAX: u64 = 2_000_000;

/// The placements of the usual settings.
pub const PLACEMENTS_USUAL: u64 = 1_000_000;

/// The least daily budget, in cents.
pub const BUDGET_MIN: u64 = 1;

/// The greatest daily budget, in cents.
pub const BUDGET_MAX: u64 = 1_000_000_000_000;

/// The greatest moment, in seconds; a greater one counts as this.
pub const MOMENT_MAX: u64 = 253_402_300_799;

/// The seconds of a day.
pub const DAY_SECONDS: u64 = 86_400;

/// The last day.
pub const DAY_MAX: u64 = 2_932_896;

/// How long a placement can be clicked, in seconds from the moment at which it was shown.
pub const CLICK_WINDOW: u64 = 1_800;

/// The fewest bytes of a key.
pub const KEY_BYTES_MIN: u64 = 8;

/// The most bytes of a key.
pub const KEY_BYTES_MAX: u64 = 64;

/// The most bytes of a headline; the fewest are one.
pub const HEADLINE_BYTES_MAX: u64 = 90;

/// The most bytes of a link; the fewest are one.
pub const LINK_BYTES_MAX: usize = 512;

/// The most accounts.
pub const ACCOUNTS_MAX: u64 = 1_000;

/// The most campaigns of an account.
pub const CAMPAIGNS_MAX: u64 = 64;

/// The most lines of an account.
pub const LINES_MAX: u64 = 1_000;

/// The most negatives of an account, dropped ones among them.
pub const NEGATIVES_MAX: u64 = 500;

/// The greatest number of a batch; the least is one.
pub const BATCH_MAX: u64 = 1_000_000_000_000;

/// The most rows of an import; the fewest are one.
pub const ROWS_MAX: u64 = 1_000;

/// The most placements that a statement has.
pub const STATEMENT_MAX: u64 = 1_000;

/// What a row of an import adds to the bytes of the journal beside its texts.
pub const ROW_WEIGHT: u64 = 128;

/// A law: the limits are these numbers.
pub fn limits_are_these()
    ensures qualities { QUALITY_NEW ≡ 10 }
    ensures budgets { (BUDGET_MIN ≡ 1) × (BUDGET_MAX ≡ 1000000000000) }
    ensures auctions { (RESERVE_USUAL ≡ 5) × (PLACES_USUAL ≡ 4) }
    ensures clicks { CLICK_WINDOW ≡ 1800 }
    ensures moments { MOMENT_MAX ≡ 253402300799 }
    ensures days { (DAY_SECONDS ≡ 86400) × (DAY_MAX ≡ 2932896) × (day_of MOMENT_MAX ≡ DAY_MAX) }
    ensures statements { STATEMENT_MAX ≡ 1000 }
    ensures texts { (KEY_BYTES_MIN ≡ 8) × (KEY_BYTES_MAX ≡ 64) × (HEADLINE_BYTES_MAX ≡ 90) × (LINK_BYTES_MAX ≡ 512) }
    ensures rows { (ACCOUNTS_MAX ≡ 1000) × (CAMPAIGNS_MAX ≡ 64) × (LINES_MAX ≡ 1000) × (NEGATIVES_MAX ≡ 500) }
    ensures imports { (BATCH_MAX ≡ 1000000000000) × (ROWS_MAX ≡ 1000) × (ROW_WEIGHT ≡ 128) }
    ensures placements { (PLACEMENTS_MAX ≡ 2000000) × (PLACEMENTS_USUAL ≡ 1000000) }
    ensures journal_entries { (JOURNAL_MAX ≡ 4000000) × (JOURNAL_USUAL ≡ 1000000) }
    ensures journal_bytes { JOURNAL_BYTES_MAX ≡ 1000000000 }
{}
