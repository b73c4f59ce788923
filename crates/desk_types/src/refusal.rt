//! Why a call is refused.

ghost use Rattle.std.specs.Prelude.{◌≡◌};
ghost use Rattle.desk_types.specs.Refusal.{number_of, name_of, detail_of, field_name};

use match_types::PatternCause;
use query_words::{NoMemory, Twin};

/// Why a call is refused. Each has a number and a name, and some a detail.
#[derive(Clone, Copy, Debug, PartialEq, Eq)]
pub enum Refusal {
    /// 1: the key is not the account's.
    BadKey,
    /// 2: there is no such account.
    NoAccount,
    /// 3: the account has no such campaign.
    NoCampaign,
    /// 4: the account has no such line.
    NoLine,
    /// 5: the account has no such negative, or it was dropped.
    NoNegative,
    /// 6: there is no such placement.
    NoPlacement,
    /// 7: this field is out of its range or form.
    BadField(Field),
    /// 8: the text is no pattern, for this cause.
    BadPattern(PatternCause),
    /// 9: the campaign has a line of the same pattern, of this number.
    LineThere(u64),
    /// 10: the campaign has a live negative of the same pattern, of this number.
    NegativeThere(u64),
    /// 11: the budget is below what is spent and escrowed of today's, which is this many cents.
    BudgetBelowUsed(u64),
    /// 12: the placement was not clicked in time, so that there is nothing to credit.
    NotSettled,
    /// 13: there are as many accounts as there may be.
    AccountsFull,
    /// 14: the account has as many campaigns as it may have.
    CampaignsFull,
    /// 15: the account has as many lines as it may have.
    LinesFull,
    /// 16: the account has as many negatives as it may have.
    NegativesFull,
    /// 17: there would be more placements than there may be.
    PlacementsFull,
    /// 18: the query has this many bytes, which is too many.
    QueryTooLong(u64),
    /// 19: the query has this many words, which is too many.
    QueryTooMany(u64),
    /// 20: this row of an import, from 1, would be refused behind those before it, with the refusal of this number.
    BadRow(u64, u64),
}

/// A field of a call.
#[derive(Clone, Copy, Debug, PartialEq, Eq)]
pub enum Field {
    /// The key of a new account: 8 to 64 visible ASCII bytes.
    Key,
    /// The quality of a line: 1 to 100.
    Quality,
    /// The day of a report: 0 to 2,932,896.
    Day,
    /// The daily budget of a campaign: 1 to 1,000,000,000,000 cents.
    Budget,
    /// The bid of a line: 1 to 1,000,000 cents.
    Bid,
    /// The headline of a line: 1 to 90 bytes without control characters of ASCII.
    Headline,
    /// The link of a line: 1 to 512 visible ASCII bytes that begin with `http://` or `https://`.
    Link,
    /// The number of a batch: 1 to 1,000,000,000,000.
    Batch,
    /// The rows of an import: 1 to 1,000.
    Rows,
    /// The places of a page: 1 to 8.
    Places,
}

/// What a refusal tells beside its name.
#[derive(Clone, Copy, Debug, PartialEq, Eq)]
pub enum Detail {
    /// Nothing.
    Nothing,
    /// The field.
    Field(Field),
    /// The cause for which a text is no pattern.
    Cause(PatternCause),
    /// The number of the line or the negative that is there, the cents that are used, or the bytes or words of the query.
    Number(u64),
    /// The row of an import, from 1, and the number of its refusal.
    Row(u64, u64),
}

impl Refusal {
    /// Its number.
    pub fn number(&self) -> u64
        ensures { result ≡ number_of self.now }
    {
        match self {
            Refusal::BadKey => 1,
            Refusal::NoAccount => 2,
            Refusal::NoCampaign => 3,
            Refusal::NoLine => 4,
            Refusal::NoNegative => 5,
            Refusal::NoPlacement => 6,
            Refusal::BadField(_) => 7,
            Refusal::BadPattern(_) => 8,
            Refusal::LineThere(_) => 9,
            Refusal::NegativeThere(_) => 10,
            Refusal::BudgetBelowUsed(_) => 11,
            Refusal::NotSettled => 12,
            Refusal::AccountsFull => 13,
            Refusal::CampaignsFull => 14,
            Refusal::LinesFull => 15,
            Refusal::NegativesFull => 16,
            Refusal::PlacementsFull => 17,
            Refusal::QueryTooLong(_) => 18,
            Refusal::QueryTooMany(_) => 19,
            Refusal::BadRow(_, _) => 20,
        }
    }

    /// Its name.
    pub fn name(&self) -> &'static str
        ensures { result.now ≡ name_of self.now }
    {
        match self {
            Refusal::BadKey => "BadKey",
            Refusal::NoAccount => "NoAccount",
            Refusal::NoCampaign => "NoCampaign",
            Refusal::NoLine => "NoLine",
            Refusal::NoNegative => "NoNegative",
            Refusal::NoPlacement => "NoPlacement",
            Refusal::BadField(_) => "BadField",
            Refusal::BadPattern(_) => "BadPattern",
            Refusal::LineThere(_) => "LineThere",
            Refusal::NegativeThere(_) => "NegativeThere",
            Refusal::BudgetBelowUsed(_) => "BudgetBelowUsed",
            Refusal::NotSettled => "NotSettled",
            Refusal::AccountsFull => "AccountsFull",
            Refusal::CampaignsFull => "CampaignsFull",
            Refusal::LinesFull => "LinesFull",
            Refusal::NegativesFull => "NegativesFull",
            Refusal::PlacementsFull => "PlacementsFull",
            Refusal::QueryTooLong(_) => "QueryTooLong",
            Refusal::QueryTooMany(_) => "QueryTooMany",
            Refusal::BadRow(_, _) => "BadRow",
        }
    }

    /// What it tells beside its name.
    pub fn detail(&self) -> Detail
        ensures { result ≡ detail_of self.now }
    {
        match *self {
            Refusal::BadField(field) => Detail::Field(field),
            Refusal::BadPattern(cause) => Detail::Cause(cause),
            Refusal::LineThere(number)
            | Refusal::NegativeThere(number)
            | Refusal::BudgetBelowUsed(number)
            | Refusal::QueryTooLong(number)
            | Refusal::QueryTooMany(number) => Detail::Number(number),
            Refusal::BadRow(row, cause) => Detail::Row(row, cause),
            _ => Detail::Nothing,
        }
    }
}

impl Field {
    /// Its name.
    pub fn name(&self) -> &'static str
        ensures { result.now ≡ field_name self.now }
    {
        match self {
            Field::Key => "Key",
            Field::Quality => "Quality",
            Field::Day => "Day",
            Field::Budget => "Budget",
            Field::Bid => "Bid",
            Field::Headline => "Headline",
            Field::Link => "Link",
            Field::Batch => "Batch",
            Field::Rows => "Rows",
            Field::Places => "Places",
        }
    }
}

impl Twin for Refusal {
    fn twin(&self) -> Result<Self, NoMemory> {
        Ok(*self)
    }
}
