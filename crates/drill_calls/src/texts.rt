//! The texts of a drill.

ghost use Rattle.std.specs.Prelude.{◌≡◌, ◌<◌, codes, string_bytes, IfOk};
ghost use Rattle.drill_calls.specs.DrillTexts.{drill_key, drill_headline, drill_link, drill_word, drill_pattern, two_words};

use query_words::{NoMemory, Text};
use std::alloc::Global;

/// The word of this number.
#[tactic(auto, unfolding(crate::specs::DrillTexts::drill_word))]
pub fn word(number: u64) -> &'static str
    requires { number < 8 }
    ensures { result.now ≡ drill_word number }
{
    match number {
        0 => "red",
        1 => "blue",
        2 => "tennis",
        3 => "running",
        4 => "cheap",
        5 => "kids",
        6 => "size",
        _ => "sale",
    }
}

/// The key of an account.
pub fn key(alloc: Global, account: u64) -> Result<Text, NoMemory>
    ensures { IfOk result (λ text. text ≡ drill_key account) }
{
    owned(alloc, format!(in alloc; "drillkey{account}")?)
}

/// The headline of a line.
pub fn headline(alloc: Global, account: u64, line: u64) -> Result<Text, NoMemory>
    ensures { IfOk result (λ text. text ≡ drill_headline account line) }
{
    owned(alloc, format!(in alloc; "Ad {account} {line}")?)
}

/// The link of a line.
pub fn link(alloc: Global, account: u64, line: u64) -> Result<Text, NoMemory>
    ensures { IfOk result (λ text. text ≡ drill_link account line) }
{
    owned(
        alloc,
        format!(in alloc; "http://drill.example/{account}/{line}")?,
    )
}

/// The pattern of two words, in the marks of a kind: 0 exact, 1 phrase, 2 broad.
pub fn pattern(alloc: Global, kind: u64, first: u64, second: u64) -> Result<Text, NoMemory>
    requires first { first < 8 }
    requires second { second < 8 }
    ensures { IfOk result (λ text. text ≡ drill_pattern kind first second) }
{
    let first = word(first);
    let second = word(second);
    match kind {
        0 => owned(alloc, format!(in alloc; "[{first} {second}]")?),
        1 => owned(alloc, format!(in alloc; "\"{first} {second}\"")?),
        _ => owned(alloc, format!(in alloc; "{first} {second}")?),
    }
}

/// The query of two words and shoes.
pub fn query(alloc: Global, first: u64, second: u64) -> Result<Text, NoMemory>
    requires first { first < 8 }
    requires second { second < 8 }
    ensures { IfOk result (λ text. text ≡ two_words first second (codes " shoes")) }
{
    let first = word(first);
    let second = word(second);
    owned(alloc, format!(in alloc; "{first} {second} shoes")?)
}

/// The text of a string.
fn owned(alloc: Global, text: String) -> Result<Text, NoMemory>
    ensures { IfOk result (λ made. made ≡ string_bytes text) }
{
    Text::new(alloc, text.as_str())
}
