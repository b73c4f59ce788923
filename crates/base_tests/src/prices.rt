//! Prices.

use auction_types::{Ad, better};
use gsp_price::price;

/// An account, a bid and a quality.
type Numbers = (u64, u64, u64);

/// What a row shows, an ad, the one next below it, reserve and floor, and the price.
static PRICES: [(&str, Numbers, Option<Numbers>, u64, u64, u64); 9] = [
    (
        "a tie that is won",
        (1, 100, 10),
        Some((2, 80, 10)),
        5,
        0,
        80,
    ),
    (
        "a tie that would be lost",
        (2, 80, 10),
        Some((3, 50, 12)),
        5,
        0,
        61,
    ),
    (
        "a tie won by the account, at its own bid",
        (1, 60, 10),
        Some((2, 60, 10)),
        5,
        0,
        60,
    ),
    (
        "a tie won by quality, at its own bid",
        (2, 50, 12),
        Some((1, 60, 10)),
        5,
        0,
        50,
    ),
    (
        "the quotient rounded up, quality above",
        (1, 100, 10),
        Some((2, 55, 11)),
        5,
        0,
        61,
    ),
    (
        "the quotient rounded up, quality below",
        (1, 100, 10),
        Some((2, 121, 5)),
        5,
        0,
        61,
    ),
    ("nobody below", (2, 60, 10), None, 5, 0, 5),
    ("the floor", (1, 101, 10), None, 5, 1001, 101),
    (
        "the greatest floor",
        (1, 1_000_000, 100),
        None,
        1,
        100_000_000,
        1_000_000,
    ),
];

#[test]
fn an_ad_pays_the_least_that_keeps_its_place(rt: HostRuntime) {
    for (case, ad, next, reserve, floor, cents) in &PRICES {
        assert!(rt;
            price_of(*ad, *next, *reserve, *floor) == Some(*cents),
            "{case}"
        );
    }
}

fn price_of(ad: Numbers, next: Option<Numbers>, reserve: u64, floor: u64) -> Option<u64> {
    let ad = ad_of(ad)?;
    match next {
        Some(below) => price_above(&ad, &ad_of(below)?, reserve, floor),
        None => price_alone(&ad, reserve, floor),
    }
}

fn ad_of(numbers: Numbers) -> Option<Ad> {
    let (account, bid, quality) = numbers;
    Ad::new(account, 1, 1, bid, quality)
}

fn price_above(ad: &Ad, below: &Ad, reserve: u64, floor: u64) -> Option<u64> {
    if reserve < 1 || reserve > ad.bid() || floor > ad.score() || !better(ad, below) {
        return None;
    }
    Some(price(ad, Some(below), reserve, floor))
}

fn price_alone(ad: &Ad, reserve: u64, floor: u64) -> Option<u64> {
    if reserve < 1 || reserve > ad.bid() || floor > ad.score() {
        return None;
    }
    Some(price(ad, None, reserve, floor))
}
