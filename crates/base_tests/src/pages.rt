//! Pages.

use auction_types::Ad;
use rank_core::{Top, page_of};
use std::alloc::{AllocError, Global};

/// An account, a line, a bid and a quality.
type Numbers = (u64, u64, u64, u64);

/// What a row shows, the ads, the places asked for, and of each place the account and the one next below, or 0.
static PAGES: [(&str, &[Numbers], u64, &[(u64, u64)]); 7] = [
    (
        "by score",
        &[(3, 1, 50, 12), (1, 1, 100, 10), (2, 1, 80, 10)],
        2,
        &[(1, 2), (2, 3)],
    ),
    (
        "at one score by quality",
        &[(1, 1, 60, 10), (2, 1, 50, 12)],
        2,
        &[(2, 1), (1, 0)],
    ),
    (
        "at one quality too by account",
        &[(2, 1, 60, 10), (1, 1, 60, 10)],
        2,
        &[(1, 2), (2, 0)],
    ),
    (
        "one ad an account",
        &[(1, 1, 100, 10), (1, 2, 90, 10)],
        4,
        &[(1, 0)],
    ),
    (
        "a better ad of the account",
        &[(1, 1, 50, 10), (2, 1, 60, 10), (1, 2, 70, 10)],
        4,
        &[(1, 2), (2, 0)],
    ),
    ("nobody", &[], 4, &[]),
    (
        "eight places for nine",
        &[
            (9, 1, 10, 10),
            (8, 1, 20, 10),
            (7, 1, 30, 10),
            (6, 1, 40, 10),
            (5, 1, 50, 10),
            (4, 1, 60, 10),
            (3, 1, 70, 10),
            (2, 1, 80, 10),
            (1, 1, 90, 10),
        ],
        8,
        &[
            (1, 2),
            (2, 3),
            (3, 4),
            (4, 5),
            (5, 6),
            (6, 7),
            (7, 8),
            (8, 9),
        ],
    ),
];

#[test]
fn the_page_has_the_best_ad_of_each_account(rt: HostRuntime) {
    for (case, ads, places, wanted) in &PAGES {
        assert!(rt;
            is_page(rt.alloc(), ads, *places, wanted) == Ok(true),
            "{case}"
        );
    }
}

/// Whether the page of the ads has these accounts, each with the one next below, as a list and as ads that are offered.
fn is_page(
    alloc: Global,
    numbers: &[Numbers],
    places: u64,
    wanted: &[(u64, u64)],
) -> Result<bool, AllocError> {
    if places < 1 || places > 8 {
        return Ok(false);
    }
    let mut ads = Vec::new(alloc);
    let mut top = Top::new();
    for numbers in numbers {
        let Some(ad) = ad_of(*numbers) else {
            return Ok(false);
        };
        ads.push(ad)?;
        top.offer(ad);
    }
    let page = page_of(&ads, places);
    if page != top.page(places) || page.len() != wanted.len() {
        return Ok(false);
    }
    Ok(
        page.iter().zip(wanted).all(|(ranked, (account, below))| ranked.ad.account() == *account
            && account_of(ranked.next) == *below),
    )
}

fn ad_of(numbers: Numbers) -> Option<Ad> {
    let (account, line, bid, quality) = numbers;
    Ad::new(account, 1, line, bid, quality)
}

/// The account of an ad, or 0.
fn account_of(ad: Option<Ad>) -> u64 {
    ad.map_or(0, |ad| ad.account())
}
