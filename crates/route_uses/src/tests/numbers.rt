//! Digits of numbers, and how many two numbers share.
use crate::tests::samples::same_at;
use digit_route::{Digits, laws};
use region_cut::Profile;
use std::process::Abort;

// The digits, least first, of the desk and of the owner, and how many they share.
#[derive(Drop)]
struct Row {
    digits: Option<Digits>,
    numbers: (u16, u16),
    desk: &'static [u16],
    owner: &'static [u16],
    common: u32,
}

fn check_digit(rt: &impl Abort, digits: Digits, number: u16, at: u32, want: u16) {
    assert_eq!(rt; digits.digit(number, at), want, "digit {at} of {number}");
}

// The number has these digits, least first, and no other.
fn check_number(rt: &impl Abort, digits: Digits, number: u16, want: &[u16]) {
    same_at(
        rt,
        "digits of",
        number,
        u64::from(digits.count()),
        want.len() as u64,
    );
    let mut at = 0u32;
    for digit in want {
        check_digit(rt, digits, number, at, *digit);
        at = at.saturating_add(1);
    }
    check_digit(rt, digits, number, u32::MAX, 0);
}

fn check_common(rt: &impl Abort, digits: Digits, desk: u16, owner: u16, want: u32) {
    assert_eq!(rt; digits.common(desk, owner), want, "{desk} and {owner}");
}

fn check(rt: &impl Abort, row: &Row) {
    let digits = row.digits.expect(rt, "a width of 1 to 6");
    let (desk, owner) = row.numbers;
    check_number(rt, digits, desk, row.desk);
    check_number(rt, digits, owner, row.owner);
    check_common(rt, digits, desk, owner, row.common);
    laws::symmetric(digits, desk, owner);
}

// The laws for all numbers cost nothing to call.
#[test]
fn has_laws(_rt: HostRuntime) {
    laws::shared_both_ways();
    laws::shared_at_most_all();
    laws::shared_by_equals();
    laws::shared_by_others();
    laws::shared_on_the_way();
}

#[test]
fn reads_digits(rt: HostRuntime) {
    let rows = [
        Row {
            digits: Digits::new(2),
            numbers: (0, 27),
            desk: &[0, 0, 0],
            owner: &[3, 2, 1],
            common: 0,
        },
        Row {
            digits: Digits::new(2),
            numbers: (7, 27),
            desk: &[3, 1, 0],
            owner: &[3, 2, 1],
            common: 1,
        },
        Row {
            digits: Digits::new(6),
            numbers: (5, 5),
            desk: &[5],
            owner: &[5],
            common: 1,
        },
        Row {
            digits: Digits::new(4),
            numbers: (17, 33),
            desk: &[1, 1],
            owner: &[1, 2],
            common: 1,
        },
        Row {
            digits: Digits::new(1),
            numbers: (0, 32),
            desk: &[0, 0, 0, 0, 0, 0],
            owner: &[0, 0, 0, 0, 0, 1],
            common: 5,
        },
        Row {
            digits: Digits::new(5),
            numbers: (63, 31),
            desk: &[31, 1],
            owner: &[31, 0],
            common: 1,
        },
        Row {
            digits: Digits::new2(5),
            numbers: (0, 4095),
            desk: &[0, 0, 0],
            owner: &[31, 31, 3],
            common: 0,
        },
        Row {
            digits: Digits::new2(6),
            numbers: (65, 129),
            desk: &[1, 1],
            owner: &[1, 2],
            common: 1,
        },
    ];
    for row in &rows {
        check(&rt, row);
    }
}

// Digits of `width` bits, of which a number has `count`.
fn check_count(rt: &impl Abort, digits: Option<Digits>, width: u32, profile: Profile, count: u32) {
    let digits = digits.expect(rt, "a width of 1 to 6");
    assert_eq!(rt; digits.count(), count, "digits of {width} bits");
    assert_eq!(rt; digits.profile(), profile);
}

#[test]
fn counts_digits(rt: HostRuntime) {
    for (width, pool, pool2) in [
        (1, 6, 12),
        (2, 3, 6),
        (3, 2, 4),
        (4, 2, 3),
        (5, 2, 3),
        (6, 1, 2),
    ] {
        check_count(&rt, Digits::new(width), width, Profile::Pool, pool);
        check_count(&rt, Digits::new2(width), width, Profile::Pool2, pool2);
    }
    for width in [0, 7, u32::MAX] {
        assert!(rt; Digits::new(width).is_none());
        assert!(rt; Digits::new2(width).is_none());
    }
}
