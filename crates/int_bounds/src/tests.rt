//! Worked examples, and the bounds of results against those that a brute force found.

use super::*;
use crate::test_rows::{
    LEFT_SHIFTS, PRODUCTS, RIGHT_SHIFTS, UNSIGNED_AT_MOST, UNSIGNED_BELOW, UNSIGNED_RIGHT_SHIFTS,
};
use std::test::*;
use trace_ops::{OpCode, Word};

// The words from one to another, where there are any.
fn words(low: Word, high: Word) -> Interval {
    if low <= high {
        Interval { low, high }
    } else {
        Interval::ALL
    }
}

#[test]
fn adds_bounds(rt: HostRuntime) {
    let sums = transfer(OpCode::IntAdd, &[words(0, 10), words(5, 5)]);
    assert_eq!(rt; sums, words(5, 15));
    let wrapped = transfer(OpCode::IntAddOvf, &[words(0, 1), words(i64::MAX, i64::MAX)]);
    assert_eq!(rt; wrapped, Interval::ALL);
}

#[test]
fn a_comparison_narrows_both_sides(rt: HostRuntime) {
    let pairs = narrow(OpCode::IntLt, true, words(0, 100), words(10, 10));
    assert_eq!(rt; pairs, Some((words(0, 9), words(10, 10))));
    let nothing = narrow(OpCode::IntLt, true, words(20, 30), words(10, 10));
    assert_eq!(rt; nothing, None);
    let failed = narrow(OpCode::IntLt, false, words(0, 100), words(10, 10));
    assert_eq!(rt; failed, Some((words(10, 100), words(10, 10))));
    let differ = narrow(OpCode::IntNe, true, words(0, 9), words(9, 9));
    assert_eq!(rt; differ, Some((words(0, 8), words(9, 9))));
    let equal = narrow(OpCode::IntEq, true, words(0, 9), words(7, 20));
    assert_eq!(rt; equal, Some((words(7, 9), words(7, 9))));
}

#[test]
fn an_unsigned_comparison_bounds_an_index(rt: HostRuntime) {
    let index = narrow(OpCode::UintLt, true, Interval::ALL, words(0, 8));
    assert_eq!(rt; index, Some((words(0, 7), words(1, 8))));
    let unknown = narrow(OpCode::UintLt, false, Interval::ALL, words(0, 8));
    assert_eq!(rt; unknown, Some((Interval::ALL, words(0, 8))));
}

#[test]
fn masks_and_bits_bound_results(rt: HostRuntime) {
    let masked = transfer(OpCode::IntAnd, &[Interval::ALL, words(255, 255)]);
    assert_eq!(rt; masked, words(0, 255));
    let joined = transfer(OpCode::IntOr, &[words(0, 5), words(2, 8)]);
    assert_eq!(rt; joined, words(0, 15));
    let toggled = transfer(OpCode::IntXor, &[words(0, 5), words(2, 7)]);
    assert_eq!(rt; toggled, words(0, 7));
    let raised = transfer(OpCode::IntForceGeZero, &[words(-3, 4)]);
    assert_eq!(rt; raised, words(0, 4));
    let negative = transfer(OpCode::IntIsZero, &[words(-3, -1)]);
    assert_eq!(rt; negative, words(0, 0));
}

#[test]
fn products_lie_between_corners(rt: HostRuntime) {
    for (a, b, c, d, low, high) in PRODUCTS {
        let found = transfer(OpCode::IntMul, &[words(a, b), words(c, d)]);
        assert_eq!(rt; found, words(low, high));
    }
}

#[test]
fn shifts_by_a_known_number_are_exact(rt: HostRuntime) {
    for (a, b, c, d, low, high) in LEFT_SHIFTS {
        let found = transfer(OpCode::IntLshift, &[words(a, b), words(c, d)]);
        assert_eq!(rt; found, words(low, high));
    }
    for (a, b, c, d, low, high) in RIGHT_SHIFTS {
        let found = transfer(OpCode::IntRshift, &[words(a, b), words(c, d)]);
        assert_eq!(rt; found, words(low, high));
    }
    for (a, b, c, d, low, high) in UNSIGNED_RIGHT_SHIFTS {
        let found = transfer(OpCode::UintRshift, &[words(a, b), words(c, d)]);
        assert_eq!(rt; found, words(low, high));
    }
}

#[test]
fn unsigned_comparisons_are_decided_where_they_can_be(rt: HostRuntime) {
    for (a, b, c, d, low, high) in UNSIGNED_BELOW {
        let below = transfer(OpCode::UintLt, &[words(a, b), words(c, d)]);
        assert_eq!(rt; below, words(low, high));
        let above = transfer(OpCode::UintGt, &[words(c, d), words(a, b)]);
        assert_eq!(rt; above, words(low, high));
    }
    for (a, b, c, d, low, high) in UNSIGNED_AT_MOST {
        let at_most = transfer(OpCode::UintLe, &[words(a, b), words(c, d)]);
        assert_eq!(rt; at_most, words(low, high));
        let at_least = transfer(OpCode::UintGe, &[words(c, d), words(a, b)]);
        assert_eq!(rt; at_least, words(low, high));
    }
}

// Sums, differences and products at the edges of words, by whole numbers without bounds.
#[test]
fn overflow_is_told_from_the_bounds(rt: HostRuntime) {
    let near = words(i64::MAX - 10, i64::MAX - 1);
    assert!(rt; overflows_never(OpCode::IntAddOvf, near, words(-5, 1)));
    assert!(rt; !overflows_never(OpCode::IntAddOvf, near, words(-5, 2)));
    let far = words(i64::MIN + 1, 0);
    assert!(rt; overflows_never(OpCode::IntSubOvf, far, words(-5, 1)));
    assert!(rt; !overflows_never(OpCode::IntSubOvf, far, words(-5, 2)));
    let large = words(-3037000499, 3037000499);
    assert!(rt; overflows_never(OpCode::IntMulOvf, large, large));
    assert!(rt; !overflows_never(OpCode::IntMulOvf, large, words(0, 3037000501)));
    assert!(rt; overflows_never(OpCode::IntAdd, near, near));
}
