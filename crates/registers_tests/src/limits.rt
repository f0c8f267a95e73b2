// Each limit, on both registers.
use registers::{Buckets, MOST_PAIRS, Pair, Register, Rows, Slot};
use std::alloc::{AllocError, Global};
use std::process::Abort;
use std::test::Fail;

const P: Pair = Pair {
    first: 3,
    second: 5,
};

const Q: Pair = Pair {
    first: 3,
    second: 6,
};

const S: Pair = Pair {
    first: 4,
    second: 5,
};

// Over tables whose old contents would mislead: every place has the pair that is asked for, and links to itself.
fn rows(heap: Global, places: usize) -> Result<Rows, AllocError> {
    Ok(Rows::over(vec![in heap; P; places]?))
}

fn buckets(heap: Global, places: usize, buckets: usize) -> Result<Buckets, AllocError> {
    Ok(Buckets::over(
        vec![in heap; Slot { pair: P, next: 1 }; places]?,
        vec![in heap; 1; buckets]?,
    ))
}

fn without_places<R: Register>(rt: &impl Abort, register: &mut R) {
    assert_eq!(rt; register.capacity(), 0);
    assert_eq!(rt; register.number_if_held(P), None);
    assert_eq!(rt; register.number(P), None);
    assert_eq!(rt; register.count(), 0);
    assert_eq!(rt; register.pair_at(1), None);
}

fn with_one_place<R: Register>(rt: &impl Abort, register: &mut R) {
    assert_eq!(rt; register.capacity(), 1);
    assert_eq!(rt; register.number_if_held(P), None);
    assert_eq!(rt; register.number(P), Some(1));
    assert_eq!(rt; register.number(P), Some(1), "full, and held");
    assert_eq!(rt; register.number(Q), None, "full, and not held");
    assert_eq!(rt; register.number_if_held(P), Some(1));
    assert_eq!(rt; register.count(), 1);
    assert_eq!(rt; register.pair_at(0), None);
    assert_eq!(rt; register.pair_at(1), Some(P));
    assert_eq!(rt; register.pair_at(2), None);
}

fn with_both_halves<R: Register>(rt: &impl Abort, register: &mut R) {
    assert_eq!(rt; register.number(P), Some(1));
    assert_eq!(rt; register.number(Q), Some(2), "another second half");
    assert_eq!(rt; register.number(S), Some(3), "another first half");
    assert_eq!(rt; register.number(Q), Some(2));
    assert_eq!(rt; register.count(), 3);
}

#[test]
fn no_places(rt: HostRuntime) -> Result<(), Fail> {
    without_places(&rt, &mut rows(rt.alloc(), 0)?);
    without_places(&rt, &mut buckets(rt.alloc(), 0, 4)?);
    Ok(())
}

#[test]
fn no_buckets(rt: HostRuntime) -> Result<(), Fail> {
    without_places(&rt, &mut buckets(rt.alloc(), 4, 0)?);
    Ok(())
}

#[test]
fn one_place(rt: HostRuntime) -> Result<(), Fail> {
    with_one_place(&rt, &mut rows(rt.alloc(), 1)?);
    with_one_place(&rt, &mut buckets(rt.alloc(), 1, 3)?);
    Ok(())
}

#[test]
fn both_halves(rt: HostRuntime) -> Result<(), Fail> {
    with_both_halves(&rt, &mut rows(rt.alloc(), 3)?);
    with_both_halves(&rt, &mut buckets(rt.alloc(), 3, 1)?);
    with_both_halves(&rt, &mut buckets(rt.alloc(), 3, 100_000)?);
    Ok(())
}

#[test]
fn long_tables(rt: HostRuntime) -> Result<(), Fail> {
    let longer = MOST_PAIRS + 1;
    assert_eq!(rt; rows(rt.alloc(), longer)?.capacity(), 32_768);
    let mut register = buckets(rt.alloc(), longer, 8_192)?;
    for i in 0..32_768 {
        assert_eq!(rt;
            register.number(Pair {
                first: i / 8,
                second: i % 8,
            }),
            Some(i + 1)
        );
    }
    assert_eq!(rt;
        register.number(Pair {
            first: 9,
            second: 9,
        }),
        None
    );
    assert_eq!(rt;
        register.pair_at(32_768),
        Some(Pair {
            first: 4_095,
            second: 7,
        })
    );
    assert_eq!(rt; register.pair_at(32_769), None);
    assert!(rt; register.longest_chain() < 20);
    Ok(())
}
