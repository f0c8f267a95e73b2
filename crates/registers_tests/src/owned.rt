// Registers that are owned by value, and tables that come back.
use crate::shelf::Shelf;
use registers::{Buckets, Pair, Register, Rows, Slot, side_by_side};
use std::test::Fail;

const P: Pair = Pair {
    first: 3,
    second: 5,
};

const Q: Pair = Pair {
    first: 5,
    second: 3,
};

#[test]
fn rows_by_value(rt: HostRuntime) -> Result<(), Fail> {
    let table = vec![in rt.alloc(); Pair::default(); 2]?;
    let mut shelf = Shelf {
        register: Rows::over(table),
        asked: 0,
    };
    assert_eq!(rt; shelf.ask(P), Some(1));
    assert_eq!(rt; shelf.ask(Q), Some(2));
    let rows = shelf.into_register();
    assert_eq!(rt; rows.count(), 2);
    let table = rows.into_table();
    assert_eq!(rt; table.get(0).copied(), Some(P));
    assert_eq!(rt; table.get(1).copied(), Some(Q));
    Ok(())
}

#[test]
fn buckets_by_value(rt: HostRuntime) -> Result<(), Fail> {
    let table = vec![in rt.alloc(); Slot::default(); 2]?;
    let heads = vec![in rt.alloc(); 0; 1]?;
    let mut shelf = Shelf {
        register: Buckets::over(table, heads),
        asked: 0,
    };
    assert_eq!(rt; shelf.ask(P), Some(1));
    assert_eq!(rt; shelf.ask(Q), Some(2));
    let buckets = shelf.into_register();
    assert_eq!(rt; buckets.longest_chain(), 2);
    let (table, heads) = buckets.into_tables();
    assert_eq!(rt; table.len(), 2);
    assert_eq!(rt; heads.get(0).copied(), Some(2));
    Ok(())
}

#[test]
fn side_by_side_on_short_tables(rt: HostRuntime) -> Result<(), Fail> {
    let heap = rt.alloc();
    let mut rows = Rows::over(vec![in heap; Pair::default(); 4]?);
    let mut buckets = Buckets::over(vec![in heap; Slot::default(); 4]?, vec![in heap; 9; 3]?);
    let asked = [P, Q, P];
    let mut left = [None; 2];
    let mut right = [None; 3];
    assert!(rt; !side_by_side(&mut rows, &mut buckets, &asked, &mut left, &mut right));
    assert_eq!(rt; left[1], Some(2));
    assert_eq!(rt; right[2], Some(1));
    assert_eq!(rt; rows.count(), 2);
    Ok(())
}
