// Tables for the ends of a repeat.
use crate::asking::buckets;
use book::{Answer, Call, Node, Reading, perform_all};
use labels::Bare;
use registers::Register;
use std::alloc::Global;
use std::test::Fail;

// Lists the one repeat of three rests into a table of so many nines.
fn listed(heap: Global, places: usize) -> Result<Answer, Fail> {
    let table = vec![in heap; 9; places]?;
    let calls: Vec<Call<Node<Bare>>> = vec![in heap;
        Call::Read(Reading::Bare, b"r/1 r/1 r/1"),
        Call::Close,
        Call::List(0, table),
    ]?;
    let (_register, mut answers) = perform_all(heap, buckets(heap, 100)?, calls).map_err(
        |_register| Fail::new("there is not enough memory"),
    )?;
    answers.pop().ok_or_else(|| Fail::new("there is no answer"))
}

// The table has the ends, and beyond them it is as it was.
#[test]
fn long_enough(rt: HostRuntime) -> Result<(), Fail> {
    let Answer::Listed(Ok(told), table) = listed(rt.alloc(), 4)? else {
        return Err(Fail::new("not listed"));
    };
    assert_eq!(rt; told.count, 3);
    assert_eq!(rt; table.as_slice(), [0, 1, 2, 9].as_slice());
    Ok(())
}

#[test]
fn just_long_enough(rt: HostRuntime) -> Result<(), Fail> {
    let Answer::Listed(Ok(told), table) = listed(rt.alloc(), 3)? else {
        return Err(Fail::new("not listed"));
    };
    assert_eq!(rt; told.group, 3);
    assert_eq!(rt; told.size, 1);
    assert_eq!(rt; table.as_slice(), [0, 1, 2].as_slice());
    Ok(())
}

// The table is as it was.
#[test]
fn too_short(rt: HostRuntime) -> Result<(), Fail> {
    let Answer::Listed(Err(refusal), table) = listed(rt.alloc(), 2)? else {
        return Err(Fail::new("not refused"));
    };
    assert_eq!(rt; refusal.number(), 43);
    assert_eq!(rt; table.as_slice(), [9, 9].as_slice());
    Ok(())
}
