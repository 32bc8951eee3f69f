//! Where an allocation fails, the answer of an advance is `Memory` or what was done until then, and a refusal changes nothing.

use crate::pair::{Pair, Step, primary_with};
use mt_names::KeyRange;
use std::alloc::Global;
use std::test::Fail;

/// The shortest value that takes memory of its own, which the sink shares with the source.
const LONG: &[u8] = &[b'w'; 23];

/// The longest value.
const LONGEST: &[u8] = &[b'y'; 64];

/// A stream of two tables, which reads their rows and then the log from position 24 on.
fn pair_of(alloc: Global) -> Result<Pair, Fail> {
    let tables = ["a", "b"];
    let source = primary_with(alloc, &tables)?;
    let sink = primary_with(alloc, &tables)?;
    Ok(Pair::new(source, sink, "b,a", KeyRange::whole(), 24, true)?)
}

/// Whether so many advances go on.
fn all_go_on(pair: &mut Pair, times: u8, max: u16) -> bool {
    for _ in 0..times {
        if !pair.goes_on(max) {
            return false;
        }
    }
    true
}

/// Whether rows of two tables are inserted, 12 each.
fn are_inserted(pair: &mut Pair) -> bool {
    for key in 0..12u64 {
        if !pair.all_so(&[
            Step::Insert("a", key, b"x"),
            Step::Insert("b", key, LONGEST),
        ]) {
            return false;
        }
    }
    true
}

/// Whether those of one table are updated, and those of the other replaced by others.
fn are_changed(pair: &mut Pair) -> bool {
    for key in 0..12u64 {
        let steps = [
            Step::Update("a", key, b"z"),
            Step::Delete("b", key),
            Step::Insert("b", key + 12, LONG),
        ];
        if !pair.all_so(&steps) {
            return false;
        }
    }
    true
}

/// Whether the sink has the rows that are left.
fn has_all(pair: &mut Pair) -> bool {
    for key in 0..12u64 {
        let steps = [
            Step::Row("a", key, Some(b"z")),
            Step::Row("b", key, None),
            Step::Row("b", key + 12, Some(LONG)),
        ];
        if !pair.all_so(&steps) {
            return false;
        }
    }
    true
}

/// Whether a stream gets all rows and all entries to the sink, by advances of so many at most. Without a failure 4 at most
/// take 7 advances for the rows and 9 for the entries, and an advance that ends early takes one more.
fn gets_all(alloc: Global, max: u16) -> Result<bool, Fail> {
    let mut pair = pair_of(alloc)?;
    let copied = are_inserted(&mut pair)
        && all_go_on(&mut pair, 8, max)
        && pair.all_so(&[Step::Stands(24, true, true), Step::SinkAt(24)]);
    Ok(
        copied
            && are_changed(&mut pair)
            && all_go_on(&mut pair, 10, max)
            && pair.all_so(&[Step::Stands(60, true, true), Step::SinkAt(60)])
            && has_all(&mut pair),
    )
}

// The sink's log takes memory before its entries 0, 4, 8, 16 and 32. By 4 at most each is the first change of an advance,
// which is refused if that fails; by 5 most are later ones, and the advance ends before them.
#[test]
fn want_of_memory_is_no_other_answer(rt: HostRuntime) -> Result<(), Fail> {
    assert!(rt; gets_all(rt.alloc(), 4)?);
    assert!(rt; gets_all(rt.alloc(), 5)?);
    Ok(())
}
