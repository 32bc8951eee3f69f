//! The steps of a way by its places, where the target has one, two, three and eight shards.

use mt_names::TypeSet;
use mt_workflow::Way;
use std::test::Fail;

/// A way on which all traffic is switched, or is reversed, to or from a target of so many shards, and of which so many places stand done.
fn way(back: bool, done: u8, shards: u8) -> Way {
    let (before, after) = if back {
        (TypeSet::ALL, TypeSet::NONE)
    } else {
        (TypeSet::NONE, TypeSet::ALL)
    };
    Way {
        back,
        shards,
        before,
        after,
        done,
        undoing: false,
    }
}

/// Whether it is a way back, how many places stand done, how many shards the target has; which step and which shard are next, and whether
/// the journal is behind it.
type Case = (bool, u8, u8, u16, u8, bool);

/// The refresh of the target is step 8 on a way forward, and step 2 on a way back, and has a place for each shard.
static CASES: [Case; 18] = [
    (false, 6, 8, 6, 0, false),
    (false, 7, 8, 7, 0, true),
    (false, 8, 1, 8, 0, true),
    (false, 9, 1, 9, 0, true),
    (false, 9, 2, 8, 1, true),
    (false, 10, 2, 9, 0, true),
    (false, 15, 8, 8, 7, true),
    (false, 16, 8, 9, 0, true),
    (false, 18, 8, 11, 0, true),
    (false, 19, 8, 12, 0, true),
    (true, 2, 3, 2, 0, false),
    (true, 4, 3, 2, 2, false),
    (true, 5, 3, 3, 0, false),
    (true, 6, 1, 6, 0, false),
    (true, 7, 1, 7, 0, true),
    (true, 7, 3, 5, 0, false),
    (true, 13, 8, 6, 0, false),
    (true, 14, 8, 7, 0, true),
];

#[test]
fn a_refresh_has_a_place_for_each_shard(rt: HostRuntime) -> Result<(), Fail> {
    for (at, case) in CASES.iter().enumerate() {
        let (back, done, shards, step, shard, past) = *case;
        let way = way(back, done, shards);
        assert!(rt; way.next_place() == u16::from(done), "at {at}");
        assert!(rt; way.next_step() == step, "at {at}");
        assert!(rt; way.next_shard() == shard, "at {at}");
        assert!(rt; way.is_past_journal() == past, "at {at}");
    }
    Ok(())
}
