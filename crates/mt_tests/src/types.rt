//! Sets of tablet types, combined and printed.

use mt_names::{TabletType, TypeSet};
use std::alloc::Global;

/// Whether a set of the primary alone has this type just if it is the primary, and the type is read as it is written.
fn is_alone(tablet_type: TabletType) -> bool {
    let is_primary = tablet_type == TabletType::Primary;
    TypeSet::of(TabletType::Primary).contains(tablet_type) == is_primary
        && TabletType::parse(tablet_type.as_str()) == Ok(tablet_type)
}

#[test]
fn sets_are_combined(rt: HostRuntime) {
    let writes = TypeSet::of(TabletType::Primary);
    let reads = TypeSet::ALL.without(writes);
    assert!(rt; reads.text().as_str() == "replica,rdonly" && !reads.is_empty());
    assert!(rt; reads.union(writes) == TypeSet::ALL && reads.both(writes) == TypeSet::NONE);
    assert!(rt; reads.both(writes).is_empty());
    assert!(rt; TabletType::ALL.into_iter().all(is_alone));
}

/// Whether types and sets are printed as they are read.
fn are_printed(alloc: Global) -> bool {
    let (one, two) = (TabletType::Rdonly, TabletType::Primary);
    let line = format!(in alloc; "{one} [{two:>7}] {}", TypeSet::ALL);
    line.is_ok_and(|line| line.as_str() == "rdonly [primary] primary,replica,rdonly")
}

#[test]
fn types_and_sets_are_printed(rt: HostRuntime) {
    assert!(rt; are_printed(rt.alloc()));
}
