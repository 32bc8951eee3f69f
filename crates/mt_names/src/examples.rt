//! Worked examples of what the definitions say of key ranges and shards.
ghost use Rattle.mt_names.specs.Examples.{bounds_are_bytes, no_ranges, no_shards, ranges_are_read, ranges_hold_keys, ranges_make_shards, shards_are_found, shards_are_read};

/// Key ranges as they are read, and what they hold.
pub fn examples_of_ranges()
    ensures bounds { bounds_are_bytes }
    ensures read { ranges_are_read }
    ensures refused { no_ranges }
    ensures held { ranges_hold_keys }
{}

/// Lists of shards as they are read, made and asked.
pub fn examples_of_shards()
    ensures read { shards_are_read }
    ensures refused { no_shards }
    ensures made { ranges_make_shards }
    ensures found { shards_are_found }
{}
