//! `==` decides equality.
ghost use Rattle.mt_names.specs.Names.{same_text};
ghost use Rattle.mt_names.specs.Same.{DecidesEquality, same_key, same_target, same_type, same_types};
ghost use Rattle.mt_names.specs.Shards.{same_range, same_shards};

/// `==` of two names, rule keys, targets, tablet types, type sets, key ranges or lists of shards is true exactly where they are equal.
pub fn equality_decides()
    ensures names { DecidesEquality same_text }
    ensures keys { DecidesEquality same_key }
    ensures targets { DecidesEquality same_target }
    ensures types { DecidesEquality same_type }
    ensures type_sets { DecidesEquality same_types }
    ensures ranges { DecidesEquality same_range }
    ensures shards { DecidesEquality same_shards }
{}
