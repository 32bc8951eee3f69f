//! Laws on the states that runs reach: on the places of the topology, the numbers of tables, and what is served.
ghost use Rattle.std.specs.Prelude.{◌≡◌, ◌⊎◌, ℕ, ◌<◌, ◌≤◌, false, true, List, None, Some, is_some};
ghost use Rattle.mt_laws.specs.Numbers.{HasNumbers, number_at};
ghost use Rattle.mt_laws.specs.Places.{AreSidesOfMove, HasOnlyWhatStands, IsWithinLimits};
ghost use Rattle.mt_laws.specs.WayBack.{IsReached};
ghost use Rattle.mt_model.specs.declared.entries.EntryKey.TheVariants as about;
ghost use Rattle.mt_model.specs.Topology.{HasDistinctPlaces, has_place, is_present, rule_at};
ghost use Rattle.mt_names.specs.declared.keys.RuleKey.{RuleKey};
ghost use Rattle.mt_plain.specs.Plain.{Plain, in_keyspace};
ghost use Rattle.mt_plain.specs.Serve.{IsServed, has_table, served};
ghost use Rattle.mt_plain.specs.Writes.{client_number, row_after_writes};

/// In each state that a run reaches, the topology as if no workflow were live has places only for what stands: a rule has a
/// place just where there is one, a table just where it is there, and a denial nowhere.
pub fn only_what_stands_has_a_place()
    ensures lists { (p : Plain) → IsReached p → HasOnlyWhatStands p.topology }
    ensures rules { (p : Plain) → IsReached p → (key : RuleKey)
        → has_place p.topology (about.Rule key) ≡ is_some (rule_at p.topology.rules key) }
    ensures tables { (p : Plain) → IsReached p → (keyspace table : List ℕ)
        → has_place p.topology (about.Present keyspace table) ≡ is_present p.topology.keyspaces keyspace table }
    ensures denials { (p : Plain) → IsReached p → (keyspace table : List ℕ)
        → has_place p.topology (about.Denied keyspace table) ≡ false }
{}

/// In each state that a run reaches, whichever workflows are live: a table of the topology as if none were live has a number,
/// which is no other table's, and only such a table has one; no number, and no write, has the number that the next table will
/// get, nor one behind it; and a table that is there, moved or not, is told by a number below it, by which no other table is
/// told but the same one at the other side of its move.
pub fn each_table_has_a_number_of_its_own()
    ensures numbers { (p : Plain) → IsReached p → HasNumbers p }
    ensures present { (p : Plain) → IsReached p → (keyspace table : List ℕ) (n : ℕ)
        → number_at p.numbers (in_keyspace keyspace table) ≡ Some n → is_present p.topology.keyspaces keyspace table ≡ true }
    ensures unwritten { (p : Plain) → IsReached p → (number key : ℕ) → p.made ≤ number
        → row_after_writes p.writes number key ≡ None }
    ensures clients { (p : Plain) → IsReached p → (keyspace table : List ℕ) → has_table p keyspace table ≡ true
        → client_number p keyspace table < p.made }
    ensures apart { (p : Plain) → IsReached p → (k t keyspace table : List ℕ) → has_table p k t ≡ true
        → has_table p keyspace table ≡ true → client_number p k t ≡ client_number p keyspace table
        → (t ≡ table) × ((k ≡ keyspace) ⊎ AreSidesOfMove p t k keyspace) }
{}

/// In each state that a run reaches, the lists of entries that are served are a topology: they give nothing two places, have
/// the keyspaces of the state, and say at each entry what is served there.
pub fn what_is_served_is_a_topology()
    ensures places { (p : Plain) → IsReached p → HasDistinctPlaces (served p) }
    ensures is_served { (p : Plain) → IsReached p → IsServed p (served p) }
{}

/// In each state that a run reaches no limit is passed.
pub fn no_limit_is_passed()
    ensures { (p : Plain) → IsReached p → IsWithinLimits p }
{}
