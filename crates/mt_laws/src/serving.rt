//! Laws on the topology that is served.
ghost use Rattle.std.specs.Prelude.{◌≡◌, if◌then◌else◌};
ghost use Rattle.std.specs.List.{AllByRecursion};
ghost use Rattle.mt_laws.specs.Parts.{AreApart, HasSides};
ghost use Rattle.mt_laws.specs.WayBack.{IsReached};
ghost use Rattle.mt_model.specs.declared.entries.EntryKey.{EntryKey};
ghost use Rattle.mt_model.specs.Topology.{TopologyState, value_of};
ghost use Rattle.mt_plain.specs.Plain.{Live, Plain, has_part};
ghost use Rattle.mt_plain.specs.Serve.{Serves, served, served_by, with_workflow};

/// A topology with a workflow over it says in the part of the workflow what that serves, and elsewhere what it said before. So the
/// list of entries of a whole state says at each entry what is served there, where no entry lies in the parts of two workflows;
/// and so it is in each state that a run reaches.
pub fn lists_of_entries_say_what_is_served()
    ensures one { (u : TopologyState) (w : Live) → HasSides u w → (key : EntryKey)
        → value_of (with_workflow u w) key ≡ (if has_part w key then served_by u w key else value_of u key) }
    ensures all { (p : Plain) → AllByRecursion (HasSides p.topology) p.lives → AreApart p.lives → Serves p (served p) }
    ensures reached { (p : Plain) → IsReached p → Serves p (served p) }
{}
