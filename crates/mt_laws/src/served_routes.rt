//! Routes of a topology that a state serves.
ghost use Rattle.std.specs.Prelude.{List, IsPermutation};
ghost use Rattle.mt_model.specs.declared.entries.Entry.{Entry};
ghost use Rattle.mt_model.specs.Topology.{TopologyState, routes_of};
ghost use Rattle.mt_plain.specs.Answers.{IsView};
ghost use Rattle.mt_plain.specs.Plain.{Plain};
ghost use Rattle.mt_plain.specs.Serve.{IsServed};

/// The routes of each topology that a state serves are a view of the state, and so is a view in any other order.
pub fn routes_of_what_is_served_are_a_view()
    ensures routes { (p : Plain) (t : TopologyState) → IsServed p t → IsView p (routes_of t) }
    ensures turned { (p : Plain) (view other : List Entry) → IsView p view → IsPermutation view other → IsView p other }
{}
