//! Laws on what a topology tells its users: where names lead, and its documents.
ghost use Rattle.std.specs.Prelude.{◌≡◌, ◌≢◌};
ghost use Rattle.std.specs.List.{AllByRecursion};
ghost use Rattle.mt_laws.specs.Texts.{BringsNames, HasDistinctTexts, HasNamedKeys};
ghost use Rattle.mt_laws.specs.WayBack.{IsReached};
ghost use Rattle.mt_model.specs.Documents.{dump_text, rules_text};
ghost use Rattle.mt_model.specs.Part.{IsSameTopology};
ghost use Rattle.mt_model.specs.Topology.{HasDistinctPlaces, Rules, TopologyState, resolution};
ghost use Rattle.mt_names.specs.declared.keys.RuleKey.{RuleKey};
ghost use Rattle.mt_names.specs.declared.types.TabletType.{TabletType};
ghost use Rattle.mt_plain.specs.Plain.{Plain};
ghost use Rattle.mt_plain.specs.Serve.{served};

/// Two topologies with the same keyspaces and the same value at each entry are one to their users: each name leads to the
/// same table, and the rules document and the dump are the same texts. Empty places and the order of everything may differ.
///
/// Rules are written in the order of their keys' texts. Of two keys with one text, as the table `b.c` and the table `c` of the
/// keyspace `b` would be, the one whose place was made first would come first; so the documents need distinct texts. Keys
/// whose parts are names have them, since a key is read back from its text.
pub fn same_topologies_have_the_same_look_ups_and_documents()
    ensures look_up { (t u : TopologyState) → IsSameTopology t u → HasDistinctPlaces t → HasDistinctPlaces u
        → (key : RuleKey) (type : TabletType) → resolution t key type ≡ resolution u key type }
    ensures rules_document { (t u : TopologyState) → IsSameTopology t u → HasDistinctPlaces t → HasDistinctPlaces u
        → HasDistinctTexts t.rules → rules_text t.rules ≡ rules_text u.rules }
    ensures dump { (t u : TopologyState) → IsSameTopology t u → HasDistinctPlaces t → HasDistinctPlaces u
        → HasDistinctTexts t.rules → dump_text t ≡ dump_text u }
    ensures distinct_texts { (rules : Rules) → HasNamedKeys rules → HasDistinctTexts rules }
{}

/// Without distinct texts the documents may differ: two keys with one text and different targets stand in them in the order
/// of their places.
pub fn documents_need_distinct_texts()
    ensures { (t : TopologyState) × (u : TopologyState) × IsSameTopology t u × HasDistinctPlaces t × HasDistinctPlaces u
        × (rules_text t.rules ≢ rules_text u.rules) }
{}

/// In each state that a run reaches, the keys that have a rule are made of the names that its events brought. So where these
/// are names, the rules have distinct texts.
pub fn served_rules_have_named_keys()
    ensures { (p : Plain) (reached : IsReached p) → AllByRecursion BringsNames reached.events → HasNamedKeys (served p).rules }
{}
