//! The part of a workflow: what is written over it.
ghost use Rattle.std.specs.Prelude.{◌≡◌, true, All, None, Some, map, option_copied};
ghost use Rattle.mt_names.specs.declared.types.TabletType.{TabletType};
ghost use Rattle.mt_names.specs.Types.{no_types};
ghost use Rattle.mt_model.specs.declared.entries.EntryKey.{EntryKey};
ghost use Rattle.mt_model.specs.Part.{keys_of_name, table_part_keys, with_entries};
ghost use Rattle.mt_model.specs.Topology.{has_place, rule_at, value_of};
ghost use Rattle.mt_rules.specs.Rules.{lent_rule};
ghost use Rattle.mt_workflow.specs.Workflows.{live_of, wanted};
ghost use Rattle.mt_stands.specs.Keys.{kept_entries, keys_of_part, part_entries, rules_only};
ghost use Rattle.mt_moves.specs.Parts.{HasPlaces, mark_entries, mark_keys};

use mt_model::key_of_name;
use mt_names::{KeyspaceName, RuleKey, TableName, TabletType, TypeSet};
use mt_topology::Topology;
use mt_workflow::Workflow;

/// Writes the part of a new workflow: each entry as it is with nothing switched. It takes no memory.
pub(crate) fn write_part(topology: &mut Topology, workflow: &Workflow)
    requires { All (λ key. has_place topology.old key ≡ true) (keys_of_part (live_of workflow.now)) }
    ensures { topology.new ≡ with_entries topology.old (part_entries workflow.now.kept (live_of workflow.now) no_types) }
{
    for table in workflow.tables() {
        write_table(topology, workflow, table);
    }
}

/// Writes the entries of a table's keys as they are with nothing switched.
fn write_table(topology: &mut Topology, workflow: &Workflow, table: &TableName)
    requires { HasPlaces topology.old (table_part_keys workflow.now.source workflow.now.target table.now) }
    ensures { topology.new ≡ with_entries topology.old (map (wanted workflow.now no_types) (table_part_keys workflow.now.source workflow.now.target table.now)) }
{
    let source = workflow.source();
    let target = workflow.target();
    write_name(topology, workflow, None, table);
    write_name(topology, workflow, Some(source), table);
    write_name(topology, workflow, Some(target), table);
    let denied = (
        workflow.is_denied_at(source, TypeSet::NONE),
        workflow.is_denied_at(target, TypeSet::NONE),
    );
    write_marks(topology, workflow, table, denied, true);
}

/// Writes whether the primaries of a workflow's sides are to refuse a table, and whether the target has it.
fn write_marks(
    topology: &mut Topology,
    workflow: &Workflow,
    table: &TableName,
    denied: (bool, bool),
    is_present: bool,
)
    requires { HasPlaces topology.old (mark_keys workflow.now.source workflow.now.target table.now) }
    ensures { topology.new ≡ with_entries topology.old (mark_entries workflow.now.source workflow.now.target table.now denied.0 denied.1 is_present) }
{
    let source = workflow.source();
    let target = workflow.target();
    topology.put_denied(source, table, denied.0);
    topology.put_denied(target, table, denied.1);
    topology.put_present(target, table, is_present);
}

/// Writes the rules of a name's four keys as they are with nothing switched. The name is looked up once.
fn write_name(
    topology: &mut Topology,
    workflow: &Workflow,
    keyspace: Option<&KeyspaceName>,
    table: &TableName,
)
    requires { HasPlaces topology.old (map EntryKey.Rule (keys_of_name (option_copied keyspace) table.now)) }
    ensures { topology.new ≡ with_entries topology.old (map (wanted workflow.now no_types) (map EntryKey.Rule (keys_of_name (option_copied keyspace.entry) table.now))) }
{
    let name = key_of_name(keyspace, table, None);
    let plain = workflow.wanted_names(&name, TypeSet::NONE);
    let source = workflow.source();
    topology.put_name(
        &name,
        plain,
        None,
        Some((source, table)),
        Some((source, table)),
    );
}

/// Writes the part of a workflow as it was before Create. It takes no memory.
pub(crate) fn write_kept(topology: &mut Topology, workflow: &Workflow)
    requires { All (λ key. has_place topology.old key ≡ true) (keys_of_part (live_of workflow.now)) }
    ensures { topology.new ≡ with_entries topology.old (kept_entries workflow.now.kept (live_of workflow.now)) }
{
    for table in workflow.tables() {
        write_kept_table(topology, workflow, table);
    }
}

/// Writes the entries of a table's keys as they were before Create.
fn write_kept_table(topology: &mut Topology, workflow: &Workflow, table: &TableName)
    requires { HasPlaces topology.old (table_part_keys workflow.now.source workflow.now.target table.now) }
    ensures { topology.new ≡ with_entries topology.old (map (value_of (rules_only workflow.now.kept)) (table_part_keys workflow.now.source workflow.now.target table.now)) }
{
    let source = workflow.source();
    let target = workflow.target();
    write_kept_name(topology, workflow, None, table);
    write_kept_name(topology, workflow, Some(source), table);
    write_kept_name(topology, workflow, Some(target), table);
    write_marks(topology, workflow, table, (false, false), false);
}

/// Writes the rules of a name's four keys as they were before Create. The name is looked up once.
fn write_kept_name(
    topology: &mut Topology,
    workflow: &Workflow,
    keyspace: Option<&KeyspaceName>,
    table: &TableName,
)
    requires { HasPlaces topology.old (map EntryKey.Rule (keys_of_name (option_copied keyspace) table.now)) }
    ensures { topology.new ≡ with_entries topology.old (map (value_of (rules_only workflow.now.kept)) (map EntryKey.Rule (keys_of_name (option_copied keyspace.entry) table.now))) }
{
    let name = key_of_name(keyspace, table, None);
    let kept = kept_names(workflow, keyspace, table);
    topology.put_name(&name, kept.0, kept.1, kept.2, kept.3);
}

/// A rule by the names of where it leads, or none.
type Lent<'a> = Option<(&'a KeyspaceName, &'a TableName)>;

/// The rules of a name's four keys before Create: that for all types, those of primary, replica and rdonly. Where nothing is kept none
/// is looked up; else one key is made, whose type then changes.
fn kept_names<'a>(
    workflow: &'a Workflow,
    keyspace: Option<&KeyspaceName>,
    table: &TableName,
) -> (Lent<'a>, Lent<'a>, Lent<'a>, Lent<'a>)
    ensures plain { lent_rule result.0 ≡ rule_at workflow.now.kept (record { keyspace = option_copied keyspace.entry; table = table.now; tablet_type = None }) }
    ensures primary { lent_rule result.1 ≡ rule_at workflow.now.kept (record { keyspace = option_copied keyspace.entry; table = table.now; tablet_type = Some TabletType.Primary }) }
    ensures replica { lent_rule result.2 ≡ rule_at workflow.now.kept (record { keyspace = option_copied keyspace.entry; table = table.now; tablet_type = Some TabletType.Replica }) }
    ensures rdonly { lent_rule result.3 ≡ rule_at workflow.now.kept (record { keyspace = option_copied keyspace.entry; table = table.now; tablet_type = Some TabletType.Rdonly }) }
{
    if workflow.keeps_nothing() {
        return (None, None, None, None);
    }
    let mut key = key_of_name(keyspace, table, None);
    let plain = kept_rule(workflow, &key);
    key.tablet_type = Some(TabletType::Primary);
    let primary = kept_rule(workflow, &key);
    key.tablet_type = Some(TabletType::Replica);
    let replica = kept_rule(workflow, &key);
    key.tablet_type = Some(TabletType::Rdonly);
    let rdonly = kept_rule(workflow, &key);
    (plain, primary, replica, rdonly)
}

/// The rule of a key before Create.
fn kept_rule<'a>(workflow: &'a Workflow, key: &RuleKey) -> Lent<'a>
    ensures { lent_rule result ≡ rule_at workflow.now.kept key.now }
{
    let rule = workflow.kept(key)?;
    Some((&rule.keyspace, &rule.table))
}
