//! The entries that a step writes, and what stood before them.
ghost use Rattle.std.specs.Prelude.{◌≡◌, ◌≢◌, ◌==◌, true, false, List, ℕ, fold, if◌then◌else◌, map, not, option_copied};
ghost use Rattle.mt_model.specs.declared.entries.Entry.{Entry};
ghost use Rattle.mt_model.specs.declared.entries.EntryKey.{EntryKey};
ghost use Rattle.mt_model.specs.Part.{keys_of_name};
ghost use Rattle.mt_model.specs.Topology.{has_place, key_of};
ghost use Rattle.mt_plain.specs.Plain.{allow_target, deny_source, switch_reads, switch_write_rules};
ghost use Rattle.mt_plain.specs.Serve.{owned_before};
ghost use Rattle.mt_workflow.specs.Workflows.{WorkflowState, live_of};
ghost use Rattle.mt_steps.specs.Entries.{HavePlaces, is_of_step, swept, with_recorded, with_wanted};
ghost use Rattle.mt_steps.specs.Plans.{number};
ghost use Rattle.mt_steps.specs.Records.{denied_after, entries_of, name_entries, table_entries};

use crate::records::{NameMarks, NameRules, RuleMark, TableRecord, rule_names};
use crate::step::Step;
use mt_model::key_of_name;
use mt_names::{KeyspaceName, TableName, TabletType, TypeSet};
use mt_topology::Topology;
use mt_workflow::Workflow;

/// Whether the target, or the source, is the old owner. No name is read for it.
fn is_old_owner(workflow: &Workflow, is_target: bool) -> bool
    requires { workflow.now.source ≢ workflow.now.target }
    ensures { result ≡ owned_before (live_of workflow.now) (if is_target then workflow.now.target else workflow.now.source) }
{
    workflow.types_before().primary == is_target
}

/// Whether the denial at a side changes with a step, where that side is the old owner, or the new one.
fn is_denial_step(step: Step, is_old_owner: bool) -> bool
    ensures { result ≡ ((if is_old_owner then deny_source else allow_target) == number step) }
{
    match step {
        Step::DenySource => is_old_owner,
        Step::AllowTarget => !is_old_owner,
        _ => false,
    }
}

/// Whether the target, or the source, is to refuse the tables once some types are switched: the one that is not the owner.
fn is_side_denied(types: TypeSet, is_target: bool) -> bool
    ensures { result ≡ (if is_target then not types.primary else types.primary) }
{
    if is_target {
        !types.primary
    } else {
        types.primary
    }
}

/// Whether any entry may change with a step: the reads, the denial of the tables at the old owner, their release at the new owner, the
/// plain rules. With the others none does, of whatever workflow. (Vitess: how traffic is switched)
fn writes_entries(step: Step) -> bool
    ensures { result ≡ false → (w : WorkflowState) (key : EntryKey) → is_of_step w (number step) key ≡ false }
{
    matches!(
        step,
        Step::SwitchReads | Step::DenySource | Step::AllowTarget | Step::SwitchWriteRules
    )
}

/// Writes each entry of the records that changes with a step as it is to be once these types are switched, and records of it what the
/// topology said there. The records are of tables between the workflow's sides.
pub(crate) fn exchange_step(
    topology: &mut Topology,
    workflow: &Workflow,
    types: TypeSet,
    step: Step,
    records: &mut [TableRecord],
)
    requires apart { workflow.now.source ≢ workflow.now.target }
    requires places { HavePlaces topology.old (map key_of (entries_of workflow.now.source workflow.now.target records.old)) }
    ensures recorded { entries_of workflow.now.source workflow.now.target records.new ≡ swept workflow.now types (number step) topology.old (entries_of workflow.now.source workflow.now.target records.old) }
    ensures written { topology.new ≡ fold (with_wanted workflow.now types (number step)) topology.old (map key_of (entries_of workflow.now.source workflow.now.target records.old)) }
{
    if !writes_entries(step) {
        return;
    }
    for noted in records.iter_mut() {
        exchange_table(topology, workflow, types, step, noted);
    }
}

/// Writes and records those entries of a table that change with a step.
fn exchange_table(
    topology: &mut Topology,
    workflow: &Workflow,
    types: TypeSet,
    step: Step,
    noted: &mut TableRecord,
)
    requires apart { workflow.now.source ≢ workflow.now.target }
    requires places { HavePlaces topology.old (map key_of (table_entries workflow.now.source workflow.now.target noted.old)) }
    ensures recorded { table_entries workflow.now.source workflow.now.target noted.new ≡ swept workflow.now types (number step) topology.old (table_entries workflow.now.source workflow.now.target noted.old) }
    ensures written { topology.new ≡ fold (with_wanted workflow.now types (number step)) topology.old (map key_of (table_entries workflow.now.source workflow.now.target noted.old)) }
{
    match step {
        Step::SwitchReads => exchange_reads(topology, workflow, types, noted),
        Step::SwitchWriteRules => exchange_writes(topology, workflow, types, noted),
        _ => exchange_denials(topology, workflow, types, step, noted),
    }
}

/// Writes and records a table's entries of `SwitchReads`: the rules of the types replica and rdonly, and the presence.
fn exchange_reads(
    topology: &mut Topology,
    workflow: &Workflow,
    types: TypeSet,
    noted: &mut TableRecord,
)
    requires places { HavePlaces topology.old (map key_of (table_entries workflow.now.source workflow.now.target noted.old)) }
    ensures recorded { table_entries workflow.now.source workflow.now.target noted.new ≡ swept workflow.now types 0 topology.old (table_entries workflow.now.source workflow.now.target noted.old) }
    ensures written { topology.new ≡ fold (with_wanted workflow.now types 0) topology.old (map key_of (table_entries workflow.now.source workflow.now.target noted.old)) }
{
    let table = &noted.table;
    exchange_reads_of(
        topology,
        workflow,
        types,
        None,
        table,
        &mut noted.alone,
        &mut noted.found_alone,
    );
    exchange_reads_of(
        topology,
        workflow,
        types,
        Some(workflow.source()),
        table,
        &mut noted.at_source,
        &mut noted.found_at_source,
    );
    exchange_reads_of(
        topology,
        workflow,
        types,
        Some(workflow.target()),
        table,
        &mut noted.at_target,
        &mut noted.found_at_target,
    );
    noted.is_present = topology.exchange_present(workflow.target(), table, true);
}

/// Writes and records the rules of the types replica and rdonly of a name, by one call.
fn exchange_reads_of(
    topology: &mut Topology,
    workflow: &Workflow,
    types: TypeSet,
    keyspace: Option<&KeyspaceName>,
    table: &TableName,
    marks: &mut NameMarks,
    found: &mut NameRules,
)
    requires { HavePlaces topology.old (map EntryKey.Rule (keys_of_name (option_copied keyspace) table.now)) }
    ensures recorded { (source target : List ℕ) → name_entries source target (option_copied keyspace.entry) table.now marks.new found.new ≡ swept workflow.now types 0 topology.old (name_entries source target (option_copied keyspace.entry) table.now marks.old found.old) }
    ensures written { topology.new ≡ fold (with_wanted workflow.now types 0) topology.old (map EntryKey.Rule (keys_of_name (option_copied keyspace.entry) table.now)) }
{
    let name = key_of_name(keyspace, table, None);
    let reads = (Some(TabletType::Replica), Some(TabletType::Rdonly));
    let rules = (
        Some((workflow.side(types.replica), table)),
        Some((workflow.side(types.rdonly), table)),
    );
    marks.replica = RuleMark::Found;
    marks.rdonly = RuleMark::Found;
    topology.exchange_two(&name, reads, rules, &mut found.replica, &mut found.rdonly);
}

/// Writes and records a table's entries of `SwitchWriteRules`: the rules for all types, and those of primary.
fn exchange_writes(
    topology: &mut Topology,
    workflow: &Workflow,
    types: TypeSet,
    noted: &mut TableRecord,
)
    requires places { HavePlaces topology.old (map key_of (table_entries workflow.now.source workflow.now.target noted.old)) }
    ensures recorded { table_entries workflow.now.source workflow.now.target noted.new ≡ swept workflow.now types 9 topology.old (table_entries workflow.now.source workflow.now.target noted.old) }
    ensures written { topology.new ≡ fold (with_wanted workflow.now types 9) topology.old (map key_of (table_entries workflow.now.source workflow.now.target noted.old)) }
{
    let table = &noted.table;
    exchange_writes_of(
        topology,
        workflow,
        types,
        None,
        table,
        &mut noted.alone,
        &mut noted.found_alone,
    );
    exchange_writes_of(
        topology,
        workflow,
        types,
        Some(workflow.source()),
        table,
        &mut noted.at_source,
        &mut noted.found_at_source,
    );
    exchange_writes_of(
        topology,
        workflow,
        types,
        Some(workflow.target()),
        table,
        &mut noted.at_target,
        &mut noted.found_at_target,
    );
}

/// Writes and records the rule for all types of a name, and that of primary, by one call.
fn exchange_writes_of(
    topology: &mut Topology,
    workflow: &Workflow,
    types: TypeSet,
    keyspace: Option<&KeyspaceName>,
    table: &TableName,
    marks: &mut NameMarks,
    found: &mut NameRules,
)
    requires { HavePlaces topology.old (map EntryKey.Rule (keys_of_name (option_copied keyspace) table.now)) }
    ensures recorded { (source target : List ℕ) → name_entries source target (option_copied keyspace.entry) table.now marks.new found.new ≡ swept workflow.now types 9 topology.old (name_entries source target (option_copied keyspace.entry) table.now marks.old found.old) }
    ensures written { topology.new ≡ fold (with_wanted workflow.now types 9) topology.old (map EntryKey.Rule (keys_of_name (option_copied keyspace.entry) table.now)) }
{
    let name = key_of_name(keyspace, table, None);
    let writes = (None, Some(TabletType::Primary));
    let rules = (workflow.wanted_names(&name, types), None);
    marks.plain = RuleMark::Found;
    marks.primary = RuleMark::Found;
    topology.exchange_two(&name, writes, rules, &mut found.plain, &mut found.primary);
}

/// Writes and records a table's entries of another step: the denials that change with it.
fn exchange_denials(
    topology: &mut Topology,
    workflow: &Workflow,
    types: TypeSet,
    step: Step,
    noted: &mut TableRecord,
)
    requires apart { workflow.now.source ≢ workflow.now.target }
    requires places { HavePlaces topology.old (map key_of (table_entries workflow.now.source workflow.now.target noted.old)) }
    requires reads { number step ≢ switch_reads }
    requires rules { number step ≢ switch_write_rules }
    ensures recorded { table_entries workflow.now.source workflow.now.target noted.new ≡ swept workflow.now types (number step) topology.old (table_entries workflow.now.source workflow.now.target noted.old) }
    ensures written { topology.new ≡ fold (with_wanted workflow.now types (number step)) topology.old (map key_of (table_entries workflow.now.source workflow.now.target noted.old)) }
{
    let table = &noted.table;
    let denied = &mut noted.is_denied_at_source;
    exchange_denial(topology, workflow, types, step, false, table, denied);
    let denied = &mut noted.is_denied_at_target;
    exchange_denial(topology, workflow, types, step, true, table, denied);
}

/// Writes and records a table's denial at the target, or at the source, if it changes with a step.
fn exchange_denial(
    topology: &mut Topology,
    workflow: &Workflow,
    types: TypeSet,
    step: Step,
    is_target: bool,
    table: &TableName,
    denied: &mut bool,
)
    requires apart { workflow.now.source ≢ workflow.now.target }
    requires place { has_place topology.old (EntryKey.Denied (if is_target then workflow.now.target else workflow.now.source) table.now) ≡ true }
    ensures recorded { denied.new ≡ denied_after workflow.now (number step) topology.old (if is_target then workflow.now.target else workflow.now.source) table.now denied.old }
    ensures written { topology.new ≡ with_wanted workflow.now types (number step) topology.old (EntryKey.Denied (if is_target then workflow.now.target else workflow.now.source) table.now) }
{
    if is_denial_step(step, is_old_owner(workflow, is_target)) {
        let side = workflow.side(is_target);
        *denied = topology.exchange_denied(side, table, is_side_denied(types, is_target));
    }
}

/// Writes back what is recorded of each entry that changes with a step. The records are of tables between these sides.
pub(crate) fn write_back(
    topology: &mut Topology,
    workflow: &Workflow,
    step: Step,
    source: &KeyspaceName,
    target: &KeyspaceName,
    records: &[TableRecord],
)
    requires places { HavePlaces topology.old (map key_of (entries_of source.now target.now records.now)) }
    ensures { topology.new ≡ fold (with_recorded workflow.now (number step)) topology.old (entries_of source.now target.now records.now) }
{
    if !writes_entries(step) {
        return;
    }
    for noted in records {
        write_back_table(topology, workflow, step, source, target, noted);
    }
}

/// Writes back what is recorded of those entries of a table that change with a step.
fn write_back_table(
    topology: &mut Topology,
    workflow: &Workflow,
    step: Step,
    source: &KeyspaceName,
    target: &KeyspaceName,
    noted: &TableRecord,
)
    requires places { HavePlaces topology.old (map key_of (table_entries source.now target.now noted.now)) }
    ensures { topology.new ≡ fold (with_recorded workflow.now (number step)) topology.old (table_entries source.now target.now noted.now) }
{
    match step {
        Step::SwitchReads => write_back_reads(topology, source, target, noted),
        Step::SwitchWriteRules => write_back_writes(topology, source, target, noted),
        _ => write_back_denials(topology, workflow, step, source, target, noted),
    }
}

/// Writes back a table's entries of `SwitchReads`: the rules of the types replica and rdonly, and the presence.
fn write_back_reads(
    topology: &mut Topology,
    source: &KeyspaceName,
    target: &KeyspaceName,
    noted: &TableRecord,
)
    requires places { HavePlaces topology.old (map key_of (table_entries source.now target.now noted.now)) }
    ensures { (w : WorkflowState) → topology.new ≡ fold (with_recorded w 0) topology.old (table_entries source.now target.now noted.now) }
{
    let table = &noted.table;
    write_back_reads_of(
        topology,
        source,
        target,
        None,
        table,
        &noted.alone,
        &noted.found_alone,
    );
    write_back_reads_of(
        topology,
        source,
        target,
        Some(source),
        table,
        &noted.at_source,
        &noted.found_at_source,
    );
    write_back_reads_of(
        topology,
        source,
        target,
        Some(target),
        table,
        &noted.at_target,
        &noted.found_at_target,
    );
    topology.put_present(target, table, noted.is_present);
}

/// Writes back the rules of the types replica and rdonly of a name. One key is made, whose type then changes.
fn write_back_reads_of(
    topology: &mut Topology,
    source: &KeyspaceName,
    target: &KeyspaceName,
    keyspace: Option<&KeyspaceName>,
    table: &TableName,
    marks: &NameMarks,
    found: &NameRules,
)
    requires { HavePlaces topology.old (map EntryKey.Rule (keys_of_name (option_copied keyspace) table.now)) }
    ensures { (w : WorkflowState) → topology.new ≡ fold (with_recorded w 0) topology.old (name_entries source.now target.now (option_copied keyspace.entry) table.now marks.now found.now) }
{
    let mut key = key_of_name(keyspace, table, None);
    key.tablet_type = Some(TabletType::Replica);
    let rule = rule_names(marks.replica, &found.replica, source, target, table);
    topology.put_rule(&key, rule);
    key.tablet_type = Some(TabletType::Rdonly);
    let rule = rule_names(marks.rdonly, &found.rdonly, source, target, table);
    topology.put_rule(&key, rule);
}

/// Writes back a table's entries of `SwitchWriteRules`: the rules for all types, and those of primary.
fn write_back_writes(
    topology: &mut Topology,
    source: &KeyspaceName,
    target: &KeyspaceName,
    noted: &TableRecord,
)
    requires places { HavePlaces topology.old (map key_of (table_entries source.now target.now noted.now)) }
    ensures { (w : WorkflowState) → topology.new ≡ fold (with_recorded w 9) topology.old (table_entries source.now target.now noted.now) }
{
    let table = &noted.table;
    write_back_writes_of(
        topology,
        source,
        target,
        None,
        table,
        &noted.alone,
        &noted.found_alone,
    );
    write_back_writes_of(
        topology,
        source,
        target,
        Some(source),
        table,
        &noted.at_source,
        &noted.found_at_source,
    );
    write_back_writes_of(
        topology,
        source,
        target,
        Some(target),
        table,
        &noted.at_target,
        &noted.found_at_target,
    );
}

/// Writes back the rule for all types of a name, and that of primary. One key is made, whose type then changes.
fn write_back_writes_of(
    topology: &mut Topology,
    source: &KeyspaceName,
    target: &KeyspaceName,
    keyspace: Option<&KeyspaceName>,
    table: &TableName,
    marks: &NameMarks,
    found: &NameRules,
)
    requires { HavePlaces topology.old (map EntryKey.Rule (keys_of_name (option_copied keyspace) table.now)) }
    ensures { (w : WorkflowState) → topology.new ≡ fold (with_recorded w 9) topology.old (name_entries source.now target.now (option_copied keyspace.entry) table.now marks.now found.now) }
{
    let mut key = key_of_name(keyspace, table, None);
    let rule = rule_names(marks.plain, &found.plain, source, target, table);
    topology.put_rule(&key, rule);
    key.tablet_type = Some(TabletType::Primary);
    let rule = rule_names(marks.primary, &found.primary, source, target, table);
    topology.put_rule(&key, rule);
}

/// Writes back a table's entries of another step: the denials that change with it.
fn write_back_denials(
    topology: &mut Topology,
    workflow: &Workflow,
    step: Step,
    source: &KeyspaceName,
    target: &KeyspaceName,
    noted: &TableRecord,
)
    requires places { HavePlaces topology.old (map key_of (table_entries source.now target.now noted.now)) }
    requires reads { number step ≢ switch_reads }
    requires rules { number step ≢ switch_write_rules }
    ensures { topology.new ≡ fold (with_recorded workflow.now (number step)) topology.old (table_entries source.now target.now noted.now) }
{
    let table = &noted.table;
    write_back_denial(
        topology,
        workflow,
        step,
        source,
        table,
        noted.is_denied_at_source,
    );
    write_back_denial(
        topology,
        workflow,
        step,
        target,
        table,
        noted.is_denied_at_target,
    );
}

/// Writes back a table's denial at a side, if it changes with a step.
fn write_back_denial(
    topology: &mut Topology,
    workflow: &Workflow,
    step: Step,
    side: &KeyspaceName,
    table: &TableName,
    is_denied: bool,
)
    requires { has_place topology.old (EntryKey.Denied side.now table.now) ≡ true }
    ensures { topology.new ≡ with_recorded workflow.now (number step) topology.old (Entry.Denied side.now table.now is_denied) }
{
    if is_denial_step(step, workflow.owned_before(side)) {
        topology.put_denied(side, table, is_denied);
    }
}
