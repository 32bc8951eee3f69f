//! The tables of a workflow at its primaries: they are made at all of its target's, and dropped at all of either side's.
ghost use Rattle.std.specs.Prelude.{◌≡◌, ◌≢◌, ◌<◌, ◌≤◌, ℕ, true, false, AllPairs, IfErr, List, OnErr, OnOk, fold, length, map, slice_index_or};
ghost use Rattle.mt_plain.specs.Plain.{among};
ghost use Rattle.mt_primary.specs.Primaries.{has_primaries, with_all};
ghost use Rattle.mt_primary.specs.Denials.{told_by_refresh, with_denials};
ghost use Rattle.mt_primary.specs.Primary.{empty_primary, has_table};
ghost use Rattle.mt_primary.specs.Writes.{with_new_table, without_table};
ghost use Rattle.mt_moves.specs.Target.{MakesTarget, changed_to, refusal_by_watchers};

use crate::Primaries;
use crate::places::place_of;
use mt_event::Reason;
use mt_model::Scope;
use mt_names::{KeyspaceName, TableName};
use mt_primary::Primary;
use mt_watch::{Asks, Change, Notice, WatchersFault};
use mt_workflow::Workflow;

/// Drops some tables, in the order named. It takes no memory.
fn drop_tables(primary: &mut Primary, tables: &[TableName])
    ensures { primary.new ≡ fold without_table primary.old tables.now }
{
    for table in tables {
        primary.drop_table(table);
    }
}

/// Drops some tables at the first ones of some primaries. It takes no memory.
fn drop_at_first(primaries: &mut [Primary], count: usize, tables: &[TableName])
    requires { count ≤ length primaries.old }
    ensures { primaries.new ≡ changed_to (λ primary. fold without_table primary tables.now) count primaries.old }
{
    for index in 0..count {
        drop_tables(&mut primaries[index], tables);
    }
}

/// Drops some tables at all primaries of a keyspace, in the order named. It takes no memory.
pub(crate) fn drop_at(primaries: &mut Primaries, keyspace: &KeyspaceName, tables: &[TableName])
    requires { has_primaries primaries.old keyspace.now ≡ true }
    ensures { primaries.new ≡ with_all primaries.old keyspace.now (λ primary. fold without_table primary tables.now) }
{
    let place = place_of(primaries, keyspace);
    let each = primaries.all_mut(place);
    drop_at_first(each, each.len(), tables);
}

/// Makes some tables, none of which is there, in the order named. `F0 Memory`, which leaves none of them.
fn make_tables(primary: &mut Primary, tables: &[TableName]) -> Result<(), Reason>
    requires distinct { AllPairs ◌≢◌ tables.now }
    requires absent { (table : List ℕ) → among tables.now table ≡ true → has_table primary.old table ≡ false }
    ensures made { OnOk result (primary.new ≡ fold with_new_table primary.old tables.now) }
    ensures memory { IfErr result (λ reason. reason ≡ Reason.Memory) }
    ensures unchanged { OnErr result (primary.new ≡ primary.old) }
{
    for index in 0..tables.len() {
        if primary.create_table(&tables[index]).is_err() {
            drop_tables(primary, &tables[..index]);
            return Err(Reason::Memory);
        }
    }
    Ok(())
}

/// Makes some tables at each of some primaries, where none of them is. `F0 Memory`, which leaves none of them anywhere.
fn make_at_each(primaries: &mut [Primary], tables: &[TableName]) -> Result<(), Reason>
    requires distinct { AllPairs ◌≢◌ tables.now }
    requires absent { (shard : ℕ) → shard < length primaries.old → (table : List ℕ) → among tables.now table ≡ true → has_table (slice_index_or primaries.old shard empty_primary) table ≡ false }
    ensures made { OnOk result (primaries.new ≡ map (λ primary. fold with_new_table primary tables.now) primaries.old) }
    ensures memory { IfErr result (λ reason. reason ≡ Reason.Memory) }
    ensures unchanged { OnErr result (primaries.new ≡ primaries.old) }
{
    for index in 0..primaries.len() {
        if make_tables(&mut primaries[index], tables).is_err() {
            drop_at_first(primaries, index, tables);
            return Err(Reason::Memory);
        }
    }
    Ok(())
}

/// Each primary of a workflow's target takes over what a notice tells of its tables' denials. It takes no memory.
fn take_denied(primaries: &mut [Primary], workflow: &Workflow, notice: &Notice)
    ensures { primaries.new ≡ map (with_denials (told_by_refresh workflow.now.target notice.now workflow.now.tables)) primaries.old }
{
    workflow.facts();
    for index in 0..primaries.len() {
        primaries[index].take_denied(workflow.target(), notice, workflow.tables());
    }
}

/// Makes the tables of a new workflow at all primaries of its target, asks their watchers once with a change, and each primary takes
/// over what they tell of the tables' denials. `F0 Memory`, then `F23 WatcherRefused`; a refusal leaves all primaries as they were.
/// (Vitess: RefreshState)
pub(crate) fn make_target<W: Asks>(
    primaries: &mut [Primary],
    watchers: &W,
    workflow: &Workflow,
    change: &Change,
) -> Result<(), Reason>
    requires absent { (shard : ℕ) → shard < length primaries.old → (table : List ℕ) → among workflow.now.tables table ≡ true → has_table (slice_index_or primaries.old shard empty_primary) table ≡ false }
    ensures { MakesTarget (W.scopes watchers.now) (W.may_answer watchers.now) workflow.now change.now primaries.old result primaries.new }
{
    workflow.facts();
    make_at_each(primaries, workflow.tables())?;
    match watchers.ask(&Scope::Primary(workflow.target().copied()), change) {
        Ok(notice) => {
            take_denied(primaries, workflow, &notice);
            Ok(())
        }
        Err(fault) => {
            drop_at_first(primaries, primaries.len(), workflow.tables());
            Err(refusal_by_watchers(fault))
        }
    }
}

/// Why the controller refuses an event for a refusal of the watchers.
fn refusal_by_watchers(fault: WatchersFault) -> Reason
    ensures { result ≡ refusal_by_watchers fault }
{
    match fault {
        WatchersFault::Refused(index) => Reason::WatcherRefused(index),
        WatchersFault::NoWatcher => Reason::NoWatcher,
        WatchersFault::Memory | WatchersFault::Full => Reason::Memory,
    }
}
