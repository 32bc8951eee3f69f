//! What stood at the keys of a part.
ghost use Rattle.std.specs.Prelude.{◌≡◌, ◌≢◌, ◌+◌, ◌<◌, ◌++◌};
ghost use Rattle.std.specs.Vec.{vec_capacity, vec_len};
ghost use Rattle.mt_rules.specs.Rules.{lent_rule};
ghost use Rattle.mt_steps.specs.Records.{entries_at_rest, entries_of, found_at_rest, name_at_rest, plain_at_source, rule_recorded, side_mark, table_entries};

use mt_names::{KeyspaceName, RuleKey, RuleTarget, TableName, TypeSet};
use mt_workflow::Workflow;

/// Where the rule that stood at a key led.
#[derive(Clone, Copy, Drop)]
pub(crate) enum RuleMark {
    /// Where the rule that was found there leads, if one was.
    Found,
    /// To the key's table at the source.
    ToSource,
    /// To the key's table at the target.
    ToTarget,
}

/// Where the rules that stood at the four keys of a name led.
#[derive(Clone, Copy, Drop)]
pub(crate) struct NameMarks {
    /// That for all types.
    pub plain: RuleMark,
    /// That for primary.
    pub primary: RuleMark,
    /// That for replica.
    pub replica: RuleMark,
    /// That for rdonly.
    pub rdonly: RuleMark,
}

/// The rules as they were found at the four keys of a name, or none. Each counts with the mark `Found` alone.
#[derive(Drop)]
pub(crate) struct NameRules {
    /// That for all types.
    pub plain: Option<RuleTarget>,
    /// That for primary.
    pub primary: Option<RuleTarget>,
    /// That for replica.
    pub replica: Option<RuleTarget>,
    /// That for rdonly.
    pub rdonly: Option<RuleTarget>,
}

/// What stood at the fifteen keys that a table adds to a part. No rule has names but one that was found.
#[derive(Drop)]
pub(crate) struct TableRecord {
    /// The table.
    pub table: TableName,
    /// Where the rules of its name alone led.
    pub alone: NameMarks,
    /// Where those of its name at the source led.
    pub at_source: NameMarks,
    /// Where those of its name at the target led.
    pub at_target: NameMarks,
    /// Whether the source's primary was to refuse it.
    pub is_denied_at_source: bool,
    /// Whether the target's primary was to refuse it.
    pub is_denied_at_target: bool,
    /// Whether it was there at the target.
    pub is_present: bool,
    /// The rules that were found of its name alone.
    pub found_alone: NameRules,
    /// Those of its name at the source.
    pub found_at_source: NameRules,
    /// Those of its name at the target.
    pub found_at_target: NameRules,
}

/// The names of the keyspace and the table that the rule leads to which stood at a key of a table, if one stood.
pub(crate) fn rule_names<'a>(
    mark: RuleMark,
    found: &'a Option<RuleTarget>,
    source: &'a KeyspaceName,
    target: &'a KeyspaceName,
    table: &'a TableName,
) -> Option<(&'a KeyspaceName, &'a TableName)>
    ensures { lent_rule result ≡ rule_recorded source.now target.now table.now mark found.now }
{
    match mark {
        RuleMark::Found => match found {
            Some(rule) => Some((&rule.keyspace, &rule.table)),
            None => None,
        },
        RuleMark::ToSource => Some((source, table)),
        RuleMark::ToTarget => Some((target, table)),
    }
}

impl RuleMark {
    /// The mark of a rule to a key's table at the target, or at the source.
    fn of_side(is_target: bool) -> Self
        ensures { result ≡ side_mark is_target }
    {
        if is_target {
            RuleMark::ToTarget
        } else {
            RuleMark::ToSource
        }
    }
}

/// Puts what stands at the keys of a table of a workflow, as its part is served at rest, behind other records, which have room for it.
/// It takes no memory. Each of the two ways puts its own record, so that the first, which is the common one, builds it in its place.
pub(crate) fn push_at_rest(records: &mut Vec<TableRecord>, workflow: &Workflow, table: &TableName)
    requires room { vec_len records.old < vec_capacity records.old }
    requires apart { workflow.now.source ≢ workflow.now.target }
    ensures entries { entries_of workflow.now.source workflow.now.target records.new.items
        ≡ entries_of workflow.now.source workflow.now.target records.old.items ++ entries_at_rest workflow.now table.now }
    ensures len { vec_len records.new ≡ vec_len records.old + 1 }
    ensures capacity { vec_capacity records.new ≡ vec_capacity records.old }
{
    if workflow.keeps_nothing() {
        let at_source = if workflow.switched().primary {
            RuleMark::ToTarget
        } else {
            RuleMark::Found
        };
        records.push_reserved(table_at_rest(workflow, table, at_source, None));
    } else {
        records.push_reserved(table_with_kept(workflow, table));
    }
}

/// What stands at the keys of a table where rules from before Create may be kept: as long as the source is the owner, that for all
/// types of its name at the source.
#[inline(never)]
fn table_with_kept(workflow: &Workflow, table: &TableName) -> TableRecord
    requires apart { workflow.now.source ≢ workflow.now.target }
    ensures { table_entries workflow.now.source workflow.now.target result ≡ entries_at_rest workflow.now table.now }
{
    let key = RuleKey {
        keyspace: Some(workflow.source().copied()),
        table: table.copied(),
        tablet_type: None,
    };
    let found = workflow.wanted_rule(&key, workflow.switched());
    table_at_rest(workflow, table, RuleMark::Found, found)
}

/// What stands at the keys of a table, where these tell the rule for all types of its name at the source.
fn table_at_rest(
    workflow: &Workflow,
    table: &TableName,
    at_source: RuleMark,
    found: Option<RuleTarget>,
) -> TableRecord
    requires apart { workflow.now.source ≢ workflow.now.target }
    requires plain { rule_recorded workflow.now.source workflow.now.target table.now at_source found ≡ plain_at_source workflow.now table.now }
    ensures { table_entries workflow.now.source workflow.now.target result ≡ entries_at_rest workflow.now table.now }
{
    let types = workflow.switched();
    let at_target = if types.primary {
        RuleMark::Found
    } else {
        RuleMark::ToSource
    };
    TableRecord {
        table: table.copied(),
        alone: name_at_rest(types, RuleMark::of_side(types.primary)),
        at_source: name_at_rest(types, at_source),
        at_target: name_at_rest(types, at_target),
        is_denied_at_source: types.primary,
        is_denied_at_target: !types.primary,
        is_present: true,
        found_alone: found_at_rest(None),
        found_at_source: found_at_rest(found),
        found_at_target: found_at_rest(None),
    }
}

/// Where the rules at the keys of a name lead, with that for all types.
fn name_at_rest(types: TypeSet, plain: RuleMark) -> NameMarks
    ensures { result ≡ name_at_rest types plain }
{
    NameMarks {
        plain,
        primary: RuleMark::Found,
        replica: RuleMark::of_side(types.replica),
        rdonly: RuleMark::of_side(types.rdonly),
    }
}

/// The rules that are found at the keys of a name: one for all types, or none.
fn found_at_rest(plain: Option<RuleTarget>) -> NameRules
    ensures { result ≡ found_at_rest plain }
{
    NameRules {
        plain,
        primary: None,
        replica: None,
        rdonly: None,
    }
}
