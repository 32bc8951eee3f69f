//! What is to be written so that places say what routes say.
ghost use Rattle.std.specs.Prelude.{◌≡◌, ◌++◌, ◌∷◌, [], ℕ, List, IfOk, OnOk, filter, flat_map, is_some, not};
ghost use Rattle.mt_model.specs.declared.entries.Entry.{Entry};
ghost use Rattle.mt_names.specs.declared.keys.RuleKey.{RuleKey};
ghost use Rattle.mt_routes.specs.Differences.{AreDifferences, differences, is_said, rule_gone, table_gone, tables_gone};
ghost use Rattle.mt_routes.specs.LookUp.{is_listed, target_in};
ghost use Rattle.mt_routes.specs.Places.{Agrees, AreRoutes};
ghost use Rattle.mt_routes.specs.Turns.{AreInTurn};

use crate::Places;
use crate::holders::Holders;
use crate::turn::turn_of;
use indexmap::IndexMap;
use mt_model::Entry;
use mt_names::{KeyspaceName, RuleKey, RuleTarget, TableName};
use std::alloc::{AllocError, Global};

/// What can be asked which keys have a rule, and which keyspaces have a table.
pub trait Standing {
    ghost use Rattle.std.specs.Prelude.{Bool, List, ℕ};
    ghost use Rattle.mt_names.specs.declared.keys.RuleKey.{RuleKey};

    ghost rules: { Self → RuleKey → Bool };

    ghost tables: { Self → List ℕ → List ℕ → Bool };

    /// Whether a key has a rule.
    fn has_rule(&self, key: &RuleKey) -> bool
        ensures { result ≡ rules self.now key.now };

    /// Whether a keyspace has a table.
    fn has_table(&self, keyspace: &KeyspaceName, table: &TableName) -> bool
        ensures { result ≡ tables self.now keyspace.now table.now };
}

impl Places {
    /// What is to be written so that these places say what some routes say: see `Told::differences`.
    pub(crate) fn differences<S: Standing>(
        &self,
        alloc: Global,
        standing: &S,
        routes: &[Entry],
    ) -> Result<Vec<Entry>, AllocError>
        requires routes { AreRoutes routes.now }
        requires rules { (key : RuleKey) → S.rules standing.now key ≡ is_some (target_in routes.now key) }
        requires tables { (keyspace table : List ℕ) → S.tables standing.now keyspace table ≡ is_listed routes.now keyspace table }
        ensures entries { IfOk result (λ list. (before : List Entry) → Agrees self.now before → AreDifferences before routes.now list.items) }
        ensures order { IfOk result (λ list. AreInTurn list.items) }
    {
        self.facts();
        let mut list = Vec::new(alloc);
        self.push_differences(standing, routes, &mut list)?;
        list.sort_unstable_by_key(|entry| turn_of(entry));
        Ok(list)
    }

    /// Adds these entries to a list, in no order. Where no memory is left, it has some of them.
    fn push_differences<S: Standing>(
        &self,
        standing: &S,
        routes: &[Entry],
        list: &mut Vec<Entry>,
    ) -> Result<(), AllocError>
        ensures { OnOk result (list.new.items ≡ list.old.items ++ differences (S.rules standing.now) (S.tables standing.now) self.now routes.now) }
    {
        push_rules_gone(self.rules(), standing, list)?;
        push_tables_gone(self.tables(), standing, list)?;
        self.push_unsaid(routes, list)
    }

    /// Adds the routes that aren't said.
    fn push_unsaid(&self, routes: &[Entry], list: &mut Vec<Entry>) -> Result<(), AllocError>
        ensures { OnOk result (list.new.items ≡ list.old.items ++ filter (λ e. not (is_said self.now e)) routes.now) }
    {
        for route in routes {
            if !self.says(route) {
                push(list, route.copied())?;
            }
        }
        Ok(())
    }
}

/// Adds an entry.
fn push(list: &mut Vec<Entry>, entry: Entry) -> Result<(), AllocError>
    ensures { OnOk result (list.new.items ≡ list.old.items ++ entry ∷ []) }
{
    match list.push(entry) {
        Ok(()) => Ok(()),
        Err(_) => Err(AllocError),
    }
}

/// Adds the rules that are to be taken away.
fn push_rules_gone<S: Standing>(
    rules: &IndexMap<RuleKey, Option<RuleTarget>>,
    standing: &S,
    list: &mut Vec<Entry>,
) -> Result<(), AllocError>
    ensures { OnOk result (list.new.items ≡ list.old.items ++ flat_map (rule_gone (S.rules standing.now)) rules.now.entries) }
{
    for (key, rule) in rules.iter() {
        if rule.is_some() && !standing.has_rule(key) {
            push(list, Entry::Rule(key.copied(), None))?;
        }
    }
    Ok(())
}

/// Adds the tables that are to be taken away.
fn push_tables_gone<S: Standing>(
    tables: &IndexMap<TableName, Holders>,
    standing: &S,
    list: &mut Vec<Entry>,
) -> Result<(), AllocError>
    ensures { OnOk result (list.new.items ≡ list.old.items ++ flat_map (tables_gone (S.tables standing.now)) tables.now.entries) }
{
    for (table, holders) in tables.iter() {
        push_table_gone(table, holders.as_slice(), standing, list)?;
    }
    Ok(())
}

/// Adds that a table is to be taken away from each keyspace that hasn't it any more.
fn push_table_gone<S: Standing>(
    table: &TableName,
    holders: &[KeyspaceName],
    standing: &S,
    list: &mut Vec<Entry>,
) -> Result<(), AllocError>
    ensures { OnOk result (list.new.items ≡ list.old.items ++ flat_map (table_gone (S.tables standing.now) table.now) holders.now) }
{
    for keyspace in holders {
        if !standing.has_table(keyspace, table) {
            push(
                list,
                Entry::Present(keyspace.copied(), table.copied(), false),
            )?;
        }
    }
    Ok(())
}
