//! Reading a dump.
ghost use Rattle.std.specs.Prelude.{◌≡◌, codes, option_map, option_and_then, Err};
ghost use Rattle.std.specs.Option.{option_map_or};
ghost use Rattle.serde_json.specs.Find.{as_number, get};
ghost use Rattle.serde_json.specs.View.{view};
ghost use Rattle.mt_rules.specs.Member.{rules_in};
ghost use Rattle.mt_keyspace.specs.Load.{IsUnlessMemory, or_bad_dump};
ghost use Rattle.mt_topology.specs.Dump.{joined, topology_of_text, unless_many, version_from, whole_topology, within_limits};

use mt_keyspace::{DumpVersion, Keyspaces, drafts_in, is_too_large, settled};
use mt_model::TopologyFault;
use mt_rules::{RoutingRules, RulesFault};
use serde_json::Value;
use std::alloc::Global;

/// The rules of a document, or none where there are too many.
fn rules_in(alloc: Global, member: Option<&Value>) -> Result<Option<RoutingRules>, TopologyFault>
    ensures { IsUnlessMemory result (or_bad_dump (option_map unless_many (rules_in (option_map (λ v. view v.now) member.entry)))) }
{
    match RoutingRules::from_member(alloc, member) {
        Ok(rules) => Ok(Some(rules)),
        Err(RulesFault::Full) => Ok(None),
        Err(RulesFault::Memory) => Err(TopologyFault::Memory),
        Err(_) => Err(TopologyFault::BadDump),
    }
}

/// The version that a document is of, if it is one that is read.
fn version_of(document: &Value) -> Option<DumpVersion>
    ensures { result ≡ version_from (option_and_then as_number (get (codes "version") (view document.now))) }
{
    match document.get("version").and_then(Value::as_u64) {
        Some(1) => Some(DumpVersion::One),
        Some(2) => Some(DumpVersion::Two),
        _ => None,
    }
}

/// The rules and the keyspaces that a document tells. A limit is told last.
fn parts_of_value(
    alloc: Global,
    document: &Value,
) -> Result<(RoutingRules, Keyspaces), TopologyFault>
    ensures { IsUnlessMemory (joined result) (option_map_or within_limits (whole_topology (view document.now)) (Err TopologyFault.BadDump)) }
{
    let Some(version) = version_of(document) else {
        return Err(TopologyFault::BadDump);
    };
    let rules = rules_in(alloc, document.get("rules"))?;
    let drafts = drafts_in(alloc, version, document)?;
    let Some(rules) = rules else {
        return Err(TopologyFault::Full);
    };
    if is_too_large(&drafts) {
        return Err(TopologyFault::Full);
    }
    let keyspaces = settled(alloc, drafts)?;
    Ok((rules, keyspaces))
}

/// The rules and the keyspaces that a text tells.
pub fn parts_of_text(alloc: Global, text: &[u8]) -> Result<(RoutingRules, Keyspaces), TopologyFault>
    ensures { IsUnlessMemory (joined result) (topology_of_text text.now) }
{
    match mt_rules::value_of_text(alloc, text) {
        Ok(document) => parts_of_value(alloc, &document),
        Err(RulesFault::Memory) => Err(TopologyFault::Memory),
        Err(_) => Err(TopologyFault::BadDump),
    }
}
