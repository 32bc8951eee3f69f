//! Writing a dump.
ghost use Rattle.std.specs.Prelude.{◌≡◌, IfOk, string_bytes};
ghost use Rattle.mt_topology.specs.Dump.{topology_of_text};
ghost use Rattle.mt_topology.specs.Says.{HasDeniedTables, Says};
ghost use Rattle.mt_topology.specs.Values.{dump_value};
ghost use Rattle.mt_topology.specs.Versions.{IsUnsharded, dump_text_one};
ghost use Rattle.mt_model.specs.Documents.{dump_text};
ghost use Rattle.serde_json.specs.Written.{compact_text};

use mt_keyspace::Keyspaces;
use mt_rules::RoutingRules;
use std::alloc::{AllocError, Global};

/// The dump of the rules and the keyspaces.
pub fn text_of_parts(
    alloc: Global,
    rules: &RoutingRules,
    keyspaces: &Keyspaces,
) -> Result<String, AllocError>
    ensures text { IfOk result (λ text. string_bytes text ≡ dump_text (record { rules = rules.now; keyspaces = keyspaces.now })) }
    ensures value { IfOk result (λ text. string_bytes text ≡ compact_text (dump_value (record { rules = rules.now; keyspaces = keyspaces.now }))) }
    ensures says { IfOk result (λ text. HasDeniedTables (record { rules = rules.now; keyspaces = keyspaces.now })
        → Says (string_bytes text) (record { rules = rules.now; keyspaces = keyspaces.now })) }
    ensures versions { IfOk result (λ text. IsUnsharded (record { rules = rules.now; keyspaces = keyspaces.now })
        → topology_of_text (dump_text_one (record { rules = rules.now; keyspaces = keyspaces.now })) ≡ topology_of_text (string_bytes text)) }
{
    rules.facts();
    keyspaces.facts();
    let mut text = String::new(alloc);
    text.push_str("{\"denied\":")?;
    keyspaces.push_denials(alloc, &mut text)?;
    text.push_str(",\"keyspaces\":")?;
    keyspaces.push_list(alloc, &mut text)?;
    text.push_str(",\"rules\":")?;
    rules.push_list(alloc, &mut text)?;
    text.push_str(",\"version\":2}")?;
    Ok(text)
}
