//! Writing the document of the rules.
ghost use Rattle.std.specs.Prelude.{◌≡◌, ◌≤◌, length, IfOk, string_bytes};
ghost use Rattle.mt_model.specs.Limits.{most_rules};
ghost use Rattle.mt_model.specs.Documents.{rules_text};
ghost use Rattle.mt_rules.specs.Values.{Says, document_value};
ghost use Rattle.serde_json.specs.Written.{compact_text};

use crate::places::Places;
use crate::text;
use std::alloc::{AllocError, Global};

/// The document of the rules.
pub fn text_of_rules(alloc: Global, places: &Places) -> Result<String, AllocError>
    requires { length places.now ≤ most_rules }
    ensures text { IfOk result (λ text. string_bytes text ≡ rules_text places.now) }
    ensures value { IfOk result (λ text. string_bytes text ≡ compact_text (document_value places.now)) }
    ensures says { IfOk result (λ text. Says (string_bytes text) places.now) }
{
    let rules = text::written_rules(alloc, places)?;
    text::document_of(alloc, &rules)
}
