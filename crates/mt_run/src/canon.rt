//! Documents that are read, and written in their canonical form.
ghost use Rattle.std.specs.Prelude.{◌≡◌, ◌⊎◌, ℕ, Bool, List, IfErr, IfOk, true, false, string_bytes};
ghost use Rattle.mt_model.specs.Faults.{topology_fault_text};
ghost use Rattle.mt_rules.specs.Rules.{rules_fault_text};
ghost use Rattle.mt_plain.specs.Output.{refused_text};
ghost use Rattle.mt_run.specs.Canon.{IsCanon, WritesCanon, WritesLine, dump_canon, rules_canon};

use mt_model::TopologyFault;
use mt_rules::{RoutingRules, RulesFault};
use mt_script::{ScriptFault, read_script, write_line};
use mt_topology::Topology;
use std::alloc::Global;
use std::io::{Read, Write};

/// What becomes of a document that was read.
#[derive(Drop)]
enum Canon {
    /// It is taken, and this is its canonical form.
    Taken(String),
    /// It is refused, with this text.
    Refused(&'static str),
    /// There was no memory for it.
    NoMemory,
}

/// The canonical form of a text of rules.
fn canonical_rules(alloc: Global, text: &[u8]) -> Result<String, RulesFault>
    ensures taken { IfOk result (λ written. rules_canon text.now ≡ (string_bytes written, true)) }
    ensures refused { IfErr result (λ fault. (fault ≡ RulesFault.Memory) ⊎ (rules_canon text.now ≡ (refused_text (rules_fault_text fault), false))) }
{
    let rules = RoutingRules::from_json(alloc, text)?;
    rules.to_json(alloc)
}

/// What becomes of a text of rules.
fn rules_canon(alloc: Global, text: &[u8]) -> Canon
    ensures { IsCanon (rules_canon text.now) result }
{
    match canonical_rules(alloc, text) {
        Ok(text) => Canon::Taken(text),
        Err(RulesFault::Memory) => Canon::NoMemory,
        Err(fault) => Canon::Refused(fault.as_str()),
    }
}

/// The canonical form of a text of a dump.
fn canonical_dump(alloc: Global, text: &[u8]) -> Result<String, TopologyFault>
    ensures taken { IfOk result (λ written. dump_canon text.now ≡ (string_bytes written, true)) }
    ensures refused { IfErr result (λ fault. (fault ≡ TopologyFault.Memory) ⊎ (dump_canon text.now ≡ (refused_text (topology_fault_text fault), false))) }
{
    let topology = Topology::load(alloc, text)?;
    topology.dump(alloc)
}

/// What becomes of a text of a dump.
fn dump_canon(alloc: Global, text: &[u8]) -> Canon
    ensures { IsCanon (dump_canon text.now) result }
{
    match canonical_dump(alloc, text) {
        Ok(text) => Canon::Taken(text),
        Err(TopologyFault::Memory) => Canon::NoMemory,
        Err(fault) => Canon::Refused(fault.as_str()),
    }
}

/// Writes what became of a document in a line: true of its canonical form, false of its refusal.
fn write_canon<W: Write>(writer: &mut W, canon: Canon) -> Result<bool, ScriptFault>
    ensures { (due : List ℕ × Bool) → IsCanon due canon → WritesLine due (W.contents writer.old) (W.contents writer.new) result }
{
    match canon {
        Canon::Taken(text) => {
            write_line(writer, b"", text.as_bytes())?;
            Ok(true)
        }
        Canon::Refused(refusal) => {
            write_line(writer, b"refused ", refusal.as_bytes())?;
            Ok(false)
        }
        Canon::NoMemory => Err(ScriptFault::Memory),
    }
}

/// Reads a rule document, and writes its canonical form in a line, or the refusal of the document: false if it is refused,
/// as `refused R2 NotJson`. The document is read whole, under a script's limits on bytes and reads, of 1,048,576 bytes at
/// most. After `Read`, `TooLong` and `Memory` nothing was written, after `Write` a beginning of the line.
pub fn canon_rules<R: Read, W: Write>(
    alloc: Global,
    reader: &mut R,
    writer: &mut W,
) -> Result<bool, ScriptFault>
    ensures { WritesCanon rules_canon (R.remaining reader.old) (R.remaining reader.new) (W.contents writer.old) (W.contents writer.new) result }
{
    let text = read_script(alloc, reader)?;
    write_canon(writer, rules_canon(alloc, &text))
}

/// Reads a dump of a topology, and writes its canonical form in a line, or the refusal of the dump: false if it is
/// refused, as `refused T6 BadDump`. Limits and faults are those of `canon_rules`.
pub fn canon_dump<R: Read, W: Write>(
    alloc: Global,
    reader: &mut R,
    writer: &mut W,
) -> Result<bool, ScriptFault>
    ensures { WritesCanon dump_canon (R.remaining reader.old) (R.remaining reader.new) (W.contents writer.old) (W.contents writer.new) result }
{
    let text = read_script(alloc, reader)?;
    write_canon(writer, dump_canon(alloc, &text))
}
