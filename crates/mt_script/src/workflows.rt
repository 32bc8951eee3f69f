//! Commands on workflows.
ghost use Rattle.std.specs.Prelude.{◌≡◌, true, option_map, unwrap_or};
ghost use Rattle.mt_names.specs.Keys.{after, before};
ghost use Rattle.mt_plain.specs.Script.{command, create, four_words, is_readable, one_shard, read_advance, read_stream, read_workflow_command, slash, words_of};
ghost use Rattle.mt_workflow.specs.Workflows.{stream_name};
ghost use Rattle.mt_script.specs.Lines.{line_from};

use crate::lines::{AdvanceWords, CreateWords, Line, UNSHARDED, WorkflowAsked};
use crate::numbers::{read_number, read_small_number};
use crate::words::{four_words, one_word, two_words};
use mt_workflow::Slot;

/// Reads which stream is meant: `forward` or `back`.
fn read_stream(word: &str) -> Option<Slot>
    ensures { option_map stream_name result ≡ read_stream word.now }
{
    match word {
        "forward" => Some(Slot::Forward),
        "back" => Some(Slot::Back),
        _ => None,
    }
}

/// The word of a stream, and the range behind it: that of an unsharded keyspace where none is written.
fn cut_range(word: &str) -> (&str, &str)
    ensures stream { result.0.now ≡ before slash word.now }
    ensures range { result.1.now ≡ unwrap_or (after slash word.now) one_shard }
{
    match word.split_once('/') {
        Some((stream, range)) => (stream, range),
        None => (word, UNSHARDED),
    }
}

/// Reads what stands behind `create`: the workflow, the source, the target, the tables.
fn create_command(words: &str) -> Option<Line<'_>>
    requires { is_readable words.now ≡ true }
    ensures { option_map line_from result ≡ option_map command (option_map (λ w. create w.0 w.1 w.2 w.3) (four_words (words_of words.now))) }
{
    let (workflow, source, target, tables) = four_words(words)?;
    Some(Line::Create(CreateWords {
        workflow,
        source,
        target,
        tables,
    }))
}

/// Reads what stands behind `advance`: the workflow, the stream, the position, how many at most.
fn advance_command(words: &str) -> Option<Line<'_>>
    requires { is_readable words.now ≡ true }
    ensures { option_map line_from result ≡ option_map command (read_advance (words_of words.now)) }
{
    let (workflow, stream, at, max) = four_words(words)?;
    let (stream, range) = cut_range(stream);
    let stream = read_stream(stream)?;
    let at = read_number(at)?;
    let max = read_small_number(max)?;
    let words = AdvanceWords {
        stream,
        range,
        at,
        max,
    };
    Some(Line::Workflow(workflow, WorkflowAsked::Advance(words)))
}

/// Reads a command on a workflow, behind its verb.
pub fn workflow_command<'a>(verb: &str, words: &'a str) -> Option<Line<'a>>
    requires { is_readable words.now ≡ true }
    ensures { option_map line_from result ≡ option_map command (read_workflow_command verb.now (words_of words.now)) }
{
    match verb {
        "create" => create_command(words),
        "advance" => advance_command(words),
        "begin-switch" => {
            let (workflow, types) = two_words(words)?;
            Some(Line::Workflow(workflow, WorkflowAsked::BeginSwitch(types)))
        }
        "begin-reverse" => {
            let (workflow, types) = two_words(words)?;
            Some(Line::Workflow(workflow, WorkflowAsked::BeginReverse(types)))
        }
        "step" => {
            let (workflow, at) = two_words(words)?;
            Some(Line::Workflow(workflow, WorkflowAsked::Step(read_number(at)?)))
        }
        "undo" => {
            let (workflow, at) = two_words(words)?;
            Some(Line::Workflow(workflow, WorkflowAsked::Undo(read_number(at)?)))
        }
        "switch" => {
            let (workflow, types) = two_words(words)?;
            Some(Line::Workflow(workflow, WorkflowAsked::Switch(types)))
        }
        "reverse" => {
            let (workflow, types) = two_words(words)?;
            Some(Line::Workflow(workflow, WorkflowAsked::Reverse(types)))
        }
        "cancel" => Some(Line::Workflow(one_word(words)?, WorkflowAsked::Cancel)),
        "complete" => Some(Line::Workflow(one_word(words)?, WorkflowAsked::Complete)),
        "show" => Some(Line::Workflow(one_word(words)?, WorkflowAsked::Show)),
        _ => None,
    }
}
