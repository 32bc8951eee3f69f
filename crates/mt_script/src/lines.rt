//! Lines of a script.
ghost use Rattle.std.specs.Prelude.{◌≡◌};
ghost use Rattle.std.specs.List.{list_all};
ghost use Rattle.mt_plain.specs.Script.{is_blank, is_silent, read_line};
ghost use Rattle.mt_script.specs.Lines.{line_from};

use crate::commands::read_command;
use crate::ops::OpText;
use crate::qualified::QualifiedName;
use crate::words::{is_blank, is_readable};
use mt_names::Position;
use mt_workflow::Slot;
use std::str;

/// The longest line that is read, in bytes, without its line end.
pub const MAX_LINE_LENGTH: usize = 4096;

/// The text of an unsharded keyspace's one range, and of its list of shards.
pub const UNSHARDED: &str = "-";

/// What is asked of a row.
#[derive(Debug, Drop)]
pub enum RowAsked<'a> {
    /// `insert NAME N V`, or `update`, `append`, `delete`: an operation changes it.
    Write(OpText<'a>),
    /// `get NAME N`: the row of a key is read.
    Read(u64),
}

/// What is asked for of a workflow that is there, W in what follows. Tablet types stand as they are written.
#[derive(Clone, Copy, Debug)]
pub enum WorkflowAsked<'a> {
    /// `advance W STREAM AT MAX`: a stream of the workflow copies rows or reads entries.
    Advance(AdvanceWords<'a>),
    /// `begin-switch W TYPES`: begins to switch the traffic of these types to the target.
    BeginSwitch(&'a str),
    /// `begin-reverse W TYPES`: begins to send the traffic of these types back to the source.
    BeginReverse(&'a str),
    /// `step W N`: does the next step of the switch or reversal that is open, of which N stand done.
    Step(u64),
    /// `undo W N`: undoes the last step of it, of which N stand done.
    Undo(u64),
    /// `switch W TYPES`: switches the traffic of these types to the target, step by step to its end, or gives it up.
    Switch(&'a str),
    /// `reverse W TYPES`: sends the traffic of these types back to the source, step by step to its end, or gives it up.
    Reverse(&'a str),
    /// `cancel W`: takes a workflow back.
    Cancel,
    /// `complete W`: ends a workflow whose traffic is switched as a whole.
    Complete,
    /// `show W`: tells of a workflow.
    Show,
}

/// What a line says that advances a stream of a workflow. The stream is `forward/RANGE` or `back/RANGE`.
#[derive(Clone, Copy, Debug)]
pub struct AdvanceWords<'a> {
    /// Which of the two streams of its shard it is.
    pub stream: Slot,
    /// The key range of its shard. Where none is written, this is `-`, that of an unsharded target.
    pub range: &'a str,
    /// The position at which it is expected.
    pub at: Position,
    /// How many rows or entries at most.
    pub max: u16,
}

/// What a line says that makes a workflow.
#[derive(Clone, Copy, Debug)]
pub struct CreateWords<'a> {
    /// The workflow.
    pub workflow: &'a str,
    /// Where its tables are.
    pub source: &'a str,
    /// Where it moves them to.
    pub target: &'a str,
    /// The list of the tables.
    pub tables: &'a str,
}

/// Why a line is refused before its names are read.
#[derive(Clone, Copy, Debug, Eq, PartialEq)]
pub enum LineRefusal {
    /// The line is no command: an unknown word, a wrong number of words, a bad number or value, a bad byte.
    BadLine,
    /// The line has more than 4,096 bytes.
    TooLong,
}

/// What a line says. Names stand as they are written: who does what a line asks for reads them, from left to right.
#[derive(Debug, Drop)]
pub enum Line<'a> {
    /// Nothing: it is empty, of spaces and tabs alone, or a comment, which begins with `#`.
    Silent,
    /// It is refused.
    Refused(LineRefusal),
    /// A row is written or read where a name leads.
    Row(&'a str, RowAsked<'a>),
    /// `at K.T insert N V`, or another verb of a row: it is written or read in the table of the keyspace, without a look-up.
    At(QualifiedName<'a>, RowAsked<'a>),
    /// Something is asked for of a workflow, which is named.
    Workflow(&'a str, WorkflowAsked<'a>),
    /// `create W S T TABLES`: makes a workflow that moves tables from S to T.
    Create(CreateWords<'a>),
    /// `keyspace K SHARDS`: makes a keyspace with shards of these ranges. Without them it is unsharded, `-`.
    Keyspace(&'a str, &'a str),
    /// `table K T`: makes a table in a keyspace.
    Table(&'a str, &'a str),
    /// `rule KEY TARGET`: sets a routing rule, or takes it away where the target is `-`.
    Rule(&'a str, &'a str),
    /// `rules`: the document of the routing rules.
    Rules,
    /// `dump`: the document of the whole topology.
    Dump,
}

/// Whether a line writes nothing.
fn is_silent(line: &[u8]) -> bool
    ensures { result ≡ is_silent line.now }
{
    line.starts_with(b"#") || is_all_blank(line)
}

fn is_all_blank(line: &[u8]) -> bool
    ensures { result ≡ list_all is_blank line.now }
{
    line.iter().all(|&byte| is_blank(byte))
}

/// Reads a line: what it says, or its first fault. The length is tested before the bytes, and these before the words.
#[inline(always)]
pub fn read(line: &[u8]) -> Line<'_>
    ensures { line_from result ≡ read_line line.now }
{
    if is_silent(line) {
        return Line::Silent;
    }
    if line.len() > MAX_LINE_LENGTH {
        return Line::Refused(LineRefusal::TooLong);
    }
    if !is_readable(line) {
        return Line::Refused(LineRefusal::BadLine);
    }
    // a readable line is ASCII
    let text = unsafe { str::from_utf8_unchecked(line) };
    read_command(text).unwrap_or(Line::Refused(LineRefusal::BadLine))
}
