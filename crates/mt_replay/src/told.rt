//! What is told of a line.
ghost use Rattle.std.specs.Prelude.{◌≡◌, []};

use arrayvec::ArrayVec;
use itoa::Buffer;
use mt_event::{Driven, Reason, Refusal, Reply};
use mt_model::TopologyFault;
use mt_names::{NameFault, RuleKey, TableName};
use mt_script::{
    LineRefusal, LineText, put_answer, put_driven, put_fault, put_look_up, put_refusal,
};
use mt_stream::Advanced;

/// An answer to an event.
pub type Answer = Result<Reply, Refusal>;

/// What stands behind a refusal: the value that it carries, in parentheses.
type Beside = ArrayVec<u8, 160>;

/// What kind of text is told.
#[derive(Clone, Copy, Debug, Eq, PartialEq)]
pub enum Kind {
    /// An answer as any other.
    Plain,
    /// Memory was out: nothing was done.
    Memory,
    /// Memory was out, though nothing needed any.
    Owed,
    /// A watcher refused.
    Watcher,
    /// This road can't ask for it.
    Unasked,
}

/// What is told of a line.
#[derive(Drop)]
pub struct Told {
    /// The line, with its line feed; empty where a document is told.
    line: LineText,
    /// The value that a refusal carries.
    beside: Beside,
    /// The document.
    document: Option<String>,
    /// What an advance did.
    pub advanced: Option<Advanced>,
    /// The kind of text.
    pub kind: Kind,
}

/// A number in parentheses.
fn number_beside(number: u64) -> Beside {
    let mut buffer = Buffer::new();
    text_beside(buffer.format(number).as_bytes())
}

/// A text in parentheses.
fn text_beside(text: &[u8]) -> Beside {
    let mut beside = Beside::new();
    let _fits = beside.try_extend_from_slice(b" (");
    let _fits = beside.try_extend_from_slice(text);
    let _fits = beside.try_extend_from_slice(b")");
    beside
}

/// A rule's key in parentheses.
fn key_beside(key: &RuleKey) -> Beside {
    let text = key.text();
    text_beside(text.as_str().as_bytes())
}

/// A table in parentheses.
fn table_beside(table: &TableName) -> Beside {
    text_beside(table.as_str().as_bytes())
}

/// What stands behind a refusal.
fn beside_of(refusal: &Refusal) -> Beside {
    match refusal {
        Refusal::RuleConflict(key) => key_beside(key),
        Refusal::TargetHasTable(table) => table_beside(table),
        Refusal::Other(Reason::Stale(current)) => number_beside(*current),
        Refusal::Other(Reason::WatcherRefused(index)) => number_beside(*index as u64),
        Refusal::Other(_) => Beside::new(),
    }
}

/// What kind of refusal it is.
fn kind_of(refusal: &Refusal) -> Kind {
    match refusal {
        Refusal::Other(Reason::Memory) => Kind::Memory,
        Refusal::Other(Reason::WatcherRefused(_)) => Kind::Watcher,
        _ => Kind::Plain,
    }
}

impl Told {
    /// Nothing yet.
    fn new(kind: Kind) -> Self
        ensures { result.line.items ≡ [] }
    {
        Told {
            line: LineText::new(),
            beside: Beside::new(),
            document: None,
            advanced: None,
            kind,
        }
    }

    /// This road can't ask for it.
    pub fn unasked() -> Self {
        Told::new(Kind::Unasked)
    }

    /// Memory was out before anything was asked.
    pub fn out_of_memory() -> Self {
        let mut told = Told::new(Kind::Memory);
        let _fits = told.line.try_extend_from_slice(b"out of memory\n");
        told
    }

    /// Memory was out before an event was asked that is owed.
    pub fn out_though_owed() -> Self {
        let mut told = Told::new(Kind::Owed);
        let _fits = told
            .line
            .try_extend_from_slice(b"out of memory, though it is owed\n");
        told
    }

    /// An answer to an event.
    pub fn of_answer(answer: &Answer) -> Self {
        let mut told = Told::new(Kind::Plain);
        put_answer(&mut told.line, answer);
        match answer {
            Ok(Reply::Advanced(advanced)) => told.advanced = Some(*advanced),
            Ok(_) => {}
            Err(refusal) => {
                told.beside = beside_of(refusal);
                told.kind = kind_of(refusal);
            }
        }
        told
    }

    /// How a whole switch or reversal went.
    pub fn of_drive(end: &Result<Driven, Refusal>) -> Self {
        let mut told = Told::new(Kind::Plain);
        put_driven(&mut told.line, end);
        told
    }

    /// Why a name leads nowhere.
    pub fn of_look_up(fault: TopologyFault) -> Self {
        let mut told = Told::new(Kind::Plain);
        put_look_up(&mut told.line, fault);
        told
    }

    /// Why a name is none.
    pub fn of_name(fault: NameFault) -> Self {
        let mut told = Told::new(Kind::Plain);
        put_fault(&mut told.line, fault);
        told
    }

    /// Why a line is none.
    pub fn of_line(refusal: LineRefusal) -> Self {
        let mut told = Told::new(Kind::Plain);
        put_refusal(&mut told.line, refusal);
        told
    }

    /// A text.
    pub fn of_text(text: &[u8]) -> Self {
        let mut told = Told::new(Kind::Plain);
        let _fits = told.line.try_extend_from_slice(text);
        let _fits = told.line.try_extend_from_slice(b"\n");
        told
    }

    /// Two numbers, separated by a space.
    pub fn of_numbers(first: u64, second: u64) -> Self {
        let mut buffer = Buffer::new();
        let mut told = Told::new(Kind::Plain);
        let _fits = told
            .line
            .try_extend_from_slice(buffer.format(first).as_bytes());
        let _fits = told.line.try_extend_from_slice(b" ");
        let _fits = told
            .line
            .try_extend_from_slice(buffer.format(second).as_bytes());
        let _fits = told.line.try_extend_from_slice(b"\n");
        told
    }

    /// A number.
    pub fn of_number(number: u64) -> Self {
        let mut buffer = Buffer::new();
        Told::of_text(buffer.format(number).as_bytes())
    }

    /// A document; memory was out if there is none.
    pub fn of_document(document: Option<String>) -> Self {
        if document.is_none() {
            return Told::out_of_memory();
        }
        let mut told = Told::new(Kind::Plain);
        told.document = document;
        told
    }

    /// What is told, without the line feed and without the value that a refusal carries.
    pub fn text(&self) -> &[u8] {
        match &self.document {
            Some(document) => document.as_bytes(),
            None => match self.line.as_slice() {
                [text @ .., b'\n'] => text,
                text => text,
            },
        }
    }

    /// Whether it is written so; if the value that a refusal carries is written too, whether that is so.
    pub fn is(&self, want: &str) -> bool {
        match want.as_bytes().strip_prefix(self.text()) {
            Some(b"") => true,
            Some(rest) => !self.beside.is_empty() && rest == self.beside.as_slice(),
            None => false,
        }
    }

    /// Whether the same is told.
    pub fn is_same(&self, other: &Told) -> bool {
        self.kind == other.kind
            && self.text() == other.text()
            && self.beside.as_slice() == other.beside.as_slice()
    }

    /// The value that a refusal carries.
    pub fn beside(&self) -> &[u8] {
        self.beside.as_slice()
    }
}
