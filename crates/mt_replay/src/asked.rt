//! What a line asks for. Besides the lines of a script there are six that none has: `owed`, how many events are
//! owed to the live workflows; `leads NAME`, where a name leads; `log K` and `log K RANGE`, the position of the
//! first entry that the log of a keyspace's first shard keeps, or of the shard of this range, and that of its end;
//! `shard N advance ..`, an advance in the shard at this place; `N times LINE`, a line again and again; and
//! `without memory`, behind which no line needs any.

use crate::told::Told;
use mt_event::Event;
use mt_names::{
    KeyRange, KeyspaceName, NameFault, RuleKey, RuleTarget, ShardList, TableName, TabletType,
    TypeSet, WorkflowName, table_list,
};
use mt_script::{AdvanceWords, CreateWords, Line, QualifiedName, RowAsked, WorkflowAsked, read};

/// What a line asks for.
#[derive(Drop)]
pub enum Asked<'a> {
    /// An event that the line says whole.
    Event(Event),
    /// A row where a name leads.
    Row(RuleKey, RowAsked<'a>),
    /// An advance of a stream in the shard of a range.
    Advance(WorkflowName, KeyRange, AdvanceWords<'a>),
    /// A whole switch, or with `true` a whole reversal.
    Drive(WorkflowName, TypeSet, bool),
    /// The document of the rules.
    Rules,
    /// The document of the topology.
    Dump,
    /// How many events are owed.
    Owed,
    /// Where a name leads.
    Leads(RuleKey),
    /// What the log of a shard keeps: of a keyspace's first one, or of that of a range.
    Log(KeyspaceName, Option<KeyRange>),
    /// No line behind needs memory.
    WithoutMemory,
    /// Nothing: it is refused before that.
    Refused(Told),
}

/// A line that a script hasn't; none if it is none of these.
fn read_own(line: &str) -> Result<Option<Asked<'_>>, NameFault> {
    if line == "owed" {
        return Ok(Some(Asked::Owed));
    }
    if line == "without memory" {
        return Ok(Some(Asked::WithoutMemory));
    }
    if let Some(name) = line.strip_prefix("leads ") {
        return Ok(Some(Asked::Leads(RuleKey::parse(name)?)));
    }
    if let Some(words) = line.strip_prefix("shard ") {
        return read_shard(words);
    }
    match line.strip_prefix("log ") {
        Some(words) => Ok(Some(read_log(words)?)),
        None => Ok(None),
    }
}

/// What stands behind `shard`.
fn read_shard(words: &str) -> Result<Option<Asked<'_>>, NameFault> {
    let Some((place, line)) = words.split_once(' ') else {
        return Ok(None);
    };
    match (place.parse::<u8>(), read(line.as_bytes())) {
        (Ok(shard), Line::Workflow(name, WorkflowAsked::Advance(words))) => {
            let workflow = WorkflowName::parse(name)?;
            Ok(Some(Asked::Event(advance_at(&workflow, &words, shard))))
        }
        _ => Ok(None),
    }
}

/// What stands behind `log`.
fn read_log(words: &str) -> Result<Asked<'_>, NameFault> {
    match words.split_once(' ') {
        Some((keyspace, range)) => {
            let keyspace = KeyspaceName::parse(keyspace)?;
            Ok(Asked::Log(keyspace, Some(KeyRange::parse(range)?)))
        }
        None => Ok(Asked::Log(KeyspaceName::parse(words)?, None)),
    }
}

/// What a line asks for, whose names are read from left to right.
fn read_line(line: &str) -> Result<Asked<'_>, NameFault> {
    if let Some(own) = read_own(line)? {
        return Ok(own);
    }
    match read(line.as_bytes()) {
        Line::Silent => Ok(Asked::Refused(Told::of_text(b""))),
        Line::Refused(refusal) => Ok(Asked::Refused(Told::of_line(refusal))),
        Line::Row(name, asked) => Ok(Asked::Row(RuleKey::parse(name)?, asked)),
        Line::Workflow(name, asked) => read_workflow(name, asked),
        Line::Rules => Ok(Asked::Rules),
        Line::Dump => Ok(Asked::Dump),
        Line::At(name, asked) => Ok(Asked::Event(row_at(&name, &asked)?)),
        Line::Create(words) => Ok(Asked::Event(create(words)?)),
        Line::Keyspace(name, shards) => Ok(Asked::Event(Event::AddKeyspace {
            keyspace: KeyspaceName::parse(name)?,
            shards: ShardList::parse(shards)?,
        })),
        Line::Table(keyspace, name) => Ok(Asked::Event(Event::AddTable {
            keyspace: KeyspaceName::parse(keyspace)?,
            table: TableName::parse(name)?,
        })),
        Line::Rule(key, target) => Ok(Asked::Event(edit_rule(key, target)?)),
    }
}

/// What a line asks for.
pub fn asked_by(line: &str) -> Asked<'_> {
    match read_line(line) {
        Ok(asked) => asked,
        Err(fault) => Asked::Refused(Told::of_name(fault)),
    }
}

/// The edit of a rule, which `-` takes away.
fn edit_rule(key: &str, target: &str) -> Result<Event, NameFault> {
    let key = RuleKey::parse(key)?;
    let target = match target {
        "-" => None,
        target => Some(RuleTarget::parse(target)?),
    };
    Ok(Event::EditRule { key, target })
}

/// A write or a read of a row of a table in its keyspace.
fn row_at(name: &QualifiedName<'_>, asked: &RowAsked<'_>) -> Result<Event, NameFault> {
    let (RuleTarget { keyspace, table }, type_of) = name.parse()?;
    match asked {
        RowAsked::Write(text) => Ok(Event::Write {
            keyspace,
            table,
            op: text.op(),
        }),
        RowAsked::Read(key) => Ok(Event::Read {
            keyspace,
            table,
            key: *key,
            type_of,
        }),
    }
}

/// The making of a workflow.
fn create(words: CreateWords<'_>) -> Result<Event, NameFault> {
    let workflow = WorkflowName::parse(words.workflow)?;
    let source = KeyspaceName::parse(words.source)?;
    let target = KeyspaceName::parse(words.target)?;
    match table_list(words.tables) {
        Ok(tables) => Ok(Event::Create {
            workflow,
            source,
            target,
            tables,
        }),
        Err(fault) => Err(fault),
    }
}

/// What is asked for of a workflow that is there.
fn read_workflow<'a>(name: &str, asked: WorkflowAsked<'a>) -> Result<Asked<'a>, NameFault> {
    let workflow = WorkflowName::parse(name)?;
    match asked {
        WorkflowAsked::Advance(words) => {
            let range = KeyRange::parse(words.range)?;
            Ok(Asked::Advance(workflow, range, words))
        }
        WorkflowAsked::Switch(types) => {
            Ok(Asked::Drive(workflow, TypeSet::parse(types)?, false))
        }
        WorkflowAsked::Reverse(types) => Ok(Asked::Drive(workflow, TypeSet::parse(types)?, true)),
        WorkflowAsked::BeginSwitch(types) => Ok(Asked::Event(Event::BeginSwitch {
            workflow,
            types: TypeSet::parse(types)?,
        })),
        WorkflowAsked::BeginReverse(types) => Ok(Asked::Event(Event::BeginReverse {
            workflow,
            types: TypeSet::parse(types)?,
        })),
        WorkflowAsked::Step(at) => Ok(Asked::Event(Event::Step { workflow, at })),
        WorkflowAsked::Undo(at) => Ok(Asked::Event(Event::Undo { workflow, at })),
        WorkflowAsked::Cancel => Ok(Asked::Event(Event::Cancel { workflow })),
        WorkflowAsked::Complete => Ok(Asked::Event(Event::Complete { workflow })),
        WorkflowAsked::Show => Ok(Asked::Event(Event::Show { workflow })),
    }
}

/// An advance of the stream of a shard by its place.
pub fn advance_at(workflow: &WorkflowName, words: &AdvanceWords<'_>, shard: u8) -> Event {
    Event::Advance {
        workflow: workflow.copied(),
        stream: words.stream,
        shard,
        at: words.at,
        max: words.max,
    }
}

/// What is asked of a row, at the table that a name led to.
pub fn row_there(target: RuleTarget, key: &RuleKey, asked: &RowAsked<'_>) -> Event {
    let RuleTarget { keyspace, table } = target;
    match asked {
        RowAsked::Write(text) => Event::Write {
            keyspace,
            table,
            op: text.op(),
        },
        RowAsked::Read(number) => Event::Read {
            keyspace,
            table,
            key: *number,
            type_of: type_of(key),
        },
    }
}

/// The type that a name is for.
pub fn type_of(key: &RuleKey) -> TabletType {
    key.tablet_type.unwrap_or(TabletType::Primary)
}

/// How often a line is asked, and the line.
pub fn times(line: &str) -> (u64, &str) {
    match line.split_once(" times ") {
        Some((number, line)) => match number.parse::<u64>() {
            Ok(number) => (number, line),
            Err(_) => (1, line),
        },
        None => (1, line),
    }
}
