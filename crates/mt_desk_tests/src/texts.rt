//! Events and answers as the lines of a script.

use mt_desk::Answer;
use mt_event::Event;
use mt_names::{
    KeyspaceName, RuleKey, RuleTarget, ShardList, TableName, TypeSet, WorkflowName, table_list,
};
use mt_script::{
    AdvanceWords, CreateWords, Line, LineText, QualifiedName, RowAsked, WorkflowAsked, put_answer,
    read,
};

/// The event that a line asks for; none if it asks for none, for several, where a name leads, or in a shard of more than two.
pub fn event_of(line: &str) -> Option<Event> {
    match read(line.as_bytes()) {
        Line::Keyspace(name, shards) => Some(Event::AddKeyspace {
            keyspace: KeyspaceName::parse(name).ok()?,
            shards: ShardList::parse(shards).ok()?,
        }),
        Line::Table(keyspace, name) => Some(Event::AddTable {
            keyspace: KeyspaceName::parse(keyspace).ok()?,
            table: TableName::parse(name).ok()?,
        }),
        Line::Rule(key, target) => edit_rule(key, target),
        Line::At(name, asked) => event_at(&name, asked),
        Line::Create(words) => create(words),
        Line::Workflow(name, asked) => event_asked(name, asked),
        _ => None,
    }
}

/// The edit of a rule, which `-` takes away.
fn edit_rule(key: &str, target: &str) -> Option<Event> {
    let key = RuleKey::parse(key).ok()?;
    let target = match target {
        "-" => None,
        target => Some(RuleTarget::parse(target).ok()?),
    };
    Some(Event::EditRule { key, target })
}

/// A write or a read of a row of a table in its keyspace.
fn event_at(name: &QualifiedName<'_>, asked: RowAsked<'_>) -> Option<Event> {
    let (RuleTarget { keyspace, table }, type_of) = name.parse().ok()?;
    match asked {
        RowAsked::Write(text) => Some(Event::Write {
            keyspace,
            table,
            op: text.op(),
        }),
        RowAsked::Read(key) => Some(Event::Read {
            keyspace,
            table,
            key,
            type_of,
        }),
    }
}

/// The making of a workflow.
fn create(words: CreateWords<'_>) -> Option<Event> {
    Some(Event::Create {
        workflow: WorkflowName::parse(words.workflow).ok()?,
        source: KeyspaceName::parse(words.source).ok()?,
        target: KeyspaceName::parse(words.target).ok()?,
        tables: table_list(words.tables).ok()?,
    })
}

/// An advance of a stream in the one shard of a target, or in one of two halves.
fn advance(workflow: WorkflowName, words: &AdvanceWords<'_>) -> Option<Event> {
    let shard = match words.range {
        "-" | "-80" => 0,
        "80-" => 1,
        _ => return None,
    };
    Some(Event::Advance {
        workflow,
        stream: words.stream,
        shard,
        at: words.at,
        max: words.max,
    })
}

/// What is asked for of a workflow that is there, if it is one event.
fn event_asked(name: &str, asked: WorkflowAsked<'_>) -> Option<Event> {
    let workflow = WorkflowName::parse(name).ok()?;
    match asked {
        WorkflowAsked::Advance(words) => advance(workflow, &words),
        WorkflowAsked::BeginSwitch(types) => Some(Event::BeginSwitch {
            workflow,
            types: TypeSet::parse(types).ok()?,
        }),
        WorkflowAsked::BeginReverse(types) => Some(Event::BeginReverse {
            workflow,
            types: TypeSet::parse(types).ok()?,
        }),
        WorkflowAsked::Step(at) => Some(Event::Step { workflow, at }),
        WorkflowAsked::Undo(at) => Some(Event::Undo { workflow, at }),
        WorkflowAsked::Cancel => Some(Event::Cancel { workflow }),
        WorkflowAsked::Complete => Some(Event::Complete { workflow }),
        WorkflowAsked::Show => Some(Event::Show { workflow }),
        WorkflowAsked::Switch(_) | WorkflowAsked::Reverse(_) => None,
    }
}

/// Whether an answer is written so.
pub fn is_written(answer: &Answer, want: &str) -> bool {
    let mut line = LineText::new();
    put_answer(&mut line, answer);
    line.starts_with(want.as_bytes()) && line.len() == want.len() + 1
}
