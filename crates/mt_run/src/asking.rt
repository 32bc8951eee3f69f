//! Commands of a script: each is asked of the site, and its answer added to what waits to be written.
ghost use Rattle.std.specs.Prelude.{◌≡◌, ◌+◌, ◌≤◌, ◌++◌, length};
ghost use Rattle.mt_event.specs.Asks.{event_of_ask};
ghost use Rattle.mt_plain.specs.Output.{answer_text, line_feed};
ghost use Rattle.mt_plain.specs.Script as language;
ghost use Rattle.mt_plain.specs.Script.{event};
ghost use Rattle.mt_script.specs.Lines.{asked_from, row_from};
ghost use Rattle.mt_site.specs.Asks.{answer_of, shown_in};
ghost use Rattle.mt_stands.specs.Base.{workflow_at};
ghost use Rattle.mt_stands.specs.Workflows.{show_at};
ghost use Rattle.mt_workflow.specs.Workflows.{stream_name};
ghost use Rattle.mt_run.specs.Asks.{leaves_names};
ghost use Rattle.mt_run.specs.Runs.{IsAnswered, IsNamed};

use crate::cached::CachedSite;
use arrayvec::ArrayVec;
use mt_event::{Ask, Reason, Refusal, Told, Verb};
use mt_names::{
    KeyRange, KeyspaceName, NameFault, RuleKey, RuleTarget, ShardList, TableName, TypeSet,
    WorkflowName, table_list,
};
use mt_script::{
    AdvanceWords, CreateWords, LONGEST_LINE, QualifiedName, RowAsked, WorkflowAsked, put_advanced,
    put_driven, put_reason, put_refused, put_row, put_shown, put_written,
};
use mt_site::{Core, drive};
use mt_watch::Asks;

/// Tells of a workflow.
fn put_workflow<const N: usize>(core: &Core, workflow: &WorkflowName, waiting: &mut ArrayVec<u8, N>)
    requires room { length waiting.old.items + LONGEST_LINE ≤ N }
    ensures { waiting.new.items ≡ waiting.old.items ++ answer_text (show_at (workflow_at core.now.base.workflows workflow.now)) ++ line_feed }
{
    match core.shown(workflow) {
        Some(shown) => put_shown(waiting, &shown),
        None => put_reason(waiting, Reason::NoWorkflow),
    }
}

/// Tells of the workflow that a Show asked for, which stands in the core.
fn put_found<const N: usize>(core: &Core, ask: Ask<'_>, waiting: &mut ArrayVec<u8, N>)
    requires room { length waiting.old.items + LONGEST_LINE ≤ N }
    ensures { waiting.new.items ≡ waiting.old.items ++ answer_text (shown_in core.now ask.entry) ++ line_feed }
{
    match ask {
        Ask::On(workflow, Verb::Show) => put_workflow(core, workflow, waiting),
        _ => put_written(waiting),
    }
}

/// Tells what was answered to what was asked for last.
fn put_told<const N: usize>(
    core: &Core,
    ask: Ask<'_>,
    told: &Result<Told, Refusal>,
    waiting: &mut ArrayVec<u8, N>,
)
    requires room { length waiting.old.items + LONGEST_LINE ≤ N }
    ensures { waiting.new.items ≡ waiting.old.items ++ answer_text (answer_of core.now ask.entry told.now) ++ line_feed }
{
    match told {
        Ok(Told::Done) => put_written(waiting),
        Ok(Told::Row(row)) => put_row(waiting, row),
        Ok(Told::Advanced(did)) => put_advanced(waiting, *did),
        Ok(Told::Shown) => put_found(core, ask, waiting),
        Err(refusal) => put_refused(waiting, refusal),
    }
}

/// Whether names lead where they led, whatever is answered.
fn leaves_names(ask: Ask<'_>) -> bool
    ensures { result ≡ leaves_names ask.entry }
{
    matches!(
        ask,
        Ask::Write(..) | Ask::Read(..) | Ask::On(_, Verb::Advance { .. } | Verb::Show)
    )
}

/// Asks for what a line says, and tells what is answered.
#[inline(never)]
fn ask<A: Asks, const N: usize>(
    cached: &mut CachedSite<A>,
    asked: Ask<'_>,
    waiting: &mut ArrayVec<u8, N>,
)
    requires room { length waiting.old.items + LONGEST_LINE ≤ N }
    ensures watchers { cached.new.site.watchers ≡ cached.old.site.watchers }
    ensures answered { IsAnswered (A.scopes cached.old.site.watchers) cached.old.site.core (event (event_of_ask asked.entry)) waiting.old.items waiting.new.items cached.new.site.core }
{
    cached.names.keep_if(leaves_names(asked));
    let told = cached.site.core.apply(&cached.site.watchers, asked);
    put_told(&cached.site.core, asked, &told, waiting);
}

/// Makes a keyspace with its shards.
pub fn add_keyspace<A: Asks, const N: usize>(
    cached: &mut CachedSite<A>,
    name: &str,
    shards: &str,
    waiting: &mut ArrayVec<u8, N>,
) -> Result<(), NameFault>
    requires room { length waiting.old.items + LONGEST_LINE ≤ N }
    ensures watchers { cached.new.site.watchers ≡ cached.old.site.watchers }
    ensures named { IsNamed (A.scopes cached.old.site.watchers) cached.old.site.core (language.keyspace name.now shards.now) waiting.old.items waiting.new.items result cached.new.site.core }
{
    let keyspace = KeyspaceName::parse(name)?;
    let shards = ShardList::parse(shards)?;
    ask(cached, Ask::AddKeyspace(&keyspace, &shards), waiting);
    Ok(())
}

/// Makes a table.
pub fn add_table<A: Asks, const N: usize>(
    cached: &mut CachedSite<A>,
    keyspace: &str,
    name: &str,
    waiting: &mut ArrayVec<u8, N>,
) -> Result<(), NameFault>
    requires room { length waiting.old.items + LONGEST_LINE ≤ N }
    ensures watchers { cached.new.site.watchers ≡ cached.old.site.watchers }
    ensures named { IsNamed (A.scopes cached.old.site.watchers) cached.old.site.core (language.table keyspace.now name.now) waiting.old.items waiting.new.items result cached.new.site.core }
{
    let keyspace = KeyspaceName::parse(keyspace)?;
    let table = TableName::parse(name)?;
    ask(cached, Ask::AddTable(&keyspace, &table), waiting);
    Ok(())
}

/// Reads a rule's target, or `-` for none.
fn rule_target(word: &str) -> Result<Option<RuleTarget>, NameFault>
    ensures { result ≡ language.read_rule_target word.now }
{
    if word == "-" {
        return Ok(None);
    }
    let target = RuleTarget::parse(word)?;
    Ok(Some(target))
}

/// Sets a routing rule, or takes it away.
pub fn edit_rule<A: Asks, const N: usize>(
    cached: &mut CachedSite<A>,
    key: &str,
    target: &str,
    waiting: &mut ArrayVec<u8, N>,
) -> Result<(), NameFault>
    requires room { length waiting.old.items + LONGEST_LINE ≤ N }
    ensures watchers { cached.new.site.watchers ≡ cached.old.site.watchers }
    ensures named { IsNamed (A.scopes cached.old.site.watchers) cached.old.site.core (language.rule key.now target.now) waiting.old.items waiting.new.items result cached.new.site.core }
{
    let key = RuleKey::parse(key)?;
    let target = rule_target(target)?;
    ask(cached, Ask::EditRule(&key, target.as_ref()), waiting);
    Ok(())
}

/// Writes or reads a row of a table of a keyspace.
#[inline(never)]
pub fn row_at<A: Asks, const N: usize>(
    cached: &mut CachedSite<A>,
    name: &QualifiedName<'_>,
    asked: &RowAsked<'_>,
    waiting: &mut ArrayVec<u8, N>,
) -> Result<(), NameFault>
    requires room { length waiting.old.items + LONGEST_LINE ≤ N }
    ensures watchers { cached.new.site.watchers ≡ cached.old.site.watchers }
    ensures named { IsNamed (A.scopes cached.old.site.watchers) cached.old.site.core (row_from language.change_at language.get_at name.now asked.now) waiting.old.items waiting.new.items result cached.new.site.core }
{
    let (RuleTarget { keyspace, table }, type_of) = name.parse()?;
    match asked {
        RowAsked::Write(text) => ask(cached, Ask::Write(&keyspace, &table, &text.op()), waiting),
        RowAsked::Read(key) => ask(cached, Ask::Read(&keyspace, &table, *key, type_of), waiting),
    }
    Ok(())
}

/// Makes a workflow.
#[inline(never)]
pub fn create<A: Asks, const N: usize>(
    cached: &mut CachedSite<A>,
    words: CreateWords<'_>,
    waiting: &mut ArrayVec<u8, N>,
) -> Result<(), NameFault>
    requires room { length waiting.old.items + LONGEST_LINE ≤ N }
    ensures watchers { cached.new.site.watchers ≡ cached.old.site.watchers }
    ensures named { IsNamed (A.scopes cached.old.site.watchers) cached.old.site.core (language.create words.entry.workflow.now words.entry.source.now words.entry.target.now words.entry.tables.now) waiting.old.items waiting.new.items result cached.new.site.core }
{
    let workflow = WorkflowName::parse(words.workflow)?;
    let source = KeyspaceName::parse(words.source)?;
    let target = KeyspaceName::parse(words.target)?;
    match &table_list(words.tables) {
        Ok(tables) => {
            let create = Ask::Create {
                workflow: &workflow,
                source: &source,
                target: &target,
                tables,
            };
            ask(cached, create, waiting);
            Ok(())
        }
        Err(fault) => Err(*fault),
    }
}

/// Advances a stream of a workflow in the shard of a range.
fn advance<A: Asks, const N: usize>(
    cached: &mut CachedSite<A>,
    workflow: &WorkflowName,
    range: &KeyRange,
    words: AdvanceWords<'_>,
    waiting: &mut ArrayVec<u8, N>,
)
    requires room { length waiting.old.items + LONGEST_LINE ≤ N }
    ensures watchers { cached.new.site.watchers ≡ cached.old.site.watchers }
    ensures answered { IsAnswered (A.scopes cached.old.site.watchers) cached.old.site.core (language.advance_in workflow.now (stream_name words.entry.stream) range.now words.entry.at words.entry.max) waiting.old.items waiting.new.items cached.new.site.core }
{
    let AdvanceWords {
        stream,
        at,
        max,
        ..
    } = words;
    match cached.site.core.shard(workflow, range) {
        Ok(shard) => {
            let advance = Verb::Advance {
                stream,
                shard,
                at,
                max,
            };
            ask(cached, Ask::On(workflow, advance), waiting);
        }
        Err(reason) => put_reason(waiting, reason),
    }
}

/// Switches the traffic of a workflow as a whole, or reverses it.
#[inline(never)]
fn drive_whole<A: Asks, const N: usize>(
    cached: &mut CachedSite<A>,
    workflow: &WorkflowName,
    types: TypeSet,
    back: bool,
    waiting: &mut ArrayVec<u8, N>,
)
    requires room { length waiting.old.items + LONGEST_LINE ≤ N }
    ensures watchers { cached.new.site.watchers ≡ cached.old.site.watchers }
    ensures answered { IsAnswered (A.scopes cached.old.site.watchers) cached.old.site.core (language.drive workflow.now types back) waiting.old.items waiting.new.items cached.new.site.core }
{
    cached.names.forget();
    put_driven(waiting, &drive(&mut cached.site, workflow, types, back));
}

/// Does what is asked for of a workflow.
#[inline(never)]
pub fn workflow<A: Asks, const N: usize>(
    cached: &mut CachedSite<A>,
    name: &str,
    asked: WorkflowAsked<'_>,
    waiting: &mut ArrayVec<u8, N>,
) -> Result<(), NameFault>
    requires room { length waiting.old.items + LONGEST_LINE ≤ N }
    ensures watchers { cached.new.site.watchers ≡ cached.old.site.watchers }
    ensures named { IsNamed (A.scopes cached.old.site.watchers) cached.old.site.core (asked_from name.now asked.entry) waiting.old.items waiting.new.items result cached.new.site.core }
{
    let workflow = &WorkflowName::parse(name)?;
    match asked {
        WorkflowAsked::Advance(words) => {
            let range = KeyRange::parse(words.range)?;
            advance(cached, workflow, &range, words, waiting);
        }
        WorkflowAsked::BeginSwitch(types) => {
            let begin = Verb::BeginSwitch(TypeSet::parse(types)?);
            ask(cached, Ask::On(workflow, begin), waiting);
        }
        WorkflowAsked::BeginReverse(types) => {
            let begin = Verb::BeginReverse(TypeSet::parse(types)?);
            ask(cached, Ask::On(workflow, begin), waiting);
        }
        WorkflowAsked::Step(at) => ask(cached, Ask::On(workflow, Verb::Step(at)), waiting),
        WorkflowAsked::Undo(at) => ask(cached, Ask::On(workflow, Verb::Undo(at)), waiting),
        WorkflowAsked::Switch(types) => {
            let types = TypeSet::parse(types)?;
            drive_whole(cached, workflow, types, false, waiting);
        }
        WorkflowAsked::Reverse(types) => {
            let types = TypeSet::parse(types)?;
            drive_whole(cached, workflow, types, true, waiting);
        }
        WorkflowAsked::Cancel => ask(cached, Ask::On(workflow, Verb::Cancel), waiting),
        WorkflowAsked::Complete => ask(cached, Ask::On(workflow, Verb::Complete), waiting),
        WorkflowAsked::Show => ask(cached, Ask::On(workflow, Verb::Show), waiting),
    }
    Ok(())
}
