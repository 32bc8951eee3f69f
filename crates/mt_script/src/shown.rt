//! What is told of a workflow.
ghost use Rattle.std.specs.Prelude.{◌≡◌, ◌+◌, ◌<◌, ◌≤◌, ◌++◌, ◌∷◌, [], length, codes, if◌then◌else◌, Some, option_map};
ghost use Rattle.std.specs.List.{flat_map, join_with_byte};
ghost use Rattle.mt_names.specs.Shards.{most_shards, range_text};
ghost use Rattle.mt_names.specs.Tables.{most_tables, table_list_text};
ghost use Rattle.mt_names.specs.Types.{comma};
ghost use Rattle.mt_plain.specs.Numbers.{number_text};
ghost use Rattle.mt_plain.specs.Output.{back_text, backs_text, copied_text, forward_text, forwards_text, lane_back_texts, line_feed, none_or, shown_text, slot_text, spaced, state_text, way_text};
ghost use Rattle.mt_stream.specs.Streams.{state_from};
ghost use Rattle.mt_workflow.specs.Workflows.{way_from};
ghost use Rattle.mt_event.specs.Events.{lane_from, lanes_from, lent_shown, shown_stream_from};
ghost use Rattle.mt_script.specs.Texts.{back_behind, forward_behind, streams_text, traffic_text};

use crate::LONGEST_LINE;
use arrayvec::ArrayVec;
use itoa::Buffer;
use mt_event::{ShownLane, ShownOf, ShownStream};
use mt_names::{KeyRange, TableName};
use mt_stream::StreamState;
use mt_workflow::Way;

/// The text of a line of output, with its line feed.
pub type LineText = ArrayVec<u8, LONGEST_LINE>;

/// Two texts, one behind the other.
fn joined<const N: usize>(first: &[u8], second: &[u8]) -> ArrayVec<u8, N>
    requires { length first.now + length second.now ≤ N }
    ensures { result.items ≡ first.now ++ second.now }
{
    let mut text = ArrayVec::new();
    let _fits = text.try_extend_from_slice(first);
    let _fits = text.try_extend_from_slice(second);
    text
}

/// Two texts with a space between them.
pub fn spaced<const N: usize>(first: &[u8], second: &[u8]) -> ArrayVec<u8, N>
    requires { length first.now + 1 + length second.now ≤ N }
    ensures { result.items ≡ spaced first.now second.now }
{
    let mut text = ArrayVec::new();
    let _fits = text.try_extend_from_slice(first);
    text.push(b' ');
    let _fits = text.try_extend_from_slice(second);
    text
}

/// A number in decimal digits.
pub fn number(n: u64) -> ArrayVec<u8, 20>
    ensures { result.items ≡ number_text n }
{
    let mut buffer = Buffer::new();
    let digits = buffer.format(n);
    joined(digits.as_bytes(), b"")
}

/// What a stream does.
fn state_text(state: StreamState) -> &'static [u8]
    ensures text { result.now ≡ state_text (state_from state) }
    ensures short { length result.now ≤ 7 }
{
    match state {
        StreamState::Running => b"running",
        StreamState::Stopped => b"stopped",
        StreamState::Frozen => b"frozen",
    }
}

/// A stream with its position.
fn stream_text(stream: ShownStream) -> ArrayVec<u8, 28>
    ensures { result.items ≡ slot_text (shown_stream_from stream) }
{
    spaced(state_text(stream.state), &number(stream.position))
}

/// The back stream, if there is one.
fn back_text(back: Option<ShownStream>) -> ArrayVec<u8, 28>
    ensures { result.items ≡ back_text (option_map shown_stream_from back) }
{
    match back {
        None => joined(b"none", b""),
        Some(stream) => stream_text(stream),
    }
}

/// The direction of a way.
fn direction(is_back: bool) -> &'static [u8]
    ensures text { result.now ≡ if is_back then codes "back" else codes "forward" }
    ensures short { length result.now ≤ 7 }
{
    if is_back { b"back" } else { b"forward" }
}

/// That an undo of a way was taken, if one was.
fn undo_text(is_undoing: bool) -> &'static [u8]
    ensures text { result.now ≡ if is_undoing then codes " undoing" else [] }
    ensures short { length result.now ≤ 8 }
{
    if is_undoing { b" undoing" } else { b"" }
}

/// The open way, if there is one: its direction, the types that it changes, how many of its steps stand done.
fn way_text(way: Option<Way>) -> ArrayVec<u8, 59>
    ensures { result.items ≡ way_text (option_map way_from way) }
{
    match way {
        None => joined(b"none", b""),
        Some(way) => open_way_text(way),
    }
}

fn open_way_text(way: Way) -> ArrayVec<u8, 59>
    ensures { result.items ≡ way_text (Some (way_from way)) }
{
    let types = way.changed_types().text();
    let done = spaced::<43>(types.as_str().as_bytes(), &number(u64::from(way.done)));
    let open = spaced::<51>(direction(way.back), &done);
    joined(&open, undo_text(way.undoing))
}

/// Adds some bytes.
fn put(text: &mut LineText, bytes: &[u8])
    requires { length text.old.items + length bytes.now ≤ LONGEST_LINE }
    ensures text { text.new.items ≡ text.old.items ++ bytes.now }
    ensures long { length text.new.items ≡ length text.old.items + length bytes.now }
{
    let _fits = text.try_extend_from_slice(bytes);
}

/// Adds a word and a space.
fn put_word(text: &mut LineText, word: &[u8])
    requires { length text.old.items + length word.now < LONGEST_LINE }
    ensures text { text.new.items ≡ text.old.items ++ word.now ++ 32 ∷ [] }
    ensures long { length text.new.items ≡ length text.old.items + length word.now + 1 }
{
    put(text, word);
    text.push(b' ');
}

/// Adds tables, separated by commas, or `-` where there is none.
fn put_tables(text: &mut LineText, tables: &[TableName])
    requires few { length tables.now ≤ most_tables }
    requires room { length text.old.items + 1039 ≤ LONGEST_LINE }
    ensures text { text.new.items ≡ text.old.items ++ table_list_text tables.now }
    ensures short { length text.new.items ≤ length text.old.items + 1039 }
{
    match tables {
        [] => put(text, b"-"),
        [first, others @ ..] => put_names(text, first, others),
    }
}

/// Adds a table and others, separated by commas.
fn put_names(text: &mut LineText, first: &TableName, others: &[TableName])
    requires few { 1 + length others.now ≤ most_tables }
    requires room { length text.old.items + 1039 ≤ LONGEST_LINE }
    ensures text { text.new.items ≡ text.old.items ++ join_with_byte comma (first.now ∷ others.now) }
    ensures short { length text.new.items ≤ length text.old.items + 1039 }
{
    put(text, first.as_str().as_bytes());
    for table in others {
        put_table(text, table);
    }
}

/// Adds a table behind a comma.
fn put_table(text: &mut LineText, table: &TableName)
    requires { length text.old.items + 65 ≤ LONGEST_LINE }
    ensures text { text.new.items ≡ text.old.items ++ comma ∷ table.now }
    ensures short { length text.new.items ≤ length text.old.items + 65 }
{
    text.push(b',');
    put(text, table.as_str().as_bytes());
}

/// Whether the copy has ended.
fn copied_text(is_copied: bool) -> &'static [u8]
    ensures text { result.now ≡ copied_text is_copied }
    ensures short { length result.now ≤ 7 }
{
    if is_copied { b"copied" } else { b"copying" }
}

/// Adds the forward stream of a shard, and whether its copy has ended.
fn put_forward(text: &mut LineText, lane: &ShownLane)
    requires { length text.old.items + 36 ≤ LONGEST_LINE }
    ensures text { text.new.items ≡ text.old.items ++ forward_text (lane_from lane.now) }
    ensures short { length text.new.items ≤ length text.old.items + 36 }
{
    put_word(text, &stream_text(lane.forward));
    put(text, copied_text(lane.copied));
}

/// Adds a space and the range of a shard, with a space behind it.
fn put_range(text: &mut LineText, range: &KeyRange)
    requires { length text.old.items + 35 ≤ LONGEST_LINE }
    ensures text { text.new.items ≡ text.old.items ++ 32 ∷ range_text range.now ++ 32 ∷ [] }
    ensures short { length text.new.items ≤ length text.old.items + 35 }
{
    let range = range.text();
    text.push(b' ');
    put_word(text, range.as_str().as_bytes());
}

/// Adds the forward streams of shards, each behind its range.
fn put_each_forward(text: &mut LineText, lanes: &[ShownLane])
    requires few { length lanes.now ≤ most_shards }
    requires room { length text.old.items + 568 ≤ LONGEST_LINE }
    ensures text { text.new.items ≡ text.old.items ++ flat_map forward_behind lanes.now }
    ensures short { length text.new.items ≤ length text.old.items + 568 }
{
    for lane in lanes {
        put_range(text, &lane.range);
        put_forward(text, lane);
    }
}

/// Adds a space and the forward streams: of one shard as it is, of several each behind its range.
fn put_forwards(text: &mut LineText, lanes: &[ShownLane])
    requires few { length lanes.now ≤ most_shards }
    requires room { length text.old.items + 568 ≤ LONGEST_LINE }
    ensures text { text.new.items ≡ text.old.items ++ 32 ∷ forwards_text (lanes_from lanes.now) }
    ensures short { length text.new.items ≤ length text.old.items + 568 }
{
    match lanes {
        [] => text.push(b' '),
        [lane] => {
            text.push(b' ');
            put_forward(text, lane);
        }
        lanes => put_each_forward(text, lanes),
    }
}

/// Adds the back stream of a shard behind its range, if there is one.
fn put_back(text: &mut LineText, lane: &ShownLane)
    requires { length text.old.items + 63 ≤ LONGEST_LINE }
    ensures text { text.new.items ≡ text.old.items ++ back_behind lane.now }
    ensures short { length text.new.items ≤ length text.old.items + 63 }
{
    if let Some(stream) = lane.back {
        put_range(text, &lane.range);
        put(text, &stream_text(stream));
    }
}

/// Adds the back streams of shards, each behind its range, or that there is none.
fn put_each_back(text: &mut LineText, lanes: &[ShownLane])
    requires few { length lanes.now ≤ most_shards }
    requires room { length text.old.items + 504 ≤ LONGEST_LINE }
    ensures text { text.new.items ≡ text.old.items ++ 32 ∷ none_or (flat_map lane_back_texts (lanes_from lanes.now)) }
    ensures short { length text.new.items ≤ length text.old.items + 504 }
{
    let start = text.len();
    for lane in lanes {
        put_back(text, lane);
    }
    if text.len() == start {
        put(text, b" none");
    }
}

/// Adds a space and the back streams: of one shard as it is, of several each behind its range.
fn put_backs(text: &mut LineText, lanes: &[ShownLane])
    requires few { length lanes.now ≤ most_shards }
    requires room { length text.old.items + 504 ≤ LONGEST_LINE }
    ensures text { text.new.items ≡ text.old.items ++ 32 ∷ backs_text (lanes_from lanes.now) }
    ensures short { length text.new.items ≤ length text.old.items + 504 }
{
    match lanes {
        [] => put(text, b" none"),
        [lane] => {
            text.push(b' ');
            put(text, &back_text(lane.back));
        }
        lanes => put_each_back(text, lanes),
    }
}

/// Adds the streams of a workflow.
fn put_streams(text: &mut LineText, shown: &ShownOf<'_>)
    requires { length text.old.items + 1084 ≤ LONGEST_LINE }
    ensures text { text.new.items ≡ text.old.items ++ streams_text (lent_shown shown.now) }
    ensures short { length text.new.items ≤ length text.old.items + 1084 }
{
    let lanes = shown.lanes.as_slice();
    put(text, b"forward");
    put_forwards(text, lanes);
    put(text, b" back");
    put_backs(text, lanes);
}

/// Adds the types whose traffic is switched, the open way, and the streams.
fn put_traffic(text: &mut LineText, shown: &ShownOf<'_>)
    requires { length text.old.items + 1180 ≤ LONGEST_LINE }
    ensures text { text.new.items ≡ text.old.items ++ traffic_text (lent_shown shown.now) }
    ensures short { length text.new.items ≤ length text.old.items + 1180 }
{
    let types = shown.switched.text();
    put_word(text, b"switched");
    put_word(text, types.as_str().as_bytes());
    put_word(text, b"way");
    put_word(text, &way_text(shown.way));
    put_streams(text, shown);
}

/// The line that tells of a workflow.
pub fn shown_line(shown: &ShownOf<'_>) -> LineText
    ensures { result.items ≡ shown_text (lent_shown shown.now) ++ line_feed }
{
    let mut text = LineText::new();
    put_word(&mut text, shown.workflow.as_str().as_bytes());
    put_word(&mut text, shown.source.as_str().as_bytes());
    put_word(&mut text, shown.target.as_str().as_bytes());
    put_tables(&mut text, shown.tables.as_slice());
    put(&mut text, b" ");
    put_traffic(&mut text, shown);
    text.push(b'\n');
    text
}
