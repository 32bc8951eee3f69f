//! Commands: a verb, and the words behind it.
ghost use Rattle.std.specs.Prelude.{◌≡◌, MatchOption, false, true, option_map};
ghost use Rattle.mt_names.specs.Keys.{after, at_sign};
ghost use Rattle.mt_plain.specs.Script.{change, change_at, command, command_of, get, get_at, is_for_reads, is_readable, is_row_verb, read_at, read_command, read_new_keyspace, read_row_command, words_of};
ghost use Rattle.mt_script.specs.Lines.{line_from, may_ask, read_asked, read_last_number, read_number_and_value, verb_text};

use crate::lines::{Line, RowAsked, UNSHARDED};
use crate::numbers::read_number;
use crate::ops::{OpText, ValueText, ValueVerb};
use crate::qualified::QualifiedName;
use crate::words::{first_word, no_word, one_word, two_words};
use crate::workflows::workflow_command;

/// Reads a number and a value.
#[inline(always)]
fn number_and_value(words: &str) -> Option<(u64, ValueText<'_>)>
    requires { is_readable words.now ≡ true }
    ensures { result ≡ read_number_and_value (words_of words.now) }
{
    let (number, value) = two_words(words)?;
    Some((read_number(number)?, ValueText::of(value)?))
}

/// Reads the number that is the last word.
#[inline(always)]
fn last_number(words: &str) -> Option<u64>
    requires { is_readable words.now ≡ true }
    ensures { result ≡ read_last_number (words_of words.now) }
{
    read_number(one_word(words)?)
}

/// The verb of an operation on a row.
#[derive(Clone, Copy)]
enum RowVerb {
    /// `insert`, `update` or `append`.
    Change(ValueVerb),
    /// `delete`.
    Delete,
    /// `get`.
    Get,
}

/// The verb of an operation on a row that a word is.
fn row_verb(word: &str) -> Option<RowVerb>
    ensures { MatchOption result (is_row_verb word.now ≡ false) (λ verb. word.now ≡ verb_text verb) }
{
    match word {
        "insert" => Some(RowVerb::Change(ValueVerb::Insert)),
        "update" => Some(RowVerb::Change(ValueVerb::Update)),
        "append" => Some(RowVerb::Change(ValueVerb::Append)),
        "delete" => Some(RowVerb::Delete),
        "get" => Some(RowVerb::Get),
        _ => None,
    }
}

/// Reads what is asked of a row: the verb, and the words behind the name.
#[inline(always)]
fn row_asked(verb: RowVerb, words: &str) -> Option<RowAsked<'_>>
    requires { is_readable words.now ≡ true }
    ensures { result ≡ read_asked (verb_text verb) (words_of words.now) }
{
    match verb {
        RowVerb::Change(verb) => {
            let (number, value) = number_and_value(words)?;
            Some(RowAsked::Write(OpText::Change(verb, number, value)))
        }
        RowVerb::Delete => Some(RowAsked::Write(OpText::Delete(last_number(words)?))),
        RowVerb::Get => Some(RowAsked::Read(last_number(words)?)),
    }
}

/// Whether the type behind a name's first `@` is one of those that are only read.
#[inline(never)]
fn has_type_for_reads(name: &str) -> bool
    ensures { result ≡ is_for_reads (after at_sign name.now) }
{
    match name.split_once('@') {
        Some((_name, word)) => word == "replica" || word == "rdonly",
        None => false,
    }
}

/// Whether a name's type is one of those that are only read. Most names end otherwise.
#[inline(always)]
fn is_for_reads(name: &str) -> bool
    ensures { result ≡ is_for_reads (after at_sign name.now) }
{
    let last = name.as_bytes().last().copied().unwrap_or(0);
    if last != b'a' && last != b'y' {
        return false;
    }
    has_type_for_reads(name)
}

/// Whether this may be asked of a row by this name: a name for reads isn't written to.
#[inline(always)]
fn may_ask(name: &str, asked: &RowAsked<'_>) -> bool
    ensures { result ≡ may_ask name.now asked.now }
{
    matches!(asked, RowAsked::Read(_)) || !is_for_reads(name)
}

/// Reads an operation on a row, behind its verb: the name of its table, which is looked up, and what is asked.
#[inline(always)]
fn row_command(verb: RowVerb, words: &str) -> Option<Line<'_>>
    requires { is_readable words.now ≡ true }
    ensures { option_map line_from result ≡ option_map command (read_row_command change get (verb_text verb) (words_of words.now)) }
{
    let (name, rest) = first_word(words)?;
    let asked = row_asked(verb, rest)?;
    if !may_ask(name, &asked) {
        return None;
    }
    Some(Line::Row(name, asked))
}

/// Reads what stands behind `at`: the qualified name of a table, a verb, and what is asked.
fn at_command(words: &str) -> Option<Line<'_>>
    requires { is_readable words.now ≡ true }
    ensures { option_map line_from result ≡ option_map command (read_at (words_of words.now)) }
{
    let (name, rest) = first_word(words)?;
    let (word, rest) = first_word(rest)?;
    let verb = row_verb(word)?;
    let asked = row_asked(verb, rest)?;
    if !may_ask(name, &asked) {
        return None;
    }
    Some(Line::At(QualifiedName::of(name)?, asked))
}

/// Reads what stands behind `keyspace`: its name, and its shards where they are written.
fn keyspace_command(words: &str) -> Option<Line<'_>>
    requires { is_readable words.now ≡ true }
    ensures { option_map line_from result ≡ option_map command (read_new_keyspace (words_of words.now)) }
{
    let (keyspace, rest) = first_word(words)?;
    if first_word(rest).is_none() {
        return Some(Line::Keyspace(keyspace, UNSHARDED));
    }
    Some(Line::Keyspace(keyspace, one_word(rest)?))
}

/// Reads a command that isn't an operation on a row, behind its verb.
#[inline(never)]
fn other_command<'a>(verb: &str, words: &'a str) -> Option<Line<'a>>
    requires readable { is_readable words.now ≡ true }
    requires other { is_row_verb verb.now ≡ false }
    ensures { option_map line_from result ≡ option_map command (read_command verb.now (words_of words.now)) }
{
    match verb {
        "keyspace" => keyspace_command(words),
        "table" => {
            let (keyspace, table) = two_words(words)?;
            Some(Line::Table(keyspace, table))
        }
        "rule" => {
            let (key, target) = two_words(words)?;
            Some(Line::Rule(key, target))
        }
        "rules" => {
            no_word(words)?;
            Some(Line::Rules)
        }
        "dump" => {
            no_word(words)?;
            Some(Line::Dump)
        }
        "at" => at_command(words),
        verb => workflow_command(verb, words),
    }
}

/// Reads a command: its verb, and its words. `None` is a bad line.
#[inline(always)]
pub fn read_command(line: &str) -> Option<Line<'_>>
    requires { is_readable line.now ≡ true }
    ensures { option_map line_from result ≡ option_map command (command_of (words_of line.now)) }
{
    let (word, rest) = first_word(line)?;
    match row_verb(word) {
        Some(verb) => row_command(verb, rest),
        None => other_command(word, rest),
    }
}
