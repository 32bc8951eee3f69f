//! The words of a line.
ghost use Rattle.std.specs.Prelude.{◌≡◌, ◌≤◌, ◌<◌, ◌+◌, ◌∷◌, [], not, length, position, MatchOption, IfSome, Some, option_copied, option_map, true, unwrap_or};
ghost use Rattle.std.specs.List.{list_all};
ghost use Rattle.mt_plain.specs.Script.{Command, four_words, is_blank, is_readable, is_visible, no_word, one_word, two_words, words_of};

use std::simd::prelude::*;

/// Whether the byte parts words: a space or a tab.
pub fn is_blank(byte: u8) -> bool
    ensures { result ≡ is_blank byte }
{
    byte == b' ' || byte == b'\t'
}

/// Whether the byte may stand in a word: a visible ASCII character.
fn is_visible(byte: u8) -> bool
    ensures { result ≡ is_visible byte }
{
    byte.is_ascii_graphic()
}

/// Whether each byte may stand in a line. It looks at all of them, without an early end, which is faster.
#[inline(always)]
fn are_readable(line: &[u8]) -> bool
    ensures { result ≡ is_readable line.now }
{
    line.iter().fold(true, |all, &byte| all & (is_blank(byte) | is_visible(byte)))
}

/// Whether each byte may stand in a line that isn't longer than its first bytes and its last ones together. As many as these are
/// tested all at once.
#[inline(always)]
fn ends_are_readable<const N: usize>(line: &[u8]) -> bool
    requires long { N ≤ length line.now }
    requires short { length line.now ≤ N + N }
    ensures { result ≡ is_readable line.now }
{
    are_readable(&line[..N]) & are_readable(&line[line.len() - N..])
}

/// Whether each byte of a line may stand in a line. That it is no part of its caller is faster.
#[inline(never)]
pub fn is_readable(line: &[u8]) -> bool
    ensures { result ≡ is_readable line.now }
{
    match line.len() {
        16..=32 => ends_are_readable::<16>(line),
        33..=64 => ends_are_readable::<32>(line),
        _ => are_readable(line),
    }
}

/// The place of the first byte of a word.
#[inline(always)]
fn word_start(line: &[u8]) -> Option<usize>
    ensures { result ≡ position (λ byte. not (is_blank byte)) line.now }
{
    line.iter().position(|&byte| !is_blank(byte))
}

/// How many of the first 16 bytes stand before a blank. They are tested all at once.
#[inline(always)]
fn before_blank(line: &[u8]) -> usize
    requires { 16 ≤ length line.now }
    ensures { result < 16 → position is_blank line.now ≡ Some result }
{
    let bytes = u8x16::from_slice(line);
    let blanks = bytes.simd_eq(u8x16::splat(b' ')) | bytes.simd_eq(u8x16::splat(b'\t'));
    match blanks.to_bitmask() {
        0 => 16,
        marks => marks.trailing_zeros() as usize,
    }
}

/// Whether no byte is blank. It looks at all of them, without an early end, which is faster.
#[inline(always)]
fn lack_blanks(word: &[u8]) -> bool
    ensures { result ≡ list_all (λ byte. not (is_blank byte)) word.now }
{
    word.iter().fold(true, |all, &byte| all & !is_blank(byte))
}

/// Whether no byte is blank of a word that isn't longer than its first bytes and its last ones together. As many as these are
/// tested all at once.
#[inline(always)]
fn ends_lack_blanks<const N: usize>(word: &[u8]) -> bool
    requires long { N ≤ length word.now }
    requires short { length word.now ≤ N + N }
    ensures { result ≡ list_all (λ byte. not (is_blank byte)) word.now }
{
    lack_blanks(&word[..N]) & lack_blanks(&word[word.len() - N..])
}

/// The place of the first blank.
fn first_blank(line: &[u8]) -> Option<usize>
    ensures { result ≡ position is_blank line.now }
{
    line.iter().position(|&byte| is_blank(byte))
}

/// The place where the first word ends, of a line that begins with one: that of the first blank, or the line's end. That it is
/// no part of its callers is faster.
#[inline(never)]
fn word_end(line: &[u8]) -> usize
    ensures { result ≡ unwrap_or (position is_blank line.now) (length line.now) }
{
    if line.len() >= 16 {
        let near = before_blank(line);
        if near < 16 {
            return near;
        }
    }
    match line.len() {
        8..=16 if ends_lack_blanks::<8>(line) => line.len(),
        17..=32 if ends_lack_blanks::<16>(line) => line.len(),
        33..=64 if ends_lack_blanks::<32>(line) => line.len(),
        length => first_blank(line).unwrap_or(length),
    }
}

/// The first word of a line, and what follows it.
#[inline(always)]
pub fn first_word(line: &str) -> Option<(&str, &str)>
    requires { is_readable line.now ≡ true }
    ensures words { MatchOption result (words_of line.now ≡ [])
        (λ parts. words_of line.now ≡ parts.0.now ∷ words_of parts.1.now) }
    ensures readable { IfSome result (λ parts. is_readable parts.1.now ≡ true) }
{
    let start = word_start(line.as_bytes())?;
    let (_blanks, rest) = line.split_at(start);
    Some(rest.split_at(word_end(rest.as_bytes())))
}

/// Nothing, of a line that has no word.
pub fn no_word(line: &str) -> Option<()>
    requires { is_readable line.now ≡ true }
    ensures { (c : Command) → option_map (λ done. c) result ≡ no_word (words_of line.now) (Some c) }
{
    match first_word(line) {
        Some(_) => None,
        None => Some(()),
    }
}

/// The word of a line that has just one.
#[inline(always)]
pub fn one_word(line: &str) -> Option<&str>
    requires { is_readable line.now ≡ true }
    ensures { option_copied result ≡ one_word (words_of line.now) }
{
    let (word, rest) = first_word(line)?;
    match first_word(rest) {
        Some(_) => None,
        None => Some(word),
    }
}

/// The words of a line that has just two.
#[inline(always)]
pub fn two_words(line: &str) -> Option<(&str, &str)>
    requires { is_readable line.now ≡ true }
    ensures { option_map (λ w. (w.0.now, w.1.now)) result ≡ two_words (words_of line.now) }
{
    let (first, rest) = first_word(line)?;
    let second = one_word(rest)?;
    Some((first, second))
}

/// The words of a line that has just four.
pub fn four_words(line: &str) -> Option<(&str, &str, &str, &str)>
    requires { is_readable line.now ≡ true }
    ensures { option_map (λ w. (w.0.now, w.1.now, w.2.now, w.3.now)) result ≡ four_words (words_of line.now) }
{
    let (first, rest) = first_word(line)?;
    let (second, rest) = first_word(rest)?;
    let (third, fourth) = two_words(rest)?;
    Some((first, second, third, fourth))
}
