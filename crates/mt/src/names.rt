//! Names of keyspaces, as C gives them.
ghost use Rattle.std.specs.Prelude.{◌≡◌, map, take};
ghost use Rattle.mt_choice.specs.Keyspaces.{names_of};
ghost use Rattle.mt.specs.Names.{Watches, most_words, watched_in, words_in};

use arrayvec::ArrayVec;
use mt_choice::{MAX_WATCHED, keyspaces};
use mt_names::{KeyspaceName, NameFault};
use std::str;

/// One more than may be named, so that there are too many of them.
const MAX_WORDS: usize = 32;

/// The first words of a text, which blanks part.
fn words(text: &str) -> ArrayVec<&str, MAX_WORDS>
    ensures { map (λ word. word.now) result.items ≡ take most_words (words_in text.now) }
{
    let mut words = ArrayVec::new();
    for word in text.split(' ') {
        if !word.is_empty() && !words.is_full() {
            words.push(word);
        }
    }
    words
}

/// The keyspaces that a text names.
fn named(text: &str) -> Result<ArrayVec<KeyspaceName, MAX_WATCHED>, NameFault>
    ensures { names_of result ≡ watched_in text.now }
{
    keyspaces(&words(text))
}

/// The keyspaces that a text names, which are words with blanks between them: none if it isn't UTF-8, if a word is no keyspace's name, or if there
/// are more than 31. It takes no memory.
pub fn watched(text: &[u8]) -> Option<ArrayVec<KeyspaceName, MAX_WATCHED>>
    ensures { Watches text.now result }
{
    let Ok(text) = str::from_utf8(text) else {
        return None;
    };
    named(text).ok()
}
