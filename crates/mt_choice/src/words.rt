//! The words that name keyspaces.
ghost use Rattle.std.specs.Prelude.{◌≡◌, ◌≢◌, map};
ghost use Rattle.mt_choice.specs.Keyspaces.{names_of, read_keyspaces};

use arrayvec::ArrayVec;
use mt_names::{KeyspaceName, NameFault};

/// How many keyspaces a command line may name. Each has a watcher for its primary, and the routers have one, of 32 in all.
pub const MAX_WATCHED: usize = 31;

/// Reads the words as names of keyspaces, in their order; one that stands twice stays twice. The first refusal from left to
/// right is answered: of each word its own (`N1 Empty`, `N2 TooLong`, `N3 BadByte`), then `N7 TooMany` of a 32nd. It takes
/// no memory.
pub fn keyspaces(words: &[&str]) -> Result<ArrayVec<KeyspaceName, MAX_WATCHED>, NameFault>
    ensures { names_of result ≡ read_keyspaces (map (λ word. word.now) words.now) }
{
    let mut names = ArrayVec::new_in(());
    for word in words {
        let name = KeyspaceName::parse(word)?;
        if names.is_full() {
            return Err(NameFault::TooMany);
        }
        names.push(name);
    }
    Ok(names)
}
