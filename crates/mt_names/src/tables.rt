//! Lists of tables.
ghost use Rattle.std.specs.Prelude.{◌≡◌, ℕ, ◌+◌, ◌^◌, ◌<◌, ◌↔◌, List, ◌∷◌, Ok, IsOk, IfOk, MatchResult, length};
ghost use Rattle.mt_names.specs.Tables.{IsTableList, IsTableListText, names_of, read_table_list, table_list_text, with_word};

use crate::keys::{cut, table_behind};
use crate::{NameFault, TableName};
use arrayvec::ArrayVec;

/// How many tables a list may have, as those that one workflow moves.
pub const MAX_TABLES: usize = 16;

/// Appends the table that the word names, behind `front` bytes of the whole text.
fn add_table(
    tables: &mut ArrayVec<TableName, MAX_TABLES>,
    front: usize,
    word: &str,
) -> Result<(), NameFault>
    requires { front + length word.now < 2 ^ 64 }
    ensures { MatchResult result
        (λ _. with_word tables.old.items front word.now ≡ Ok tables.new.items)
        (λ fault. with_word tables.old.items front word.now ≡ Err fault) }
{
    let table = table_behind(front, word)?;
    if tables.is_full() {
        return Err(NameFault::TooMany);
    }
    if tables.contains(&table) {
        return Err(NameFault::Repeated);
    }
    tables.push(table);
    Ok(())
}

/// Reads a list of tables: `-` is the empty list, else names are separated by commas. The first fault from left to
/// right is answered: of each name its own, then `N7 TooMany` of a 17th, then `N4 Repeated`.
pub fn table_list(text: &str) -> Result<ArrayVec<TableName, MAX_TABLES>, NameFault>
    ensures value { names_of result ≡ read_table_list text.now }
    ensures grammar { IsOk result ↔ IsTableListText text.now }
    ensures list { IfOk result (λ tables. IsTableList tables.items) }
{
    let mut tables = ArrayVec::new_in(());
    if text == "-" {
        return Ok(tables);
    }
    let mut rest = Some(text);
    while let Some(words) = rest {
        let front = text.len() - words.len();
        let (word, more) = cut(words, ',');
        add_table(&mut tables, front, word)?;
        rest = more;
    }
    Ok(tables)
}

/// The text of a list of tables is read as that list.
pub fn table_list_is_read_back()
    ensures { (names : List (List ℕ)) → IsTableList names → read_table_list (table_list_text names) ≡ Ok names }
{}
