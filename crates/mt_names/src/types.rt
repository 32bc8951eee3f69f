//! Tablet types, and sets of them.
ghost use Rattle.std.specs.Prelude.{◌≡◌, ◌≢◌, ◌↔◌, ◌+◌, ◌<◌, ◌≤◌, ◌==◌, ◌&&◌, ◌||◌, not, false, Some, Ok, List, length, AllPairs, Contains, IsTrue, IsOk, codes};
ghost use Rattle.std.specs.List.{slice_split};
ghost use Rattle.mt_names.specs.Types.{IsTypeSetText, all_types, comma, followed_by, has, list_text, no_types, read_type_set, read_words, set_of, type_set_text};

use crate::NameFault;
use arrayvec::ArrayString;
use std::fmt;

/// The length of the longest text of a set, `primary,replica,rdonly`, in bytes.
const MAX_SET_LENGTH: usize = 22;

/// What a tablet serves: writes and reads, reads, or batch reads.
#[derive(Clone, Copy, Debug, Eq, Hash, Ord, PartialEq, PartialOrd)]
pub enum TabletType {
    /// The one tablet of a shard that takes writes.
    Primary,
    /// A tablet for reads that may become the primary.
    Replica,
    /// A tablet for batch reads.
    Rdonly,
}

impl TabletType {
    ghost use Rattle.mt_names.specs.Types.{type_text, read_type};

    /// Each type, in the order in which a set of them is written.
    pub const ALL: [TabletType; 3] = [TabletType::Primary, TabletType::Replica, TabletType::Rdonly];

    /// Reads a type: `primary`, `replica` or `rdonly`. Any other text is `N6 BadType`.
    pub fn parse(text: &str) -> Result<Self, NameFault>
        ensures value { result ≡ read_type text.now }
        ensures spelled { (type : TabletType) → (result ≡ Ok type) ↔ (text.now ≡ type_text type) }
    {
        match text {
            "primary" => Ok(TabletType::Primary),
            "replica" => Ok(TabletType::Replica),
            "rdonly" => Ok(TabletType::Rdonly),
            _ => Err(NameFault::BadType),
        }
    }

    /// The type as a text.
    pub fn as_str(self) -> &'static str
        ensures { result.now ≡ type_text self }
    {
        match self {
            TabletType::Primary => "primary",
            TabletType::Replica => "replica",
            TabletType::Rdonly => "rdonly",
        }
    }
}

impl fmt::Display for TabletType {
    ghost use Rattle.mt_names.specs.Types.{type_text};

    ghost output = { λ type. Some (type_text type) };

    fn fmt<W: fmt::Write>(&self, f: &mut fmt::Formatter<W>) -> fmt::Result {
        f.pad(self.as_str())
    }
}

/// A set of tablet types, as those whose traffic a workflow has switched.
#[derive(Clone, Copy, Debug, Default, Eq, Hash, Ord, PartialEq, PartialOrd)]
pub struct TypeSet {
    /// Whether `primary` is in the set.
    pub primary: bool,
    /// Whether `replica` is.
    pub replica: bool,
    /// Whether `rdonly` is.
    pub rdonly: bool,
}

impl TypeSet {
    /// The set of no type.
    pub const NONE: TypeSet = TypeSet {
        primary: false,
        replica: false,
        rdonly: false,
    };

    /// The set of every type.
    pub const ALL: TypeSet = TypeSet {
        primary: true,
        replica: true,
        rdonly: true,
    };

    /// The set of this type alone.
    pub fn of(tablet_type: TabletType) -> Self
        ensures { (type : TabletType) → IsTrue (has result type) ↔ (type ≡ tablet_type) }
    {
        TypeSet {
            primary: tablet_type == TabletType::Primary,
            replica: tablet_type == TabletType::Replica,
            rdonly: tablet_type == TabletType::Rdonly,
        }
    }

    /// Whether the set has this type.
    pub fn contains(self, tablet_type: TabletType) -> bool
        ensures { result ≡ has self tablet_type }
    {
        match tablet_type {
            TabletType::Primary => self.primary,
            TabletType::Replica => self.replica,
            TabletType::Rdonly => self.rdonly,
        }
    }

    /// The types of either set.
    pub fn union(self, other: TypeSet) -> TypeSet
        ensures { (type : TabletType) → has result type ≡ (has self type || has other type) }
    {
        TypeSet {
            primary: self.primary || other.primary,
            replica: self.replica || other.replica,
            rdonly: self.rdonly || other.rdonly,
        }
    }

    /// The types of this set that the other lacks.
    pub fn without(self, other: TypeSet) -> TypeSet
        ensures { (type : TabletType) → has result type ≡ (has self type && not (has other type)) }
    {
        TypeSet {
            primary: self.primary && !other.primary,
            replica: self.replica && !other.replica,
            rdonly: self.rdonly && !other.rdonly,
        }
    }

    /// The types that both sets have.
    pub fn both(self, other: TypeSet) -> TypeSet
        ensures { (type : TabletType) → has result type ≡ (has self type && has other type) }
    {
        TypeSet {
            primary: self.primary && other.primary,
            replica: self.replica && other.replica,
            rdonly: self.rdonly && other.rdonly,
        }
    }

    /// Whether the set has no type.
    pub fn is_empty(self) -> bool
        ensures { IsTrue result ↔ ((type : TabletType) → has self type ≡ false) }
    {
        !(self.primary || self.replica || self.rdonly)
    }

    /// Reads a set: `all`, `-` for none, or types separated by commas in any order, of which none stands twice.
    /// Else the fault is `N1 Empty` for an empty text, or that of the first word in fault, which is
    /// `N6 BadType` where it is no type and `N4 Repeated` where it stood before.
    pub fn parse(text: &str) -> Result<Self, NameFault>
        ensures value { result ≡ read_type_set text.now }
        ensures grammar { IsOk result ↔ IsTypeSetText text.now }
    {
        match text {
            "" => Err(NameFault::Empty),
            "all" => Ok(TypeSet::ALL),
            "-" => Ok(TypeSet::NONE),
            _ => parse_words(text),
        }
    }

    /// The set as a text, which is `-` for none, and else the types in the order of `TabletType::ALL`.
    pub fn text(self) -> ArrayString<MAX_SET_LENGTH>
        ensures bytes { result.bytes ≡ type_set_text self }
        ensures read_back { read_type_set (type_set_text self) ≡ Ok self }
    {
        let mut text = ArrayString::new();
        for tablet_type in TabletType::ALL {
            if self.contains(tablet_type) {
                push_word(&mut text, tablet_type.as_str());
            }
        }
        if text.as_str().is_empty() {
            text.push('-');
        }
        text
    }
}

/// The set of the types whose texts stand here separated by commas.
fn parse_words(text: &str) -> Result<TypeSet, NameFault>
    ensures { result ≡ read_words (slice_split (λ b. b == comma) text.now) }
{
    let mut set = TypeSet::NONE;
    for word in text.split(',') {
        let tablet_type = TabletType::parse(word)?;
        if set.contains(tablet_type) {
            return Err(NameFault::Repeated);
        }
        set = set.union(TypeSet::of(tablet_type));
    }
    Ok(set)
}

/// Adds a word, behind a comma unless it is the first.
pub fn push_word<const N: usize>(text: &mut ArrayString<N>, word: &str)
    requires { length text.old.bytes + 1 + length word.now ≤ N }
    ensures { text.new.bytes ≡ followed_by text.old.bytes word.now }
{
    if !text.as_str().is_empty() {
        text.push(',');
    }
    text.push_str(word);
}

impl fmt::Display for TypeSet {
    ghost output = { λ set. Some (type_set_text set) };

    fn fmt<W: fmt::Write>(&self, f: &mut fmt::Formatter<W>) -> fmt::Result {
        f.pad(self.text().as_str())
    }
}

/// Two sets with the same members are equal.
pub fn same_members_same_set()
    ensures { (s r : TypeSet) → ((type : TabletType) → has s type ≡ has r type) → s ≡ r }
{}

/// A list of types is read as their set, in whatever order they stand, if none stands twice; `all` is read as
/// the set of every type, and `-` as that of none.
pub fn any_order_is_read()
    ensures list { (types : List TabletType) → 0 < length types → AllPairs (λ s t. s ≢ t) types
        → read_type_set (list_text types) ≡ Ok (set_of types) }
    ensures all { read_type_set (codes "all") ≡ Ok all_types }
    ensures none { read_type_set (codes "-") ≡ Ok no_types }
{}

/// What a list is read as contains the types that are listed, and no other.
pub fn only_listed_are_read()
    ensures { (types : List TabletType) (set : TypeSet) → read_type_set (list_text types) ≡ Ok set
        → (type : TabletType) → IsTrue (has set type) ↔ Contains types type }
{}
