//! How a call ends.
ghost use Rattle.std.specs.Prelude.{◌≡◌};
ghost use Rattle.mt.specs.Exports.{number_of};

/// How a call ends, as `embed/mt.h` numbers it.
#[derive(Clone, Copy, Debug, Eq, PartialEq)]
pub enum Status {
    /// What was asked for is done.
    Done,
    /// There was no memory for it.
    Memory,
    /// There is no room for the answer.
    Room,
    /// The session isn't open.
    Closed,
    /// It is open already.
    Open,
    /// A word is no keyspace's name, or there are too many.
    Names,
    /// The script has more than 1,048,576 bytes.
    TooLong,
}

impl Status {
    /// The number that C sees.
    pub fn number(self) -> i32
        ensures { result ≡ number_of self }
    {
        match self {
            Status::Done => 0,
            Status::Memory => 1,
            Status::Room => 2,
            Status::Closed => 3,
            Status::Open => 4,
            Status::Names => 5,
            Status::TooLong => 6,
        }
    }
}
