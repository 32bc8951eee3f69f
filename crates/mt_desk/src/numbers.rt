//! Which pass is each client's, and how far each is read beside a history.
ghost use Rattle.std.specs.Prelude.{◌≡◌, ◌≤◌, ℕ, All, Contains, IfSome, None, get_or, length, map};
ghost use Rattle.mt_desk.specs.Numbers.{AreNumbers};

use crate::{DeskName, Pass};
use std::alloc::{AllocError, Global};

/// How many clients there may be.
const CLIENTS: usize = 65_536;

/// Two tables of all clients that there may be, with the memory that it takes to compare passes with a history.
#[derive(Drop)]
pub(crate) struct Numbers {
    /// Of each client the number of its pass among some, counted from 1, and 0 where it has none.
    pub(crate) passes: Vec<usize>,
    /// How many calls of that pass are read.
    pub(crate) read: Vec<usize>,
    ghost passes_long: { length passes.items ≡ 65536 },
    ghost read_long: { length read.items ≡ 65536 },
}

impl Numbers {
    /// The tables. They are refused only when out of memory.
    pub(crate) fn new(alloc: Global) -> Result<Numbers, AllocError> {
        let passes = Vec::from_elem(alloc, 0, CLIENTS)?;
        let read = Vec::from_elem(alloc, 0, CLIENTS)?;
        Ok(Numbers { passes, read })
    }

    /// Notes which of some passes is each client's. Of a client that has several it is the last one.
    pub(crate) fn note<D: DeskName>(&mut self, passes: &[Pass<D>])
        ensures { AreNumbers (map (λ pass. (pass.client, pass.calls.items)) passes.now) self.new.passes.items }
    {
        let Numbers { passes: table, .. } = self;
        table.fill(0);
        number(table.as_mut_slice(), passes);
    }

    /// The first of some clients that has no number, if there is one.
    pub(crate) fn first_without(&self, clients: &[u16]) -> Option<u16>
        ensures all { result ≡ None → All (λ client. 1 ≤ get_or self.now.passes.items client 0) clients.now }
        ensures without { IfSome result (λ client. Contains clients.now client × (get_or self.now.passes.items client 0 ≡ 0)) }
    {
        first_without(self.passes.as_slice(), clients)
    }
}

/// Notes of each client the number of its pass, in a table that has 0 of each.
fn number<D: DeskName>(numbers: &mut [usize], passes: &[Pass<D>])
    requires long { length numbers.old ≡ 65536 }
    requires none { (client : ℕ) → get_or numbers.old client 0 ≡ 0 }
    ensures long { length numbers.new ≡ 65536 }
    ensures are { AreNumbers (map (λ pass. (pass.client, pass.calls.items)) passes.now) numbers.new }
{
    for (index, pass) in passes.iter().enumerate() {
        numbers[usize::from(pass.client())] = index + 1;
    }
}

/// The first of some clients that has no number in a table, if there is one.
fn first_without(numbers: &[usize], clients: &[u16]) -> Option<u16>
    requires { length numbers.now ≡ 65536 }
    ensures all { result ≡ None → All (λ client. 1 ≤ get_or numbers.now client 0) clients.now }
    ensures without { IfSome result (λ client. Contains clients.now client × (get_or numbers.now client 0 ≡ 0)) }
{
    for client in clients {
        if numbers[usize::from(*client)] == 0 {
            return Some(*client);
        }
    }
    None
}
