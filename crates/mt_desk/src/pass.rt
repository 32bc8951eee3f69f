//! What a client asks with.
ghost use Rattle.std.specs.Prelude.{◌≡◌, ◌+◌, ◌<◌, ◌≤◌, ◌++◌, [], ◌∷◌, IfErr, IsOk, OnOk, length};
ghost use Rattle.std.specs.Vec.{vec_capacity};
ghost use Rattle.mt_desk.specs.Histories.{call};

use crate::{Call, DeskFault, DeskName};
use mt_event::{CompactAnswer, CompactEvent};
use std::alloc::Global;
use std::marker::PhantomData;

/// What one client asks the desk with: it lists the calls that the client made, in their order. Each client has one pass at most.
#[derive(Drop)]
pub struct Pass<D: DeskName> {
    client: u16,
    calls: Vec<Call>,
    of: PhantomData<D>,
}

impl<D: DeskName> Pass<D> {
    /// A pass that lists nothing. It takes no memory.
    pub(crate) fn new(alloc: Global, client: u16) -> Self
        ensures client { result.client ≡ client }
        ensures calls { result.calls.items ≡ [] }
    {
        Pass {
            client,
            calls: Vec::new(alloc),
            of: PhantomData,
        }
    }

    /// The client. It takes no memory.
    pub fn client(&self) -> u16
        ensures { result ≡ self.now.client }
    {
        self.client
    }

    /// The calls that the client made, in their order. It takes no memory.
    pub fn calls(&self) -> &[Call]
        ensures { result.now ≡ self.now.calls.items }
    {
        self.calls.as_slice()
    }

    /// Makes places for so many calls more: `K0 Memory`, which leaves what it lists. The next calls, that many, take no memory from the pass: what is long of
    /// them it shares with the lines of the history.
    pub fn reserve(&mut self, more: usize) -> Result<(), DeskFault>
        ensures client { self.new.client ≡ self.old.client }
        ensures calls { self.new.calls.items ≡ self.old.calls.items }
        ensures room { OnOk result (length self.old.calls.items + more ≤ vec_capacity self.new.calls) }
        ensures memory { IfErr result (λ fault. fault ≡ DeskFault.Memory) }
    {
        match self.calls.reserve(more) {
            Ok(()) => Ok(()),
            Err(_) => Err(DeskFault::Memory),
        }
    }

    /// Makes a place for a call: `K0 Memory`, which leaves what it lists. It takes no memory where there is a place.
    pub(crate) fn make_place(&mut self) -> Result<(), DeskFault>
        ensures client { self.new.client ≡ self.old.client }
        ensures calls { self.new.calls.items ≡ self.old.calls.items }
        ensures place { OnOk result (length self.old.calls.items < vec_capacity self.new.calls) }
        ensures none { length self.old.calls.items < vec_capacity self.old.calls → IsOk result × (vec_capacity self.new.calls ≡ vec_capacity self.old.calls) }
        ensures memory { IfErr result (λ fault. fault ≡ DeskFault.Memory) }
    {
        if self.calls.len() < self.calls.capacity() {
            return Ok(());
        }
        self.reserve(1)
    }

    /// Lists one call more, for which there is a place. It takes no memory.
    pub(crate) fn add(&mut self, event: CompactEvent, answer: CompactAnswer)
        requires { length self.old.calls.items < vec_capacity self.old.calls }
        ensures client { self.new.client ≡ self.old.client }
        ensures calls { self.new.calls.items ≡ self.old.calls.items ++ call event answer ∷ [] }
        ensures places { vec_capacity self.new.calls ≡ vec_capacity self.old.calls }
    {
        self.calls.push_reserved(Call { event, answer });
    }
}
