//! What is kept of what workers tell.
ghost use Rattle.std.specs.Prelude.{◌≡◌, ◌↔◌, ℕ, IfErr, IfOk, IsTrue, MatchBool};
ghost use Rattle.mt_workers.specs.Collected.{Adds, HasFirst, IsCollected, IsWhole, awaiting, lines_of, times};

use crate::{CollectFault, Message};
use indexmap::IndexMap;
use mt_event::{Refusal, Reply};
use std::alloc::Global;
use std::marker::Model;

/// What came of the lines of some workers: each worker has so many, numbered from 0, and each line is kept once.
#[derive(Drop)]
pub struct Collector {
    lines: Vec<u64>,
    replies: IndexMap<(usize, u64), Result<Reply, Refusal>>,
}

impl Model for Collector {
    ghost use Rattle.mt_workers.specs.Collected.{Collected, IsCollected, collected_in};

    ghost Value = { Collected };

    ghost view = { λ collector. collected_in collector.lines.items collector.replies.entries };

    ghost invariant = { λ collector. IsCollected (collected_in collector.lines.items collector.replies.entries) };
}

impl Collector {
    /// A collector that waits for so many lines of each worker, from worker 0: `C0 Memory`.
    pub fn new(alloc: Global, lines: &[u64]) -> Result<Self, CollectFault>
        ensures awaiting { IfOk result (λ collector. collector ≡ awaiting lines.now) }
        ensures memory { IfErr result (λ fault. fault ≡ CollectFault.Memory) }
    {
        match Vec::from_slice(alloc, lines) {
            Ok(lines) => Ok(Collector {
                lines,
                replies: IndexMap::new(alloc),
            }),
            Err(_) => Err(CollectFault::Memory),
        }
    }

    /// What is true of every collector, for a caller's proof: no line is there twice, and no line that it doesn't wait for. It does
    /// nothing.
    fn facts(&self)
        ensures { IsCollected self.now }
    {
        let _replies = &self.replies;
    }

    /// How many lines it waits for, of each worker.
    fn lines(&self) -> &[u64]
        ensures { result.now ≡ self.now.lines }
    {
        self.lines.as_slice()
    }

    /// How many lines it waits for of a worker: none of one that isn't there.
    fn lines_of(&self, worker: usize) -> u64
        ensures { result ≡ lines_of self.now worker }
    {
        match self.lines().get(worker) {
            Some(lines) => *lines,
            None => 0,
        }
    }

    /// Whether a line of a worker is there.
    fn has(&self, worker: usize, line: u64) -> bool
        ensures { MatchBool result (times self.now worker line ≡ 1) (times self.now worker line ≡ 0) }
    {
        self.replies.contains_key(&(worker, line))
    }

    /// Adds what a worker told of a line. It is refused as `C2 Stranger` exactly where there is no such worker, or it has no such
    /// line; as `C1 Double` exactly where that line is there; else it may be refused as `C0 Memory`. What is refused is dropped, and
    /// the others stay.
    pub fn add(&mut self, message: Message) -> Result<(), CollectFault>
        ensures { Adds self.old message result self.new }
    {
        let Message {
            worker,
            line,
            reply,
        } = message;
        let worker = usize::from(worker);
        if line >= self.lines_of(worker) {
            return Err(CollectFault::Stranger);
        }
        if self.has(worker, line) {
            return Err(CollectFault::Double);
        }
        match self.replies.insert((worker, line), reply) {
            Ok(_) => Ok(()),
            Err(_) => Err(CollectFault::Memory),
        }
    }

    /// Whether the first so many lines of a worker are there.
    fn has_first(&self, worker: usize, lines: u64) -> bool
        ensures { IsTrue result ↔ HasFirst self.now worker lines }
    {
        for line in 0..lines {
            if !self.has(worker, line) {
                return false;
            }
        }
        true
    }

    /// Whether each line of each worker is there. It takes no memory.
    pub fn whole(&self) -> bool
        ensures { IsTrue result ↔ IsWhole self.now }
    {
        self.facts();
        let lines = self.lines();
        for (worker, count) in lines.iter().enumerate() {
            if !self.has_first(worker, *count) {
                return false;
            }
        }
        true
    }
}
