//! A session: a run whose lines C hands in one at a time.
ghost use Rattle.std.specs.Prelude.{IfErr, IfOk};
ghost use Rattle.mt_run.specs.LineRuns.{SoFar};

use crate::names::watched;
use crate::place::put_answer;
use crate::said::{Said, Told};
use crate::status::Status;
use mt_run::{LineRun, Tellers};
use mt_script::{LONGEST_LINE, LineText};
use std::alloc::Global;

/// A session: what it asked for so far wrote what a script of its lines writes, with the primaries of some keyspaces watched.
#[derive(Drop)]
pub struct Session {
    run: LineRun<Tellers>,
    waiting: LineText,
    said: Said,
    ghost so_far: { ∥ SoFar run.cached.site.watchers.scopes.items said.lines said.out run.cached.site.core ∥₁ },
}

impl Session {
    ghost use Rattle.mt.specs.Sessions.{Begins, IsNotOpened, Tells};

    /// Opens a session in which the primaries of the keyspaces that a text names are watched. `Names` or `Memory` if there is none.
    pub fn open(alloc: Global, keyspaces: &[u8]) -> Result<Box<Session>, Status>
        ensures opened { IfOk result (λ session. Begins keyspaces.now session.value) }
        ensures refused { IfErr result (λ status. IsNotOpened keyspaces.now status) }
    {
        let Some(keyspaces) = watched(keyspaces) else {
            return Err(Status::Names);
        };
        let Ok(tellers) = Tellers::of(alloc, &keyspaces) else {
            return Err(Status::Memory);
        };
        let session = Session {
            run: LineRun::open(alloc, tellers),
            waiting: LineText::new(),
            said: Said::new(),
        };
        match Box::new(alloc, session) {
            Ok(session) => Ok(session),
            Err(_) => Err(Status::Memory),
        }
    }

    /// Answers a line into a place, and says how many bytes the answer has. If the place has less room than the longest answer but
    /// for documents, nothing is done; if it has too little for a document, or there is no memory for one, the session is as it was.
    pub fn answer(&mut self, line: &[u8], place: &mut [u8]) -> (Status, usize)
        ensures { Tells self.old self.new line.now place.old place.new result }
    {
        if place.len() < LONGEST_LINE {
            return (Status::Room, 0);
        }
        self.waiting.clear();
        let answered = self.run.answer(&mut self.waiting, line);
        let (status, count) = put_answer(answered, &self.waiting, place);
        if let Status::Done = status {
            self.said = self.said.then(&Told {
                line,
                text: &place[..count],
            });
        }
        (status, count)
    }
}
