//! A session as C holds it.
ghost use Rattle.std.specs.Prelude.{◌≡◌, IfNone, IfSome, true, false};
ghost use Rattle.mt.specs.Sessions.{HasSaid};

use crate::held::Held;
use crate::loose::Loose;
use crate::session::Session;
use std::alloc::Global;

/// A session as C holds it: `struct mt_session`.
#[repr(C)]
#[derive(Drop)]
pub struct Handle {
    pub(crate) held: Held,
    pub(crate) opened: bool,
    ghost is: { opened ≡ held.full },
}

impl Handle {
    /// That of no session.
    pub fn closed() -> Handle
        ensures { result.opened ≡ false }
    {
        Handle {
            held: Held::none(),
            opened: false,
        }
    }

    /// That of a session.
    pub(crate) fn of(session: Box<Session>) -> Handle
        ensures opened { result.opened ≡ true }
        ensures said { HasSaid result.held.scopes result.held.lines result.held.out session.value }
    {
        Handle {
            held: Held::of(Loose::of(session)),
            opened: true,
        }
    }

    /// The session, if one is open.
    pub(crate) fn into_session(self, alloc: Global) -> Option<Box<Session>>
        ensures opened { IfSome result (λ session. self.opened ≡ true) }
        ensures said { IfSome result (λ session. HasSaid self.held.scopes self.held.lines self.held.out session.value) }
        ensures closed { IfNone result (self.opened ≡ false) }
    {
        let Handle { held, opened } = self;
        if opened {
            Some(held.into_loose(alloc).into_box())
        } else {
            None
        }
    }
}
