//! A box as its pointer alone, whose type C may see.
ghost use Rattle.std.specs.Prelude.{◌≡◌, ℕ, Bool, List, true, false};
ghost use Rattle.mt_model.specs.declared.entries.Scope.{Scope};

use crate::loose::Loose;
use crate::session::Session;
use std::alloc::Global;
use std::marker::Model;

/// The pointer of a handle: it owns a session with these watchers, these lines so far, which wrote this, or nothing. C sees a pointer alone.
#[repr(C)]
#[derive(Drop)]
pub struct Held {
    at: *mut u8,
    pub ghost full: { Bool },
    pub ghost scopes: { List Scope },
    pub ghost lines: { List (List ℕ) },
    pub ghost out: { List ℕ },
}

impl Model for Held {
    ghost use Rattle.mt.specs.Sessions.{HasSaid};
    ghost use Rattle.mt.specs.Held.{held};
    ghost use Rattle.mt.specs.contracts.session.Session.{the_row};
    ghost use Rattle.std.specs.contracts.impls.GlobalAllocator.TheImpl.{ghosts};

    ghost also_owns = { λ h. held ghosts.dealloc_token the_row (HasSaid h.scopes h.lines h.out) h.at h.full };
}

impl Held {
    ghost use Rattle.mt.specs.Sessions.{HasSaid};

    /// A session's pointer.
    pub(crate) fn of(session: Loose<Session, Global>) -> Held
        ensures { (result.full ≡ true) × HasSaid result.scopes result.lines result.out session.value }
    {
        let Loose { at, alloc: _ } = session;
        Held { at: at as *mut u8 }
    }

    /// That of no session.
    pub fn none() -> Held
        ensures { result.full ≡ false }
    {
        Held {
            at: std::ptr::null_mut(),
        }
    }

    /// The session.
    pub(crate) fn into_loose(self, alloc: Global) -> Loose<Session, Global>
        requires { self.full ≡ true }
        ensures { HasSaid self.scopes self.lines self.out result.value }
    {
        let Held { at } = self;
        Loose {
            at: at as *mut Session,
            alloc,
        }
    }
}
