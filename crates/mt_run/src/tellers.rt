//! Whom a run has watch a topology.
ghost use Rattle.std.specs.Prelude.{◌≡◌, IfErr, IfOk};
ghost use Rattle.mt_plain.specs.Output.{watchers_of};

use mt_names::KeyspaceName;
use mt_script::ScriptFault;
use mt_watch::{Asks, Change, Notice, Scope, WatchersFault};
use std::alloc::Global;

/// The watchers of a run: one for the routers, and one for the primary of each keyspace that is named, in their order; a keyspace that is named
/// twice has two. Each tells itself what of a change concerns its scope, and refuses it if there is no memory for that. They hold no
/// callbacks, so that a run can be handed out with them. (Vitess: those who follow SrvVSchema and the tablets' records)
#[derive(Drop)]
pub struct Tellers {
    scopes: Vec<Scope>,
    alloc: Global,
}

impl Tellers {
    /// Those of some keyspaces. `ScriptFault::Memory` alone.
    pub fn of(alloc: Global, keyspaces: &[KeyspaceName]) -> Result<Self, ScriptFault>
        ensures scopes { IfOk result (λ tellers. tellers.scopes.items ≡ watchers_of keyspaces.now) }
        ensures memory { IfErr result (λ fault. fault ≡ ScriptFault.Memory) }
    {
        let mut scopes = Vec::new(alloc);
        if scopes.push(Scope::Routes).is_err() {
            return Err(ScriptFault::Memory);
        }
        for keyspace in keyspaces {
            if scopes.push(Scope::Primary(keyspace.copied())).is_err() {
                return Err(ScriptFault::Memory);
            }
        }
        Ok(Tellers { scopes, alloc })
    }
}

impl Asks for Tellers {
    ghost use Rattle.std.specs.Prelude.{⊤};

    ghost scopes = { λ tellers. tellers.scopes.items };

    ghost may_answer = { λ _ _ _ _. ⊤ };

    fn has(&self, scope: &Scope) -> bool {
        for own in &self.scopes {
            if own == scope {
                return true;
            }
        }
        false
    }

    fn ask(&self, scope: &Scope, change: &Change) -> Result<Notice, WatchersFault> {
        for (index, own) in self.scopes.iter().enumerate() {
            if own == scope {
                return match Notice::of(self.alloc, scope, change) {
                    Ok(notice) => Ok(notice),
                    Err(_) => Err(WatchersFault::Refused(index)),
                };
            }
        }
        Err(WatchersFault::NoWatcher)
    }
}
