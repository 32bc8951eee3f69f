//! The site: the core of the controller beside the watchers that it asks.
ghost use Rattle.std.specs.Prelude.{◌≡◌, IfErr, IfOk, List, string_bytes};
ghost use Rattle.mt_event.specs.Events.{answer_from, event_of};
ghost use Rattle.mt_model.specs.declared.entries.Scope.{Scope};
ghost use Rattle.mt_model.specs.Documents.{dump_text, rules_text};
ghost use Rattle.mt_model.specs.Topology.{resolution};
ghost use Rattle.mt_plain.specs.Plain.{Plain, opening};
ghost use Rattle.mt_plain.specs.Refuse.{owed};
ghost use Rattle.mt_plain.specs.Serve.{served};
ghost use Rattle.mt_stands.specs.Purges.{IsPurged};
ghost use Rattle.mt_stands.specs.Ways.{CoreStands, empty_core};
ghost use Rattle.mt_site.specs.Applied.{Applied};
ghost use Rattle.mt_site.specs.Owed.{owed_to};
ghost use Rattle.mt_site.specs.Stood.{IsCoreWith};

use crate::Core;
use mt_event::{Event, Refusal, Reply};
use mt_model::TopologyFault;
use mt_names::{RuleKey, RuleTarget, TabletType};
use mt_rules::RulesFault;
use mt_topology::Topology;
use mt_watch::Asks;
use std::alloc::Global;

/// The controller: its core, and the watchers that it asks. (Vitess: the vtctld server, which runs MoveTables, and the routers
/// and primaries that it keeps up to date)
#[derive(Drop)]
pub struct Site<W: Asks> {
    /// The core: who has both asks it for what an event is too large for, as `site.core.apply(&site.watchers, ask)`.
    pub core: Core,
    /// The watchers.
    pub watchers: W,
}

impl<W: Asks> Site<W> {
    /// A site without keyspaces and workflows, which asks these watchers. It takes no memory.
    pub fn open(alloc: Global, watchers: W) -> Self
        ensures core { result.core ≡ empty_core }
        ensures watchers { result.watchers ≡ watchers }
        ensures stands { CoreStands (opening (W.scopes watchers)) (W.scopes watchers) result.core }
        ensures stood { IsCoreWith (W.scopes result.watchers) result.core }
        ensures purged { IsPurged result.core.base }
    {
        Site {
            core: Core::new(alloc),
            watchers,
        }
    }

    /// Applies an event: see `Core::apply`. The watchers are those that the site was opened with.
    pub fn apply(&mut self, event: &Event) -> Result<Reply, Refusal>
        ensures watchers { self.new.watchers ≡ self.old.watchers }
        ensures applied { Applied (W.scopes self.old.watchers) (W.may_answer self.old.watchers) self.old.core (event_of event.now) (answer_from result) self.new.core }
    {
        let ask = event.ask();
        let told = self.core.apply(&self.watchers, ask);
        self.core.reply(ask, told)
    }

    /// The topology. It takes no memory.
    pub fn topology(&self) -> &Topology
        ensures { result.now ≡ self.now.core.base.topology }
    {
        self.core.topology()
    }

    /// The watchers. It takes no memory.
    pub fn watchers(&self) -> &W
        ensures { result.now ≡ self.now.watchers }
    {
        &self.watchers
    }

    /// Where a name leads for a type. It takes no memory.
    pub fn resolve(
        &self,
        key: &RuleKey,
        tablet_type: TabletType,
    ) -> Result<RuleTarget, TopologyFault>
        ensures value { result ≡ resolution self.now.core.base.topology key.now tablet_type }
        ensures served { (p : Plain) (scopes : List Scope) → CoreStands p scopes self.now.core → result ≡ resolution (served p) key.now tablet_type }
    {
        self.core.resolve(key, tablet_type)
    }

    /// The document of the rules: `R0 Memory`.
    pub fn rules_json(&self) -> Result<String, RulesFault>
        ensures text { IfOk result (λ text. string_bytes text ≡ rules_text self.now.core.base.topology.rules) }
        ensures served { (p : Plain) (scopes : List Scope) → CoreStands p scopes self.now.core → IfOk result (λ text. string_bytes text ≡ rules_text (served p).rules) }
        ensures memory { IfErr result (λ fault. fault ≡ RulesFault.Memory) }
    {
        self.core.rules_json()
    }

    /// The document of the whole topology: `T0 Memory`.
    pub fn dump(&self) -> Result<String, TopologyFault>
        ensures text { IfOk result (λ text. string_bytes text ≡ dump_text self.now.core.base.topology) }
        ensures served { (p : Plain) (scopes : List Scope) → CoreStands p scopes self.now.core → IfOk result (λ text. string_bytes text ≡ dump_text (served p)) }
        ensures memory { IfErr result (λ fault. fault ≡ TopologyFault.Memory) }
    {
        self.core.dump()
    }

    /// The events that are owed to the live workflows, so that each can be given up: see `Core::owed`. It takes no memory.
    pub fn owed(&self) -> usize
        ensures value { result ≡ owed_to self.now.core.base.workflows }
        ensures served { (p : Plain) (scopes : List Scope) → CoreStands p scopes self.now.core → result ≡ owed p }
    {
        self.core.owed()
    }
}
