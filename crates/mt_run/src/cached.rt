//! A site that is asked for rows by the names of their tables.
ghost use Rattle.std.specs.Prelude.{◌≡◌, IfSome, IfNone, is_ok, is_some};
ghost use Rattle.mt_names.specs.Names.{read_table};
ghost use Rattle.mt_plain.specs.Plain.{opening};
ghost use Rattle.mt_stands.specs.Purges.{IsPurged};
ghost use Rattle.mt_stands.specs.Ways.{CoreStands};
ghost use Rattle.mt_run.specs.Names.{LeadThere, plain_key};
ghost use Rattle.mt_run.specs.Rows.{ReadThrough, WrittenThrough};

use crate::names::Names;
use mt_event::Reason;
use mt_model::{Op, TopologyFault};
use mt_names::{RuleKey, TableName, TabletType, Value};
use mt_refinement::a_base_tells_what_its_state_serves;
use mt_site::Site;
use mt_watch::Asks;
use std::alloc::Global;
use std::str;

/// A site beside where names led when rows were last asked for by them. Each of them leads there still: a row and an advance leave that
/// true, and whoever asks for anything else forgets the names first. So most rows of a script take one look-up of a name, by its bytes in
/// the line, where the site alone takes four and more. Only names of tables alone are kept, without a keyspace or a type. At each line of a
/// script no log keeps a whole segment that nobody needs. (Vitess: a router that keeps the plans of queries)
#[derive(Drop)]
pub(crate) struct CachedSite<W: Asks> {
    /// The site.
    pub site: Site<W>,
    /// The names.
    pub names: Names,
    ghost lead: { LeadThere site.core.base.topology names.kept.entries },
    ghost purged: { IsPurged site.core.base },
}

impl<W: Asks> CachedSite<W> {
    /// A site as `Site::open` makes it, and no names. It takes no memory.
    pub fn open(alloc: Global, watchers: W) -> Self
        ensures watchers { result.site.watchers ≡ watchers }
        ensures stands { CoreStands (opening (W.scopes result.site.watchers)) (W.scopes result.site.watchers) result.site.core }
    {
        CachedSite {
            site: Site::open(alloc, watchers),
            names: Names::new(alloc),
        }
    }

    /// Keeps where a name by which a row was asked for leads for the primary, if it is to be kept.
    fn keep(&mut self, name: RuleKey)
        requires { name ≡ plain_key name.table }
        ensures { self.new.site ≡ self.old.site }
    {
        if !self.names.wants_more() {
            return;
        }
        if let Ok(target) = self.site.resolve(&name, TabletType::Primary) {
            let place = self.site.core.place_of(target);
            self.names.keep(name.table, place);
        }
    }

    /// Writes a row of the table that a name alone leads to for the primary, as `write_through` does. The name is given as its bytes;
    /// of bytes that are no table's name nothing is done, and there is no answer. A name that is kept isn't read.
    #[inline(always)]
    pub fn write_named(
        &mut self,
        name: &[u8],
        op: Op,
    ) -> Option<Result<Result<(), Reason>, TopologyFault>>
        ensures watchers { self.new.site.watchers ≡ self.old.site.watchers }
        ensures name { is_some result ≡ is_ok (read_table name.now) }
        ensures none { IfNone result (self.new.site ≡ self.old.site) }
        ensures told { IfSome result (λ told. WrittenThrough self.old.site.core (plain_key name.now) op told self.new.site.core) }
    {
        a_base_tells_what_its_state_serves();
        match self.names.find(name) {
            Some(place) => Some(Ok(self.site.core.write_row(place, op))),
            None => self.write_found(name, op),
        }
    }

    /// Writes a row of the table that a name alone leads to, by a look-up, and keeps where that is.
    #[inline(never)]
    fn write_found(
        &mut self,
        name: &[u8],
        op: Op,
    ) -> Option<Result<Result<(), Reason>, TopologyFault>>
        ensures watchers { self.new.site.watchers ≡ self.old.site.watchers }
        ensures name { is_some result ≡ is_ok (read_table name.now) }
        ensures none { IfNone result (self.new.site ≡ self.old.site) }
        ensures told { IfSome result (λ told. WrittenThrough self.old.site.core (plain_key name.now) op told self.new.site.core) }
    {
        let key = table_key(name)?;
        let told = self.write_through(&key, op);
        self.keep(key);
        Some(told)
    }

    /// Reads a row, or none, of the table that a name alone leads to for the primary, as `read_through` does. The site stays as it is.
    /// The name is given as its bytes; of bytes that are no table's name there is no answer. A name that is kept isn't read.
    pub fn read_named(
        &mut self,
        name: &[u8],
        key: u64,
    ) -> Option<Result<Result<Option<Value>, Reason>, TopologyFault>>
        ensures same { self.new.site ≡ self.old.site }
        ensures name { is_some result ≡ is_ok (read_table name.now) }
        ensures told { IfSome result (λ told. ReadThrough self.old.site.core (plain_key name.now) key TabletType.Primary told) }
    {
        a_base_tells_what_its_state_serves();
        match self.names.find(name) {
            Some(place) => Some(Ok(self.site.core.read_row(place, key, TabletType::Primary))),
            None => self.read_found(name, key),
        }
    }

    /// Reads a row of the table that a name alone leads to, by a look-up, and keeps where that is.
    #[inline(never)]
    fn read_found(
        &mut self,
        name: &[u8],
        key: u64,
    ) -> Option<Result<Result<Option<Value>, Reason>, TopologyFault>>
        ensures same { self.new.site ≡ self.old.site }
        ensures name { is_some result ≡ is_ok (read_table name.now) }
        ensures told { IfSome result (λ told. ReadThrough self.old.site.core (plain_key name.now) key TabletType.Primary told) }
    {
        let name = table_key(name)?;
        let told = self.read_through(&name, key, TabletType::Primary);
        self.keep(name);
        Some(told)
    }

    /// Writes a row of the table that a name leads to for the primary: a look-up, as `Site::resolve` answers it, and then
    /// `Core::write_row` there. `T2 NoTable` or `T3 Ambiguous` if the name leads nowhere; that leaves the site as it was. What is kept stays.
    pub fn write_through(
        &mut self,
        name: &RuleKey,
        op: Op,
    ) -> Result<Result<(), Reason>, TopologyFault>
        ensures watchers { self.new.site.watchers ≡ self.old.site.watchers }
        ensures told { WrittenThrough self.old.site.core name.now op result self.new.site.core }
    {
        let target = self.site.resolve(name, TabletType::Primary)?;
        let place = self.site.core.place_of(target);
        Ok(self.site.core.write_row(&place, op))
    }

    /// Reads a row, or none, of the table that a name leads to for a type: a look-up, as `Site::resolve` answers it, and then
    /// `Core::read_row` there. `T2 NoTable` or `T3 Ambiguous` if the name leads nowhere. It takes no memory.
    pub fn read_through(
        &self,
        name: &RuleKey,
        key: u64,
        tablet_type: TabletType,
    ) -> Result<Result<Option<Value>, Reason>, TopologyFault>
        ensures { ReadThrough self.now.site.core name.now key tablet_type result }
    {
        let target = self.site.resolve(name, tablet_type)?;
        let core = &self.site.core;
        let place = core.place_of(target);
        Ok(core.read_row(&place, key, tablet_type))
    }
}

/// A table's name alone as a key, of the bytes that are one.
fn table_key(name: &[u8]) -> Option<RuleKey>
    ensures named { is_some result ≡ is_ok (read_table name.now) }
    ensures key { IfSome result (λ key. key ≡ plain_key name.now) }
{
    match str::from_utf8(name) {
        Ok(text) => Some(RuleKey {
            keyspace: None,
            table: TableName::parse(text).ok()?,
            tablet_type: None,
        }),
        Err(_) => None,
    }
}
