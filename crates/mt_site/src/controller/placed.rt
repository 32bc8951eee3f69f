//! Rows of a table at its place: what is asked without a look-up of its names, and answered in fewer bytes than a reply.
ghost use Rattle.std.specs.Prelude.{◌≡◌};
ghost use Rattle.mt_event.specs.Reasons.{done_by};
ghost use Rattle.mt_plain.specs.Events as plain;
ghost use Rattle.mt_site.specs.Applied.{AppliedAlone};
ghost use Rattle.mt_site.specs.ByHand.{read_from};

use crate::controller::Core;
use crate::rows::{self, Hint, NOWHERE};
use mt_event::Reason;
use mt_laws::every_run_keeps_the_headline;
use mt_model::Op;
use mt_names::{KeyspaceName, RuleTarget, TableName, TabletType, Value};
use mt_refinement::{
    a_core_stays_one, a_purged_base_stands, a_purged_core_stands,
    events_by_hand_step_and_leave_the_ways, what_is_purged_stays_purged,
};

/// A table of a keyspace, with a hint of where it stands.
#[derive(Drop)]
pub struct Place {
    /// The table, and its keyspace.
    pub target: RuleTarget,
    /// Where it may stand.
    hint: Hint,
}

impl Core {
    /// A table, with a hint of where it stands now, by which `write_row` and `read_row` find it sooner. Nothing is promised
    /// of the hint: the table may be dropped, or not be there. It takes no memory.
    pub fn place_of(&self, target: RuleTarget) -> Place
        ensures { result.target ≡ target }
    {
        let hint = match self.primaries.place(&target.keyspace) {
            Some(place) => Hint {
                keyspace: place,
                table: self
                    .primaries
                    .at(place, 0)
                    .place_of(&target.table)
                    .unwrap_or(usize::MAX),
            },
            None => NOWHERE,
        };
        Place { target, hint }
    }

    /// Writes a row of the table of a place. It is what `apply` does with `Ask::Write`, but that the table is found sooner: `F1 NoKeyspace`,
    /// `F2 NoTable`, `F3 Denied`, `F4 RowExists` or `F5 NoRow`, `F29 TooLong`, `F27 Full`, `F0 Memory`. The topology stays whatever is
    /// answered. As a segment of the log gets whole, it is purged.
    #[inline(always)]
    pub fn write_row(&mut self, place: &Place, op: Op) -> Result<(), Reason>
        ensures applied { AppliedAlone self.old (plain.write place.now.target.keyspace place.now.target.table op) (done_by result) self.new }
        ensures topology { self.new.base.topology ≡ self.old.base.topology }
    {
        self.write(place.hint, &place.target.keyspace, &place.target.table, op)
    }

    /// Reads a row, or none, of the table of a place, as a tablet of this type has it. It is what `apply` does with `Ask::Read`, but that the
    /// table is found sooner: `F1 NoKeyspace`, `F2 NoTable`, and of type primary `F3 Denied`. It takes no memory.
    #[inline(always)]
    pub fn read_row(
        &self,
        place: &Place,
        key: u64,
        tablet_type: TabletType,
    ) -> Result<Option<Value>, Reason>
        ensures { AppliedAlone self.now (plain.read place.now.target.keyspace place.now.target.table key tablet_type) (read_from result) self.now }
    {
        self.read(
            place.hint,
            &place.target.keyspace,
            &place.target.table,
            key,
            tablet_type,
        )
    }

    /// Writes a row of a table of a keyspace, which may stand where a hint says.
    #[inline(always)]
    pub(super) fn write(
        &mut self,
        hint: Hint,
        keyspace: &KeyspaceName,
        table: &TableName,
        op: Op,
    ) -> Result<(), Reason>
        ensures applied { AppliedAlone self.old (plain.write keyspace.now table.now op) (done_by result) self.new }
        ensures topology { self.new.base.topology ≡ self.old.base.topology }
    {
        a_core_stays_one();
        events_by_hand_step_and_leave_the_ways();
        a_purged_base_stands();
        a_purged_core_stands();
        what_is_purged_stays_purged();
        every_run_keeps_the_headline();
        rows::write_row(
            &mut self.primaries,
            &self.workflows,
            hint,
            keyspace,
            table,
            op,
        )
    }

    /// Reads a row of a table of a keyspace, which may stand where a hint says.
    #[inline(always)]
    pub(super) fn read(
        &self,
        hint: Hint,
        keyspace: &KeyspaceName,
        table: &TableName,
        key: u64,
        tablet_type: TabletType,
    ) -> Result<Option<Value>, Reason>
        ensures { AppliedAlone self.now (plain.read keyspace.now table.now key tablet_type) (read_from result) self.now }
    {
        events_by_hand_step_and_leave_the_ways();
        every_run_keeps_the_headline();
        rows::read_row(&self.primaries, hint, keyspace, table, key, tablet_type)
    }
}
