//! The part of a workflow: its places, made and dropped together.
ghost use Rattle.std.specs.Prelude.{◌≡◌, true, false, None, IfErr, OnOk, map, option_copied, reverse};
ghost use Rattle.std.specs.List.{AllByRecursion};
ghost use Rattle.mt_model.specs.Part.{keys_of_name, part_keys, table_part_keys, table_rule_keys, with_place, with_places, without_place, without_places};
ghost use Rattle.mt_model.specs.Topology.{has_place};
ghost use Rattle.mt_keyspace.specs.Edits.{Edits};
ghost use Rattle.mt_rules.specs.Rules.{four_keys};
ghost use Rattle.mt_topology.specs.Part.{all_made, keys_made, lacks_a_place, name_key, place_grows, place_refusal, places_refusal, reserve_refusal};

use crate::made::Made;
use crate::room;
use crate::rules::{add_rule, lacks_name, release_name};
use crate::topology::Topology;
use mt_model::{EntryKey, TopologyFault, key_of_name};
use mt_names::{KeyspaceName, RuleKey, TableName, TabletType};

/// How many notes are made of a table of which nothing has a place: of its three names, of its denial at both sides, and of its presence.
const NOTES_OF_TABLE: usize = 6;

impl Topology {
    /// Makes a place for every entry of a workflow's part, as MoveTables moves the tables from the source to the target:
    /// twelve rule keys a table, its denial at both sides, its presence at the target. No value is changed. First
    /// `T1 NoKeyspace`, where the source or the target isn't there; then `T5 Full`, where the places that the part lacks
    /// don't all find room, a table that is named twice counted twice: 4,096 rule entries, and at each keyspace 256 tables
    /// and 256 denials; at last `T0 Memory`, which can't come where the part lacks no place. A refusal leaves no place
    /// behind. For the denials alone it is refused only where the places that they lack would pass 256 at the source or at
    /// the target.
    pub fn reserve_part(
        &mut self,
        source: &KeyspaceName,
        target: &KeyspaceName,
        tables: &[TableName],
    ) -> Result<(), TopologyFault>
        ensures { Edits self.old (reserve_refusal self.old source.now target.now tables.now) (lacks_a_place self.old (part_keys source.now target.now tables.now))
            (with_places self.old (part_keys source.now target.now tables.now)) result self.new }
    {
        let refusal = room::refusal(&self.rules, &self.keyspaces, source, target, tables);
        if let Some(fault) = refusal {
            return Err(fault);
        }
        if !self.lacks_a_place(source, target, tables) {
            return Ok(());
        }
        let most = tables.len().saturating_mul(NOTES_OF_TABLE);
        let Ok(mut made) = Vec::with_capacity(self.alloc, most) else {
            return Err(TopologyFault::Memory);
        };
        let answer = self.make_part(source, target, tables, &mut made);
        if answer.is_err() {
            self.take_back(&made);
        }
        answer
    }

    /// Drops the places of a workflow's part that hold no rule, no denial and no table. No value is changed. It takes no
    /// memory.
    pub fn release_part(
        &mut self,
        source: &KeyspaceName,
        target: &KeyspaceName,
        tables: &[TableName],
    )
        ensures { self.new ≡ without_places self.old (part_keys source.now target.now tables.now) }
    {
        for table in tables.iter().rev() {
            self.release_table_part(source, target, table);
        }
    }

    /// Whether an entry of a part lacks a place.
    fn lacks_a_place(
        &self,
        source: &KeyspaceName,
        target: &KeyspaceName,
        tables: &[TableName],
    ) -> bool
        ensures { result ≡ lacks_a_place self.now (part_keys source.now target.now tables.now) }
    {
        for table in tables {
            if self.lacks_one_of(source, target, table) {
                return true;
            }
        }
        false
    }

    /// Whether one of a table's keys lacks a place.
    fn lacks_one_of(&self, source: &KeyspaceName, target: &KeyspaceName, table: &TableName) -> bool
        ensures { result ≡ lacks_a_place self.now (table_part_keys source.now target.now table.now) }
    {
        if lacks_name(&self.rules, None, table) {
            return true;
        }
        if lacks_name(&self.rules, Some(source), table) {
            return true;
        }
        if lacks_name(&self.rules, Some(target), table) {
            return true;
        }
        if !self.keyspaces.has_denied_place(source, table) {
            return true;
        }
        if !self.keyspaces.has_denied_place(target, table) {
            return true;
        }
        !self.keyspaces.has_place(target, table)
    }

    /// Drops the places of a table's keys that hold nothing, the last first.
    fn release_table_part(
        &mut self,
        source: &KeyspaceName,
        target: &KeyspaceName,
        table: &TableName,
    )
        ensures { self.new ≡ without_places self.old (reverse (table_part_keys source.now target.now table.now)) }
    {
        self.keyspaces.release_table(target, table);
        self.keyspaces.release_denial(target, table);
        self.keyspaces.release_denial(source, table);
        release_name(&mut self.rules, Some(target), table);
        release_name(&mut self.rules, Some(source), table);
        release_name(&mut self.rules, None, table);
    }

    /// Makes the places of a part, for which there is room, and notes those that it made. It stops at `T0 Memory`.
    fn make_part<'a>(
        &mut self,
        source: &'a KeyspaceName,
        target: &'a KeyspaceName,
        tables: &'a [TableName],
        made: &mut Vec<Made<'a>>,
    ) -> Result<(), TopologyFault>
        requires { places_refusal self.old (part_keys source.now target.now tables.now) ≡ None }
        ensures all { OnOk result (self.new ≡ with_places self.old (part_keys source.now target.now tables.now)) }
        ensures memory { IfErr result (λ fault. fault ≡ TopologyFault.Memory) }
        ensures back { without_places self.new (reverse (all_made made.new.items)) ≡ without_places self.old (reverse (all_made made.old.items)) }
    {
        for table in tables {
            self.make_table_part(source, target, table, made)?;
        }
        Ok(())
    }

    /// Makes the places of a table's keys, for which there is room, and notes those that it made. It stops at `T0 Memory`.
    fn make_table_part<'a>(
        &mut self,
        source: &'a KeyspaceName,
        target: &'a KeyspaceName,
        table: &'a TableName,
        made: &mut Vec<Made<'a>>,
    ) -> Result<(), TopologyFault>
        requires { places_refusal self.old (table_part_keys source.now target.now table.now) ≡ None }
        ensures all { OnOk result (self.new ≡ with_places self.old (table_part_keys source.now target.now table.now)) }
        ensures memory { IfErr result (λ fault. fault ≡ TopologyFault.Memory) }
        ensures back { without_places self.new (reverse (all_made made.new.items)) ≡ without_places self.old (reverse (all_made made.old.items)) }
    {
        self.make_rules(source, target, table, made)?;
        self.make_denial(source, table, made)?;
        self.make_denial(target, table, made)?;
        self.make_presence(target, table, made)
    }

    /// Makes the places of a table's rule keys, for which there is room, and notes those that it made. It stops at `T0 Memory`.
    fn make_rules<'a>(
        &mut self,
        source: &'a KeyspaceName,
        target: &'a KeyspaceName,
        table: &'a TableName,
        made: &mut Vec<Made<'a>>,
    ) -> Result<(), TopologyFault>
        requires { places_refusal self.old (map EntryKey.Rule (table_rule_keys source.now target.now table.now)) ≡ None }
        ensures all { OnOk result (self.new ≡ with_places self.old (map EntryKey.Rule (table_rule_keys source.now target.now table.now))) }
        ensures memory { IfErr result (λ fault. fault ≡ TopologyFault.Memory) }
        ensures back { without_places self.new (reverse (all_made made.new.items)) ≡ without_places self.old (reverse (all_made made.old.items)) }
    {
        self.make_name(None, table, made)?;
        self.make_name(Some(source), table, made)?;
        self.make_name(Some(target), table, made)
    }

    /// Makes the places of a name's four rule keys, for which there is room, and notes those that it made: all at once where none has
    /// one, else each where it is lacking. It stops at `T0 Memory`.
    fn make_name<'a>(
        &mut self,
        keyspace: Option<&'a KeyspaceName>,
        table: &'a TableName,
        made: &mut Vec<Made<'a>>,
    ) -> Result<(), TopologyFault>
        requires { places_refusal self.old (map EntryKey.Rule (keys_of_name (option_copied keyspace) table.now)) ≡ None }
        ensures all { OnOk result (self.new ≡ with_places self.old (map EntryKey.Rule (keys_of_name (option_copied keyspace.entry) table.now))) }
        ensures memory { IfErr result (λ fault. fault ≡ TopologyFault.Memory) }
        ensures back { without_places self.new (reverse (all_made made.new.items)) ≡ without_places self.old (reverse (all_made made.old.items)) }
    {
        if self.rules.name(keyspace, table).is_none() {
            self.make_new_name(keyspace, table, made)
        } else {
            self.make_each(keyspace, table, made)
        }
    }

    /// Makes the places of a name's four rule keys, none of which has one: the name is noted once. `T0 Memory`.
    #[inline(always)]
    fn make_new_name<'a>(
        &mut self,
        keyspace: Option<&'a KeyspaceName>,
        table: &'a TableName,
        made: &mut Vec<Made<'a>>,
    ) -> Result<(), TopologyFault>
        requires free { places_refusal self.old (map EntryKey.Rule (keys_of_name (option_copied keyspace) table.now)) ≡ None }
        requires lacks { AllByRecursion (λ key. has_place self.old (EntryKey.Rule key) ≡ false) (keys_of_name (option_copied keyspace) table.now) }
        ensures all { OnOk result (self.new ≡ with_places self.old (map EntryKey.Rule (keys_of_name (option_copied keyspace.entry) table.now))) }
        ensures memory { IfErr result (λ fault. fault ≡ TopologyFault.Memory) }
        ensures back { without_places self.new (reverse (all_made made.new.items)) ≡ without_places self.old (reverse (all_made made.old.items)) }
    {
        if made.reserve(1).is_err() {
            return Err(TopologyFault::Memory);
        }
        self.make_new_rules(&key_of_name(keyspace, table, None))?;
        made.push_reserved(Made::Name(keyspace, table));
        Ok(())
    }

    /// Makes the places of a name's four rule keys, none of which has one, for which there is room. `T0 Memory`, which leaves all as it
    /// was.
    fn make_new_rules(&mut self, name: &RuleKey) -> Result<(), TopologyFault>
        requires free { places_refusal self.old (map EntryKey.Rule (four_keys name.now)) ≡ None }
        requires lacks { AllByRecursion (λ key. has_place self.old (EntryKey.Rule key) ≡ false) (four_keys name.now) }
        ensures ok { OnOk result (self.new ≡ with_places self.old (map EntryKey.Rule (four_keys name.now))) }
        ensures err { IfErr result (λ fault. (fault ≡ TopologyFault.Memory) × (self.new ≡ self.old)) }
    {
        self.rules.facts();
        if self.rules.add_name(name).is_err() {
            return Err(TopologyFault::Memory);
        }
        Ok(())
    }

    /// Makes the places of a name's four rule keys one by one, each where it is lacking, and notes those that it made. It stops at `T0 Memory`.
    fn make_each<'a>(
        &mut self,
        keyspace: Option<&'a KeyspaceName>,
        table: &'a TableName,
        made: &mut Vec<Made<'a>>,
    ) -> Result<(), TopologyFault>
        requires { places_refusal self.old (map EntryKey.Rule (keys_of_name (option_copied keyspace) table.now)) ≡ None }
        ensures all { OnOk result (self.new ≡ with_places self.old (map EntryKey.Rule (keys_of_name (option_copied keyspace.entry) table.now))) }
        ensures memory { IfErr result (λ fault. fault ≡ TopologyFault.Memory) }
        ensures back { without_places self.new (reverse (all_made made.new.items)) ≡ without_places self.old (reverse (all_made made.old.items)) }
    {
        self.make_noted_rule(keyspace, table, None, made)?;
        self.make_noted_rule(keyspace, table, Some(TabletType::Primary), made)?;
        self.make_noted_rule(keyspace, table, Some(TabletType::Replica), made)?;
        self.make_noted_rule(keyspace, table, Some(TabletType::Rdonly), made)
    }

    /// Makes the place of one of a name's rule keys where it is lacking, for which there is room, and notes it. `T0 Memory`.
    fn make_noted_rule<'a>(
        &mut self,
        keyspace: Option<&'a KeyspaceName>,
        table: &'a TableName,
        tablet_type: Option<TabletType>,
        made: &mut Vec<Made<'a>>,
    ) -> Result<(), TopologyFault>
        requires { place_refusal self.old (EntryKey.Rule (name_key (option_copied keyspace) table.now tablet_type)) ≡ None }
        ensures all { OnOk result (self.new ≡ with_place self.old (EntryKey.Rule (name_key (option_copied keyspace.entry) table.now tablet_type))) }
        ensures memory { IfErr result (λ fault. fault ≡ TopologyFault.Memory) }
        ensures back { without_places self.new (reverse (all_made made.new.items)) ≡ without_places self.old (reverse (all_made made.old.items)) }
    {
        let key = key_of_name(keyspace, table, tablet_type);
        if self.rules.has_place(&key) {
            return Ok(());
        }
        if made.reserve(1).is_err() {
            return Err(TopologyFault::Memory);
        }
        self.make_new_rule(&key)?;
        made.push_reserved(Made::Rule(keyspace, table, tablet_type));
        Ok(())
    }

    /// Makes the place of a rule key that has none, for which there is room. `T0 Memory`.
    fn make_new_rule(&mut self, key: &RuleKey) -> Result<(), TopologyFault>
        requires lacks { has_place self.old (EntryKey.Rule key.now) ≡ false }
        requires room { place_refusal self.old (EntryKey.Rule key.now) ≡ None }
        ensures { Edits self.old (place_refusal self.old (EntryKey.Rule key.now)) (place_grows self.old (EntryKey.Rule key.now)) (with_place self.old (EntryKey.Rule key.now)) result self.new }
    {
        add_rule(&mut self.rules, key)
    }

    /// Makes the place of a denial where it is lacking, for which there is room, and notes it. `T0 Memory`.
    #[inline(always)]
    fn make_denial<'a>(
        &mut self,
        keyspace: &'a KeyspaceName,
        table: &'a TableName,
        made: &mut Vec<Made<'a>>,
    ) -> Result<(), TopologyFault>
        requires { place_refusal self.old (EntryKey.Denied keyspace.now table.now) ≡ None }
        ensures all { OnOk result (self.new ≡ with_place self.old (EntryKey.Denied keyspace.now table.now)) }
        ensures memory { IfErr result (λ fault. fault ≡ TopologyFault.Memory) }
        ensures back { without_places self.new (reverse (all_made made.new.items)) ≡ without_places self.old (reverse (all_made made.old.items)) }
    {
        if made.reserve(1).is_err() {
            return Err(TopologyFault::Memory);
        }
        match self.keyspaces.make_denied_place(keyspace, table) {
            Ok(true) => {
                made.push_reserved(Made::Denied(keyspace, table));
                Ok(())
            }
            Ok(false) => Ok(()),
            Err(_) => Err(TopologyFault::Memory),
        }
    }

    /// Makes the place of a table's presence where it is lacking, for which there is room, and notes it. `T0 Memory`.
    fn make_presence<'a>(
        &mut self,
        keyspace: &'a KeyspaceName,
        table: &'a TableName,
        made: &mut Vec<Made<'a>>,
    ) -> Result<(), TopologyFault>
        requires { place_refusal self.old (EntryKey.Present keyspace.now table.now) ≡ None }
        ensures all { OnOk result (self.new ≡ with_place self.old (EntryKey.Present keyspace.now table.now)) }
        ensures memory { IfErr result (λ fault. fault ≡ TopologyFault.Memory) }
        ensures back { without_places self.new (reverse (all_made made.new.items)) ≡ without_places self.old (reverse (all_made made.old.items)) }
    {
        if made.reserve(1).is_err() {
            return Err(TopologyFault::Memory);
        }
        match self.keyspaces.make_place(keyspace, table) {
            Ok(true) => {
                made.push_reserved(Made::Present(keyspace, table));
                Ok(())
            }
            Ok(false) => Ok(()),
            Err(_) => Err(TopologyFault::Memory),
        }
    }

    /// Drops the places that were made and hold nothing, the last first.
    fn take_back(&mut self, made: &[Made])
        ensures { self.new ≡ without_places self.old (reverse (all_made made.now)) }
    {
        for places in made.iter().rev() {
            self.drop_made(places);
        }
    }

    /// Drops places that were made together and hold nothing, the last first.
    fn drop_made(&mut self, made: &Made)
        ensures { self.new ≡ without_places self.old (reverse (keys_made made.now)) }
    {
        match made {
            Made::Name(keyspace, table) => release_name(&mut self.rules, *keyspace, table),
            Made::Rule(keyspace, table, tablet_type) => {
                self.rules
                    .release_key(&key_of_name(*keyspace, table, *tablet_type));
            }
            Made::Denied(keyspace, table) => self.keyspaces.release_denial(keyspace, table),
            Made::Present(keyspace, table) => self.keyspaces.release_table(keyspace, table),
        }
    }
}
