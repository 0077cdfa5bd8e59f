// The hosts of a control row.
ghost use Rattle.std.specs.Prelude.{◌≡◌, ◌+◌, ◌/◌, ◌<◌, ◌≤◌, ◌^◌, List, ◌++◌};

use crate::by_address::{ByAddress, HOST_OBJECTS};
use crate::by_rank::{ByRank, TIME_OBJECTS};
use crate::host_counts::HostCounts;
use crate::host_room::HostRoom;
use rm_group::TableObjects;
use rm_keyed::{Keyed, SOURCE_NUMBERS, SourceTable};
use rm_pool::Part;
use rm_proto::Facts;
use rm_sourced::SourceRows;
use rm_val::NoMemory;
use std::alloc::Global;
use std::marker::PhantomData;

/// The objects of hostControl.
const CONTROL_OBJECTS: TableObjects = TableObjects {
    entry: &[1, 3, 6, 1, 2, 1, 16, 4, 1, 1],
    columns: SOURCE_NUMBERS,
};

/// The tables, the control table first.
const OBJECTS: &[TableObjects] = &[CONTROL_OBJECTS, HOST_OBJECTS, TIME_OBJECTS];

/// The hosts that frames entered for a row of hostControl.
#[derive(Drop)]
pub struct HostRows {
    /// The hosts, by their addresses.
    pub keyed: Keyed<[u8; 6], HostCounts>,
    // The tables that show them: who names the rows names these too.
    tables: PhantomData<(ByAddress, ByRank)>,
}

impl Part for HostRows {
    fn spare(alloc: Global) -> Result<HostRows, NoMemory> {
        let keyed = Keyed::spare(alloc)?;
        Ok(HostRows {
            keyed,
            tables: PhantomData,
        })
    }
}

impl SourceTable for HostRows {
    ghost use Rattle.rm_hosts.specs.Control.{named_entry};

    ghost entry = { named_entry };

    fn entry() -> &'static [u32] {
        CONTROL_OBJECTS.entry
    }
}

impl SourceRows<[u8; 6]> for HostRows {
    ghost use Rattle.rm_hosts.specs.Host.{host_index, host_value};
    ghost use Rattle.rm_hosts.specs.HostTime.{time_index};
    ghost use Rattle.rm_hosts.specs.Tables.{host_sourcing};
    ghost use Rattle.rm_hosts.specs.Lawful.{host_laws};

    type First = ByAddress;

    type Second = ByRank;

    type Room = HostRoom;

    type Counts = HostCounts;

    ghost sourcing = { host_sourcing };

    ghost room_in = { λ room. room.hosts };

    ghost first_index = { host_index };

    ghost second_index = { time_index };

    ghost value = { host_value };

    fn begin(&mut self, room: &HostRoom) {
        self.keyed.begin(room.hosts);
    }

    // A good frame has two references, to its source and to its destination.
    fn take(&mut self, facts: &Facts, moment: u32, stamp: u64) {
        let Some(pair) = facts.pair else {
            return;
        };
        let sent = HostCounts::sent(facts);
        if facts.good {
            let received = HostCounts::received(facts);
            self.keyed.refer(pair.source, stamp, moment / 10, &sent);
            self.keyed
                .refer(pair.dest, stamp + 1, moment / 10, &received);
        } else {
            self.keyed.stray(&pair.source, &sent);
        }
    }

    fn entered(&self) -> &Keyed<[u8; 6], HostCounts> {
        &self.keyed
    }

    fn tables() -> &'static [TableObjects] {
        OBJECTS
    }

    ghost laws = { host_laws };
}
