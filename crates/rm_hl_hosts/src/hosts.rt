// What the rows of hlHostControl collect.

use crate::control::{CONTROL_OBJECTS, HostColumns};
use crate::part::HostPart;
use crate::view::{APPLICATION_OBJECTS, HostView, NETWORK_OBJECTS};
use rm_collect::{ByOther, Collected, RowColumns, SampledTables, Turned};
use rm_dir::Directory;
use rm_group::{Assigns, Passing, TableObjects};
use rm_keyed::{PartRows, cell_of_two, judge_two, next_of_two};
use rm_layer_slots::TableKind;
use rm_layer_tables::{ByApplication, ByNetwork, CountedFrame, LayerShared, control_counter};
use rm_model::Verdict;
use rm_pool::Pool;
use rm_status::Row;
use rm_val::{Oid, Value};

/// nlHostTable and alHostTable, as they are shown.
type Hosts<'a> = PartRows<'a, ByNetwork<HostView>>;

type Applications<'a> = PartRows<'a, ByApplication<HostView>>;

/// The tables, the control table first.
const OBJECTS: &[TableObjects] = &[CONTROL_OBJECTS, NETWORK_OBJECTS, APPLICATION_OBJECTS];

#[tactic(auto, unfolding(crate::specs::Collection::host_collection, rm_layer_tables::specs::ControlColumns::layer_rows))]
impl Collected for HostPart {
    type Columns = HostColumns;

    type Shared = LayerShared;

    type Judged = u32;

    ghost use Rattle.rm_hl_hosts.specs.Collection.{host_collection};
    ghost use Rattle.rm_hl_hosts.specs.Lawful.{host_lawful};

    ghost collection = { host_collection };

    fn begin(&mut self, columns: &HostColumns, shared: &LayerShared, _now: u32) {
        self.hosts.begin(columns, shared);
        self.source = columns.source;
    }

    // A frame has two stamps, for its two references.
    fn pass(parts: &mut Pool<HostPart>, judged: &[u32], passing: &Passing<'_>, before: u32) {
        let stamp = 2 * u64::from(before);
        parts.change_each(&CountedFrame {
            facts: &passing.facts,
            path: judged,
            moment: passing.moment,
            stamp,
        });
    }

    fn other(
        parts: &Pool<HostPart>,
        index: u32,
        _row: &Row<HostColumns>,
        column: u32,
    ) -> Value<'static> {
        match parts.get(index) {
            Some(part) => Value::Counter(control_counter(&part.hosts.table, column)),
            None => Value::Counter(0),
        }
    }

    fn inner_cell<'a, R: RowColumns<HostColumns>>(
        _rows: &'a R,
        parts: &'a Pool<HostPart>,
        name: &Oid,
        now: u32,
    ) -> Option<Value<'a>> {
        cell_of_two(&Hosts { parts }, &Applications { parts }, name, now)
    }

    fn inner_after<'a, R: RowColumns<HostColumns>>(
        _rows: &'a R,
        parts: &'a Pool<HostPart>,
        name: &Oid,
        now: u32,
        out: &mut Oid,
    ) -> Option<Value<'a>> {
        next_of_two(Hosts { parts }, Applications { parts }, name, now, out)
    }

    fn inner_least() -> &'static [u32] {
        NETWORK_OBJECTS.entry
    }

    fn sampled_tables() -> SampledTables {
        SampledTables::NoTable
    }

    fn judge_inner<A: Assigns>(set: &A) -> Verdict {
        judge_two::<Hosts<'_>, Applications<'_>, A>(set)
    }

    fn tables() -> &'static [TableObjects] {
        OBJECTS
    }

    fn least() -> &'static [u32] {
        CONTROL_OBJECTS.entry
    }

    ghost laws = { host_lawful };

    ghost spelled = { λ columns. tt };
}

#[tactic(auto, unfolding(crate::specs::Collection::host_collection))]
impl Turned for HostPart {
    fn turn(&mut self, shared: &LayerShared, given: u32) {
        let stamp = 2 * u64::from(given);
        self.hosts.turn(shared, stamp);
    }
}

#[tactic(auto, unfolding(crate::specs::Collection::host_collection))]
impl ByOther<Directory> for HostPart {
    fn shared_by(before: &LayerShared, directory: &Directory) -> LayerShared {
        LayerShared::by(TableKind::Hosts, directory, before.upper)
    }
}
