// What the rows of hlMatrixControl collect.
ghost use Rattle.std.specs.Prelude.{◌≡◌, ◌%◌, ◌^◌};
ghost use Rattle.rm_layer_tables.specs.Kept.{kept_counter};
ghost use Rattle.rm_hl_matrices.specs.Collection.{by_source};
ghost use Rattle.rm_hl_matrices.specs.PairCells.{same_pair};

use crate::control::{CONTROL_OBJECTS, MatrixColumns};
use crate::part::PairPart;
use crate::views::{
    AL_MATRIX_DS, AL_MATRIX_SD, DestinationView, NL_MATRIX_DS, NL_MATRIX_SD, SourceView,
};
use rm_collect::{ByOther, Collected, RowColumns, SampledTables, Turned};
use rm_dir::Directory;
use rm_group::{Assigns, Passing, TableObjects, choose_nearer, lower_verdict};
use rm_keyed::{PartRows, cell_of_two, judge_two, next_of_two};
use rm_layer_slots::TableKind;
use rm_layer_tables::{ByApplication, ByNetwork, CountedFrame, LayerShared, control_counter};
use rm_model::Verdict;
use rm_pool::Pool;
use rm_status::Row;
use rm_val::{Oid, Value};

/// nlMatrixSDTable and nlMatrixDSTable, as they are shown.
type NetworkSources<'a> = PartRows<'a, ByNetwork<SourceView>>;

type NetworkDestinations<'a> = PartRows<'a, ByNetwork<DestinationView>>;

/// alMatrixSDTable and alMatrixDSTable.
type ApplicationSources<'a> = PartRows<'a, ByApplication<SourceView>>;

type ApplicationDestinations<'a> = PartRows<'a, ByApplication<DestinationView>>;

/// The tables, the control table first.
const OBJECTS: &[TableObjects] = &[
    CONTROL_OBJECTS,
    NL_MATRIX_SD,
    NL_MATRIX_DS,
    AL_MATRIX_SD,
    AL_MATRIX_DS,
];

// What a column of hlMatrixControl counts of the pairs of a part. Each pair counts once.
fn counter_in(part: &PairPart, column: u32) -> u32
    ensures { result ≡ kept_counter same_pair (by_source part.now) column % 2 ^ 32 }
{
    control_counter(&part.pairs.first().table, column)
}

#[tactic(auto, unfolding(crate::specs::Collection::pair_collection, rm_layer_tables::specs::ControlColumns::layer_rows))]
impl Collected for PairPart {
    type Columns = MatrixColumns;

    type Shared = LayerShared;

    type Judged = u32;

    ghost use Rattle.rm_hl_matrices.specs.Collection.{pair_collection};
    ghost use Rattle.rm_hl_matrices.specs.Lawful.{pair_lawful};

    ghost collection = { pair_collection };

    fn begin(&mut self, columns: &MatrixColumns, shared: &LayerShared, _now: u32) {
        self.pairs.begin(columns, shared);
        self.source = columns.source;
    }

    // A frame has two stamps, as the tables of hosts count it.
    fn pass(parts: &mut Pool<PairPart>, judged: &[u32], passing: &Passing<'_>, before: u32) {
        let stamp = 2 * u64::from(before);
        parts.change_each(&CountedFrame {
            facts: &passing.facts,
            path: judged,
            moment: passing.moment,
            stamp,
        });
    }

    fn other(
        parts: &Pool<PairPart>,
        index: u32,
        _row: &Row<MatrixColumns>,
        column: u32,
    ) -> Value<'static> {
        match parts.get(index) {
            Some(part) => Value::Counter(counter_in(part, column)),
            None => Value::Counter(0),
        }
    }

    fn inner_cell<'a, R: RowColumns<MatrixColumns>>(
        _rows: &'a R,
        parts: &'a Pool<PairPart>,
        name: &Oid,
        now: u32,
    ) -> Option<Value<'a>> {
        let sources = NetworkSources { parts };
        let destinations = NetworkDestinations { parts };
        match cell_of_two(&sources, &destinations, name, now) {
            Some(value) => Some(value),
            None => {
                let sources = ApplicationSources { parts };
                let destinations = ApplicationDestinations { parts };
                cell_of_two(&sources, &destinations, name, now)
            }
        }
    }

    fn inner_after<'a, R: RowColumns<MatrixColumns>>(
        _rows: &'a R,
        parts: &'a Pool<PairPart>,
        name: &Oid,
        now: u32,
        out: &mut Oid,
    ) -> Option<Value<'a>> {
        let sources = NetworkSources { parts };
        let destinations = NetworkDestinations { parts };
        let nearer = next_of_two(sources, destinations, name, now, out);
        let mut other = Oid::new();
        let sources = ApplicationSources { parts };
        let destinations = ApplicationDestinations { parts };
        let application = next_of_two(sources, destinations, name, now, &mut other);
        choose_nearer(nearer, out, application, other)
    }

    fn inner_least() -> &'static [u32] {
        NL_MATRIX_SD.entry
    }

    fn sampled_tables() -> SampledTables {
        SampledTables::NoTable
    }

    fn judge_inner<A: Assigns>(set: &A) -> Verdict {
        let networks = judge_two::<NetworkSources<'_>, NetworkDestinations<'_>, A>(set);
        let applications = judge_two::<ApplicationSources<'_>, ApplicationDestinations<'_>, A>(set);
        lower_verdict(networks, applications)
    }

    fn tables() -> &'static [TableObjects] {
        OBJECTS
    }

    fn least() -> &'static [u32] {
        CONTROL_OBJECTS.entry
    }

    ghost laws = { pair_lawful };

    ghost spelled = { λ columns. tt };
}

#[tactic(auto, unfolding(crate::specs::Collection::pair_collection))]
impl Turned for PairPart {
    fn turn(&mut self, shared: &LayerShared, given: u32) {
        self.pairs.turn(shared, 2 * u64::from(given));
    }
}

#[tactic(auto, unfolding(crate::specs::Collection::pair_collection))]
impl ByOther<Directory> for PairPart {
    fn shared_by(before: &LayerShared, directory: &Directory) -> LayerShared {
        LayerShared::by(TableKind::Matrices, directory, before.upper)
    }
}
