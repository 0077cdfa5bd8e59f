// hlMatrixControl.

use rm_group::TableObjects;
use rm_keyed::SourceTable;
use rm_layer_tables::{LAYER_NUMBERS, LayerColumns};

/// The objects of hlMatrixControl.
pub(crate) const CONTROL_OBJECTS: TableObjects = TableObjects {
    entry: &[1, 3, 6, 1, 2, 1, 16, 15, 1, 1],
    columns: LAYER_NUMBERS,
};

/// hlMatrixControlTable (RFC 2021, section 6), each row of which asks for the pairs of hosts of a data source.
#[derive(Drop)]
pub struct MatrixControl;

/// The columns of a row of hlMatrixControl that can be set.
pub type MatrixColumns = LayerColumns<MatrixControl>;

impl SourceTable for MatrixControl {
    ghost use Rattle.rm_hl_matrices.specs.Control.{named_entry};

    ghost entry = { named_entry };

    fn entry() -> &'static [u32] {
        CONTROL_OBJECTS.entry
    }
}
