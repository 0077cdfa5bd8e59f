// hlHostControl.

use rm_group::TableObjects;
use rm_keyed::SourceTable;
use rm_layer_tables::{LAYER_NUMBERS, LayerColumns};

/// The objects of hlHostControl.
pub(crate) const CONTROL_OBJECTS: TableObjects = TableObjects {
    entry: &[1, 3, 6, 1, 2, 1, 16, 14, 1, 1],
    columns: LAYER_NUMBERS,
};

/// hlHostControlTable (RFC 2021, section 6), each row of which asks for the hosts of a data source.
#[derive(Drop)]
pub struct HostControl;

/// The columns of a row of hlHostControl that can be set.
pub type HostColumns = LayerColumns<HostControl>;

impl SourceTable for HostControl {
    ghost use Rattle.rm_hl_hosts.specs.Control.{named_entry};

    ghost entry = { named_entry };

    fn entry() -> &'static [u32] {
        CONTROL_OBJECTS.entry
    }
}
