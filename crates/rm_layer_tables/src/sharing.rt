// What all rows of a control table share, by the directory.
ghost use Rattle.std.specs.Prelude.{◌≡◌, ◌<◌, ◌≤◌};
ghost use Rattle.rm_model.specs.Counting.{Counting};
ghost use Rattle.rm_model.specs.Journal.{Journal};
ghost use Rattle.rm_dir.specs.Group.{Stands as IsDirectory};
ghost use Rattle.rm_layer_tables.specs.Shared.{AreShared};

use crate::on::{is_ip_on, protocols_on};
use crate::shared::LayerShared;
use rm_dir::Directory;
use rm_layer_slots::TableKind;

impl LayerShared {
    /// What the rows share by the directory, for tables of a kind, where the probe has each row hold so many network rows at most.
    pub fn by(kind: TableKind, directory: &Directory, upper: u32) -> LayerShared
        requires some { 0 < upper }
        requires most { upper ≤ 1024 }
        ensures { (settings : Counting) (journal : Journal) → settings.upper ≡ upper → IsDirectory directory.now journal → AreShared kind result settings journal }
    {
        LayerShared {
            upper,
            on: is_ip_on(kind, directory),
            slots: protocols_on(kind, directory),
        }
    }
}
