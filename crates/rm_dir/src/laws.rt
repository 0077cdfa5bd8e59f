// Laws of the directory.
ghost use Rattle.rm_model.specs.Journal.{Journal};
ghost use Rattle.rm_path.specs.Slots.{HaveSlots};
ghost use Rattle.rm_dir.specs.Active.{HaveOwnLocals};
ghost use Rattle.rm_dir.specs.Group.{Stands};
ghost use Rattle.rm_dir.specs.Paths.{AreActiveAfter};
ghost use Rattle.rm_dir.specs.declared.directory.Directory.{Directory};

/// A law: no two protocols that are active have the same local index, whatever Sets there were. It does nothing.
pub fn locals_are_apart()
    ensures { (journal : Journal) → HaveOwnLocals journal }
{}

/// A law: the protocols that are active after a journal have the slots of each directory that then stands, and none of them has two. It
/// does nothing.
pub fn slots_are_active()
    ensures active { (directory : Directory) (journal : Journal) → Stands directory journal → AreActiveAfter journal directory.protocols }
    ensures apart { (directory : Directory) → HaveSlots directory.protocols }
{}
