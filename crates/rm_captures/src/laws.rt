// Laws of frames in one order. The bodies are empty.
ghost use Rattle.std.specs.Prelude.{ℕ, List};
ghost use Rattle.rm_model.specs.Journal.{Frame};
ghost use Rattle.rm_captures.specs.Merge.{AreAbove, AreInOrder, AreMerged, AreOf, merge};

/// A law: the frames of an interface in order, and those of others with higher numbers in order, are all in one list in order.
pub fn merge_in_order()
    ensures { (number : ℕ) (first others : List Frame) → AreOf number first → AreInOrder first → AreAbove number others → AreInOrder others
        → AreMerged number first others (merge first others) }
{}
