// A frame comes to the pairs of hosts of a row of hlMatrixControl.
ghost use Rattle.std.specs.Prelude.{◌≡◌, ℕ, ◌+◌, ◌<◌, ◌≤◌, ◌^◌, [], ◌∷◌};
ghost use Rattle.rm_model.specs.Counting.{Counting};
ghost use Rattle.rm_model.specs.Journal.{Frame, Journal, passes};
ghost use Rattle.rm_layer_events.specs.Side.{next_stamp};
ghost use Rattle.rm_layer_matrices.specs.declared.pair_counts.PairCounts.{PairCounts as Counted};
ghost use Rattle.rm_layer_matrices.specs.PairCounts.{pair_tally};
ghost use Rattle.rm_layer_tables.specs.Layer.{Layer, NamesFew, names_of, references_to};
ghost use Rattle.rm_layer_tables.specs.Standing.{IsHeld};
ghost use Rattle.rm_hl_matrices.specs.Pairs.{Pair};
ghost use Rattle.rm_hl_matrices.specs.PairCells.{same_pair};

use crate::part::{PairPart, PairTable};
use rm_layer_matrices::{AddressPair, PairCounts};
use rm_layer_tables::CountedFrame;
use rm_pool::Change;

impl Change<PairPart> for CountedFrame<'_> {
    ghost use Rattle.rm_layer_tables.specs.Parts.{Takes};
    ghost use Rattle.rm_layer_tables.specs.Ready.{IsReady};
    ghost use Rattle.rm_hl_matrices.specs.Collection.{by_source, pair_parts};

    ghost allows = { λ s row part. IsReady s.stamp s.moment (by_source part) };

    ghost makes = { λ s row part new. Takes pair_parts s.path.now s.facts.now s.stamp s.moment part new };

    // A frame that counts names the pair of its source and its destination, by the first of its two stamps.
    fn change(&self, _row: u32, part: &mut PairPart) {
        if let Some(ends) = self.ends_for(part.source) {
            let first = ends.source;
            let second = ends.dest;
            let pair = AddressPair { first, second };
            let gain = PairCounts::carried(self.facts);
            let tick = self.moment / 10;
            take_pair(&mut part.pairs, pair, &gain, self.path, self.stamp, tick);
        }
    }
}

// Takes a frame that names one pair.
fn take_pair(
    pairs: &mut PairTable,
    pair: AddressPair<[u8; 4]>,
    gain: &PairCounts,
    path: &[u32],
    stamp: u64,
    tick: u32,
)
    requires next { pairs.old.next ≤ stamp }
    requires latest { pairs.old.latest ≤ tick }
    requires fits { stamp < 2 ^ 58 }
    ensures slots { pairs.new.layered.slots ≡ pairs.old.layered.slots }
    ensures next { pairs.new.next ≡ stamp + 1 }
    ensures latest { pairs.new.latest ≡ tick }
    ensures stands { (layer : Layer Pair Counted) (settings : Counting) (row : ℕ) (journal : Journal) (frame : Frame) → NamesFew layer
        → names_of layer settings row frame journal ≡ references_to tick path.now ((pair, gain.now) ∷ []) → stamp ≡ next_stamp journal
        → IsHeld layer pair_tally same_pair settings journal row pairs.old → IsHeld layer pair_tally same_pair settings (passes frame ∷ journal) row pairs.new }
{
    pairs.name(pair, path, stamp, tick, gain);
}
