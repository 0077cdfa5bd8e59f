// Laws of crossings, of what alarms read, and of alarms while frames pass. The bodies are empty.
ghost use Rattle.std.specs.Prelude.{◌≡◌, ◌↔◌, ℤ, List, ◌∷◌, true, false};
ghost use Rattle.rm_model.specs.Counting.{Counting};
ghost use Rattle.rm_model.specs.Journal.{Journal, Frame, passes};
ghost use Rattle.rm_alarm.specs.declared.alarms.Alarms.{Alarms};
ghost use Rattle.rm_alarm.specs.Standing.{Stands, AreBased};
ghost use Rattle.rm_acts.specs.Crossings.{Threshold, Bounds, crosses, IsCrossing, rising_of, falling_of};
ghost use Rattle.rm_acts.specs.Recurring.{sampling};
ghost use Rattle.rm_alarm.specs.Watched.{ReadsFrom};

use rm_group::Readable;

/// A law: a sample crosses a threshold exactly where it reaches the threshold; the one before it didn't, or it is the first
/// one and may cross it; and between each earlier crossing of the threshold and it a sample reached the other threshold.
pub fn crossing_conditions()
    ensures { (threshold : Threshold) (value : ℤ) (earlier : List ℤ)
        → (crosses threshold (value ∷ earlier) ≡ true) ↔ IsCrossing threshold value earlier }
{}

/// A law: no sample crosses both thresholds of an alarm.
pub fn one_crossing()
    ensures { (bounds : Bounds) (values : List ℤ) → crosses (rising_of bounds) values ≡ true
        → crosses (falling_of bounds) values ≡ false }
{}

/// A law: where alarms sample the variables of a group, what they read by recursion on the journal is what these read.
pub fn reads_cells<G: Readable>()
    ensures { (settings : Counting) → ReadsFrom G.sampleable (sampling G.sampleable settings) }
{}

/// A law: a frame makes no difference to alarms. Who stands for a journal stands for it with a frame in front.
pub fn frames_pass()
    ensures stands { (alarms : Alarms) (settings : Counting) (journal : Journal) (frame : Frame) → Stands alarms settings journal
        → Stands alarms settings (passes frame ∷ journal) }
    ensures based { (alarms : Alarms) (settings : Counting) (journal : Journal) (frame : Frame) → Stands alarms settings journal
        → AreBased alarms settings journal → AreBased alarms settings (passes frame ∷ journal) }
{}
