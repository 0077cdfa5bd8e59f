// Groups that take an act step by step.
ghost use Rattle.std.specs.Prelude.{◌≡◌, ℕ, ℤ, ◌+◌, ◌≤◌, ◌<◌, List, [], ◌∷◌, ◌++◌, Option};
ghost use Rattle.rm_model.specs.Counting.{Counting};
ghost use Rattle.rm_model.specs.Journal.{Act, Frame, Journal, passes, samples, last_moment, moment_of};
ghost use Rattle.rm_acts.specs.Fired.{act_fires, fired};
ghost use Rattle.rm_acts.specs.declared.firing.Firing.{Firing as Fires};
ghost use Rattle.rm_group.specs.Both.{StandAsOne};
ghost use Rattle.rm_group.specs.Passing.{IsOf};

use crate::beside::Beside;
use crate::both::Both;
use crate::bounds::{MOST_FRAMES, MOST_OCTETS};
use crate::passing::Passing;
use crate::stores::Stores;
use crate::system::System;
use rm_acts::Firing;

/// A group to which an act that is no Set makes a difference step by step: the act begins, its firings are taken one by one, and it
/// has ended where all were taken.
pub trait Steps: Stores {
    /// The group is in an act after a journal, of which it has taken these firings.
    ghost under_way: { Self → Counting → Act → Journal → List Fires → Type 0 };

    /// A frame begins to pass, whose moment isn't below that of the last act, and at which the group may be asked. Fewer than `MOST_FRAMES` frames were given before.
    fn pass(&mut self, passing: &Passing<'_>)
        requires later { Self.Group.clock self.old ≤ passing.now.moment }
        requires room { Self.Group.frames self.old < MOST_FRAMES }
        requires length { passing.now.facts.length ≤ MOST_OCTETS }
        ensures begins { (settings : Counting) (earlier : Journal) (frame : Frame)
            → IsOf settings frame passing.now.facts passing.now.octets.now passing.now.number passing.now.moment
            → Self.Group.stands self.old settings earlier → last_moment earlier ≤ passing.now.moment
            → Self.Group.askable self.old passing.now.moment → under_way self.new settings (passes frame) earlier [] }
        ensures clock { Self.Group.clock self.new ≤ passing.now.moment }
        ensures frames { Self.Group.frames self.new ≤ Self.Group.frames self.old + 1 }
        ensures stocked { Self.Stores.stocked self.old → Self.Stores.stocked self.new };

    /// Takes a firing of the act that is under way, at its moment in milliseconds.
    fn take(&mut self, firing: &Firing, moment: u32)
        ensures under_way { (settings : Counting) (act : Act) (earlier : Journal) (some : List Fires) → moment_of act ≡ moment
            → under_way self.old settings act earlier some → under_way self.new settings act earlier (some ++ firing.now ∷ []) }
        ensures clock { Self.Group.clock self.new ≡ Self.Group.clock self.old }
        ensures frames { Self.Group.frames self.new ≡ Self.Group.frames self.old }
        ensures stocked { Self.Stores.stocked self.old → Self.Stores.stocked self.new };

    /// An act has ended where all of its firings were taken.
    ghost ends: { (s : Self) (settings : Counting) (act : Act) (earlier : Journal)
        → under_way s settings act earlier (act_fires settings act earlier (fired settings earlier)) → Self.Group.stands s settings (act ∷ earlier) };
}

/// A group to which firings make no difference: once an act has begun, it stands for the journal with that act. What implements it is
/// in `Steps` too.
pub trait Unfired: Stores {
    /// Takes a frame that passes, whose moment isn't below that of the last act, and at which the group may be asked. Fewer than `MOST_FRAMES` frames were given before.
    fn take_frame(&mut self, passing: &Passing<'_>)
        requires later { Self.Group.clock self.old ≤ passing.now.moment }
        requires room { Self.Group.frames self.old < MOST_FRAMES }
        requires length { passing.now.facts.length ≤ MOST_OCTETS }
        ensures stands { (settings : Counting) (earlier : Journal) (frame : Frame)
            → IsOf settings frame passing.now.facts passing.now.octets.now passing.now.number passing.now.moment
            → Self.Group.stands self.old settings earlier → last_moment earlier ≤ passing.now.moment
            → Self.Group.askable self.old passing.now.moment → Self.Group.stands self.new settings (passes frame ∷ earlier) }
        ensures clock { Self.Group.clock self.new ≤ passing.now.moment }
        ensures frames { Self.Group.frames self.new ≤ Self.Group.frames self.old + 1 }
        ensures stocked { Self.Stores.stocked self.old → Self.Stores.stocked self.new };
}

impl<G: Unfired> Steps for G {
    ghost under_way = { λ s settings act earlier some. G.stands s settings (act ∷ earlier) };

    fn pass(&mut self, passing: &Passing<'_>) {
        self.take_frame(passing);
    }

    fn take(&mut self, _firing: &Firing, _moment: u32) {}

    ghost ends = { λ s settings act earlier under. under };
}

/// A group in which the sample of an alarm begins without a call, where its moment isn't below that of the last act, and the group may
/// be asked at it. What the sample
/// reads and crosses makes no difference to it; the firings that come of it may.
pub trait Unsampled: Steps {
    /// The sample has begun.
    ghost begins: { (s : Self) (settings : Counting) (earlier : Journal) (moment alarm : ℕ) (reading : Option ℤ)
        → Self.Group.stands s settings earlier → last_moment earlier ≤ moment → Self.Group.askable s moment
        → Self.Steps.under_way s settings (samples moment alarm reading) earlier [] };
}

impl Unfired for System {
    fn take_frame(&mut self, _passing: &Passing<'_>) {}
}

impl Unsampled for System {
    ghost begins = { λ s settings earlier moment alarm reading stands later asked. tt };
}

impl<G: Steps, H: Steps + Beside<G>> Steps for Both<G, H> {
    ghost under_way = { λ s settings act earlier some.
        StandAsOne (G.under_way s.first settings act earlier some) (H.under_way s.second settings act earlier some) (H.tied settings) };

    fn pass(&mut self, passing: &Passing<'_>) {
        self.first.pass(passing);
        self.second.pass(passing);
    }

    fn take(&mut self, firing: &Firing, moment: u32) {
        self.first.take(firing, moment);
        self.second.take(firing, moment);
    }

    ghost ends = { λ s settings act earlier under.
        record { first = G.ends s.first settings act earlier under.first; second = H.ends s.second settings act earlier under.second; tied = under.tied } };
}

impl<G: Unsampled, H: Unsampled + Beside<G>> Unsampled for Both<G, H> {
    ghost begins = { λ s settings earlier moment alarm reading stands later asked.
        record {
          first = G.begins s.first settings earlier moment alarm reading stands.first later asked.0;
          second = H.begins s.second settings earlier moment alarm reading stands.second later asked.1;
          tied = stands.tied;
        } };
}

/// A law: the sample of an alarm begins at a moment, in milliseconds. It does nothing.
pub fn sample_begins<G: Unsampled>(group: &G, moment: u32)
    ensures { (settings : Counting) (earlier : Journal) (alarm : ℕ) (reading : Option ℤ)
        → G.stands group.now settings earlier → last_moment earlier ≤ moment → G.askable group.now moment
        → G.under_way group.now settings (samples moment alarm reading) earlier [] }
{}
