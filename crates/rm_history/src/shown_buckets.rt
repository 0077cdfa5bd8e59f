// Which buckets of a history are shown.
ghost use Rattle.std.specs.Prelude.{◌≡◌};
ghost use Rattle.rm_history.specs.Buckets.{complete_at};

use crate::run::Run;
use rm_nested::NumberedPart;

impl Run {
    /// How many of its buckets are complete at a moment in milliseconds.
    pub fn complete_at(&self, now: u32) -> u32
        ensures { result ≡ complete_at self.now.plan now }
    {
        now.saturating_sub(self.plan.start) / (1000 * self.plan.seconds)
    }
}

impl NumberedPart for Run {
    ghost use Rattle.std.specs.Prelude.{refl};
    ghost use Rattle.rm_history.specs.Shown.{shows};

    ghost is_shown = { shows };

    fn shows(&self, bucket: u32, now: u32) -> bool {
        let complete = self.complete_at(now);
        1 <= bucket && bucket <= complete && complete - bucket < self.plan.kept
    }

    fn number_above(&self, bucket: u32, now: u32) -> Option<u32> {
        let complete = self.complete_at(now);
        if bucket >= complete || self.plan.kept == 0 {
            return None;
        }
        Some(bucket.max(complete.saturating_sub(self.plan.kept)) + 1)
    }

    ghost from_1 = { λ run now. refl };
}
