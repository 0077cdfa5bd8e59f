// The history of a row.
ghost use Rattle.std.specs.Prelude.{◌≡◌, ℕ, ◌+◌, ◌*◌, ◌<◌, ◌≤◌, nat_eq, if◌then◌else◌};
ghost use Rattle.rm_group.specs.declared.bounds.TheConstants.{MOST_OCTETS, MOST_FRAMES};
ghost use Rattle.rm_history.specs.declared.run.TheConstants.{MOST_BUCKETS};
ghost use Rattle.rm_ether.specs.Standing.{AreBounded};

use crate::plan::Plan;
use circular_buffer::HeapCircularBuffer;
use rm_ether::{Adding, Statistics};
use rm_group::{MOST_FRAMES, MOST_OCTETS};
use rm_pool::Part;
use rm_val::NoMemory;
use std::alloc::Global;

/// How many closed buckets are kept at most.
pub const MOST_BUCKETS: u32 = 1024;

/// The history that is taken of a row: its buckets, numbered from 1. They are closed late, once a frame of a later one comes.
#[derive(Drop)]
pub struct Run {
    /// How it is taken.
    pub plan: Plan,
    /// The interface whose frames it counts.
    pub source: u32,
    /// How many buckets are closed.
    pub closed: u32,
    /// The bucket after these.
    pub current: Statistics,
    /// The last closed buckets, the newest first.
    pub ring: HeapCircularBuffer<Statistics>,
    ghost some: { 1 ≤ plan.seconds },
    ghost hour: { plan.seconds ≤ 3600 },
    ghost room: { ring.capacity ≡ MOST_BUCKETS },
    ghost fewer: { plan.kept ≤ MOST_BUCKETS },
    ghost bounded: { AreBounded current },
}

impl Part for Run {
    fn spare(alloc: Global) -> Result<Run, NoMemory> {
        let ring = HeapCircularBuffer::with_capacity(alloc, MOST_BUCKETS as usize);
        Ok(Run {
            plan: Plan {
                start: 0,
                seconds: 1,
                kept: 0,
            },
            source: 0,
            closed: 0,
            current: Statistics::new(),
            ring: ring.map_err(|_| NoMemory)?,
        })
    }
}

impl Run {
    ghost use Rattle.rm_ether.specs.Counted.{counted_from};
    ghost use Rattle.rm_ether.specs.Standing.{counter_of};
    ghost use Rattle.rm_ether.specs.declared.counter.Counter.{Counter};
    ghost use Rattle.rm_history.specs.Buckets.{end_of, complete_at};
    ghost use Rattle.rm_history.specs.Run.{kept_counter};

    /// Begins the history of a row anew, in storage that is spare.
    pub fn restart(&mut self, source: u32, plan: Plan)
        requires some { 1 ≤ plan.seconds }
        requires hour { plan.seconds ≤ 3600 }
        requires fewer { plan.kept ≤ MOST_BUCKETS }
        ensures buckets { (bucket : ℕ) (each : Counter) → 1 ≤ bucket → kept_counter self.new bucket each ≡ 0 }
        ensures source { self.new.source ≡ source }
        ensures plan { self.new.plan ≡ plan }
        ensures closed { self.new.closed ≡ 0 }
        ensures packets { self.new.current.packets ≡ 0 }
    {
        self.ring.clear();
        self.current = Statistics::new();
        self.closed = 0;
        self.source = source;
        self.plan = plan;
    }

    /// What a bucket counted. A bucket that has no frame, or that was given up, counted nothing.
    pub fn bucket(&self, number: u32) -> Statistics
        ensures { (each : Counter) → counter_of result each ≡ kept_counter self.now number each }
    {
        if number <= self.closed {
            let newer = self.closed - number;
            match self.ring.nth_front(newer as usize) {
                Some(statistics) => *statistics,
                None => Statistics::new(),
            }
        } else if number - self.closed == 1 {
            self.current
        } else {
            Statistics::new()
        }
    }

    /// Counts a frame that passed at a moment in milliseconds, where it is of the interface. No bucket that ends after it is
    /// closed.
    pub fn frame(&mut self, adding: &Adding<'_>, moment: u32)
        requires reached { end_of self.old.plan self.old.closed ≤ moment }
        requires length { adding.now.facts.now.length ≤ MOST_OCTETS }
        requires room { self.old.current.packets < MOST_FRAMES }
        ensures buckets { (bucket : ℕ) (each : Counter) → 1 ≤ bucket → self.new.closed < bucket + self.new.ring.capacity
            → kept_counter self.new bucket each
            ≡ kept_counter self.old bucket each + (if nat_eq bucket (complete_at self.old.plan moment + 1) then counted_from self.old.source each adding.now.facts.now else 0) }
        ensures closed { self.new.closed ≡ complete_at self.old.plan moment }
        ensures plan { self.new.plan ≡ self.old.plan }
        ensures source { self.new.source ≡ self.old.source }
        ensures packets { self.new.current.packets ≤ self.old.current.packets + 1 }
    {
        let length = 1000 * self.plan.seconds;
        let complete = (moment - self.plan.start) / length;
        self.close(complete);
        self.current.pass(self.source, adding);
    }

    // Closes buckets until so many are closed.
    fn close(&mut self, count: u32)
        requires { self.old.closed ≤ count }
        ensures buckets { (bucket : ℕ) (each : Counter) → 1 ≤ bucket → count < bucket + self.old.ring.capacity
            → kept_counter self.new bucket each ≡ kept_counter self.old bucket each }
        ensures closed { self.new.closed ≡ count }
        ensures plan { self.new.plan ≡ self.old.plan }
        ensures source { self.new.source ≡ self.old.source }
        ensures packets { self.new.current.packets ≤ self.old.current.packets }
    {
        if count - self.closed > MOST_BUCKETS {
            self.ring.clear();
            self.current = Statistics::new();
            self.closed = count;
        }
        while self.closed < count {
            self.close_one();
        }
    }

    // Closes the current bucket.
    fn close_one(&mut self)
        requires { self.old.closed + 1 < 4294967296 }
        ensures buckets { (bucket : ℕ) (each : Counter) → 1 ≤ bucket → self.old.closed + 1 < bucket + self.old.ring.capacity
            → kept_counter self.new bucket each ≡ kept_counter self.old bucket each }
        ensures closed { self.new.closed ≡ self.old.closed + 1 }
        ensures plan { self.new.plan ≡ self.old.plan }
        ensures source { self.new.source ≡ self.old.source }
        ensures packets { self.new.current.packets ≤ self.old.current.packets }
    {
        self.ring.push_front(self.current);
        self.current = Statistics::new();
        self.closed += 1;
    }
}
