// What a row keeps of its reports.
ghost use Rattle.std.specs.Prelude.{◌≡◌, ◌<◌, ◌≤◌, ◌∷◌, ℕ, ℤ, true, false, nat_lt, Option};
ghost use Rattle.std.specs.Option.{option_and_then, option_copied};
ghost use Rattle.rm_keyed.specs.declared.keyed.TheConstants.{MOST_ROWS};
ghost use Rattle.rm_model.specs.Counting.{Counting};
ghost use Rattle.rm_model.specs.Journal.{Assignments, Frame, Journal, assigns, samples, last_moment, passes};
ghost use Rattle.rm_model.specs.ControlRows.{is_valid};
ghost use Rattle.rm_report.specs.Measured.{IsMeasured};
ghost use Rattle.rm_topn.specs.Control.{control_state};
ghost use Rattle.rm_topn.specs.Kept.{DoHostsGoOn, DoHostsStand, HasEndedBy, IsAskable, IsCourse};
ghost use Rattle.rm_topn.specs.Changes.{BeginsNext, EndsBy};
ghost use Rattle.rm_topn.specs.Plans.{IsPlan};
ghost use Rattle.rm_topn.specs.Reports.{duration, host_shown, start_time, time_remaining};
ghost use Rattle.rm_topn.specs.Starts.{is_start, last_start};
ghost use Rattle.rm_topn.specs.Times.{duration_kept, start_kept, time_kept};
ghost use Rattle.rm_topn.specs.Courses.{count_shown, end_at, ended_run, has_ended, is_due, shown_in};
ghost use Rattle.rm_topn.specs.Due.{end_ahead};

use crate::plan::Plan;
use rm_hosts::Hosts;
use rm_nested::NumberedPart;
use rm_pool::Part;
use rm_report::{Ranked, Report};
use rm_val::NoMemory;
use std::alloc::Global;

/// A report that began.
#[derive(Clone, Copy, Debug)]
pub(crate) struct Run {
    /// What was asked of it.
    pub plan: Plan,
    /// When it began, in milliseconds.
    pub begun: u32,
    /// Whether it hasn't ended yet.
    pub runs: bool,
}

impl Run {
    /// When it ends, in milliseconds.
    pub fn end(&self) -> u64
        ensures { result ≡ end_at self.now }
    {
        u64::from(self.begun) + 1000 * u64::from(self.plan.seconds)
    }

    // Whether it should end by a moment in milliseconds.
    fn is_due(&self, moment: u32) -> bool
        ensures { result ≡ is_due moment self.now }
    {
        self.runs && self.end() <= u64::from(moment)
    }
}

/// What a valid row of hostTopNControl keeps of its reports.
#[derive(Drop)]
pub(crate) struct Course {
    /// The last report that began since the row became valid, if one did.
    pub run: Option<Run>,
    /// The report that begins once the hosts have done the Set that is under way, if one does.
    pub next: Option<Plan>,
    /// Its storage.
    pub report: Report,
}

impl Part for Course {
    fn spare(alloc: Global) -> Result<Course, NoMemory> {
        let report = Report::spare(alloc)?;
        Ok(Course {
            run: None,
            next: None,
            report,
        })
    }
}

impl Course {
    /// The row has become valid. No report has begun, and this one begins next, if there is one.
    pub fn idle(&mut self, next: Option<Plan>)
        ensures course { (settings : Counting) (journal : Journal) (row : ℕ) → last_start row journal ≡ None → IsCourse settings journal row self.new }
        ensures run { self.new.run ≡ None }
        ensures next { self.new.next ≡ next }
    {
        self.run = None;
        self.next = next;
    }

    /// A report begins that was asked for so, at a moment in milliseconds: a copy of the counters of the hosts of its row is taken, and
    /// the hosts that were shown go.
    pub fn begin(&mut self, hosts: &Hosts, plan: Plan, begun: u32)
        ensures course { (settings : Counting) (journal : Journal) (row : ℕ) → last_start row journal ≡ Some journal → IsPlan plan journal row
            → last_moment journal ≡ begun → DoHostsStand hosts.now settings journal → IsCourse settings journal row self.new }
        ensures run { self.new.run ≡ Some (record { plan = plan; begun = begun; runs = nat_lt 0 plan.seconds }) }
        ensures next { self.new.next ≡ self.old.next }
    {
        self.report.begin(hosts.part(plan.host), plan.base);
        self.run = Some(Run {
            plan,
            begun,
            runs: plan.seconds > 0,
        });
    }

    /// The report that is to begin begins at a moment in milliseconds, once the hosts have done the Set. Nothing happens where none is to.
    pub fn begin_next(&mut self, hosts: &Hosts, now: u32)
        ensures { BeginsNext hosts.now now self.old self.new }
    {
        if let Some(plan) = self.next.take() {
            self.begin(hosts, plan, now);
        }
    }

    /// The report that runs ends, where it is due by a moment in milliseconds: the hosts are kept that gained most.
    pub fn end_by(&mut self, hosts: &Hosts, moment: u32)
        ensures { EndsBy hosts.now moment self.old self.new }
    {
        if let Some(run) = &self.run {
            if run.is_due(moment) {
                let ended = *run;
                self.end(hosts, &ended);
            }
        }
    }

    // The report that runs ends: the hosts of its row are kept that gained most.
    fn end(&mut self, hosts: &Hosts, run: &Run)
        requires it { self.old.run ≡ Some run.now }
        requires runs { run.now.runs ≡ true }
        ensures run { self.new.run ≡ Some (ended_run run.now) }
        ensures next { self.new.next ≡ self.old.next }
        ensures course { (settings : Counting) (journal : Journal) (row : ℕ) → last_moment journal < end_at run.now → IsMeasured settings journal
            → DoHostsStand hosts.now settings journal → IsCourse settings journal row self.old → IsCourse settings journal row self.new }
    {
        let plan = run.plan;
        self.report.end(hosts.part(plan.host), plan.base, plan.most);
        self.run = Some(Run {
            plan,
            begun: run.begun,
            runs: false,
        });
    }

    /// When the report ends that runs, in milliseconds. None where none runs.
    pub fn end_ahead(&self) -> Option<u64>
        ensures { result ≡ option_and_then end_ahead self.now.run }
    {
        match &self.run {
            Some(run) if run.runs => Some(run.end()),
            _ => None,
        }
    }

    /// The host that is shown at a place, from 1, at a moment in milliseconds, with its rate. None where there is none: while the report
    /// runs none is shown.
    pub fn shown(&self, place: u32, now: u32) -> Option<&Ranked>
        ensures value { option_copied result ≡ shown_in self.now now place }
        ensures defined { (settings : Counting) (journal : Journal) (row : ℕ) → IsCourse settings journal row self.now → IsAskable self.now now
            → option_copied result ≡ host_shown settings journal now row place }
    {
        if self.has_ended(now) {
            self.report.at(place)
        } else {
            None
        }
    }

    /// For how many seconds the last report that began runs; 0 where none did.
    pub fn duration(&self) -> u32
        ensures value { result ≡ duration_kept self.now }
        ensures defined { (settings : Counting) (journal : Journal) (row : ℕ) → IsCourse settings journal row self.now → result ≡ duration journal row }
    {
        match &self.run {
            Some(run) => run.plan.seconds,
            None => 0,
        }
    }

    /// When it began, in hundredths of a second; 0 where none did.
    pub fn start_time(&self) -> u32
        ensures value { result ≡ start_kept self.now }
        ensures defined { (settings : Counting) (journal : Journal) (row : ℕ) → IsCourse settings journal row self.now → result ≡ start_time journal row }
    {
        match &self.run {
            Some(run) => run.begun / 10,
            None => 0,
        }
    }

    /// How many seconds of it are left at a moment in milliseconds; 0 where none began.
    pub fn time_remaining(&self, now: u32) -> u32
        ensures value { result ≡ time_kept self.now now }
        ensures defined { (settings : Counting) (journal : Journal) (row : ℕ) → IsCourse settings journal row self.now
            → is_valid (control_state journal row) ≡ true → result ≡ time_remaining journal row now }
    {
        match &self.run {
            Some(run) => run
                .plan
                .seconds
                .saturating_sub(now.saturating_sub(run.begun) / 1000),
            None => 0,
        }
    }

    /// A law: what is kept of a row stays so by a frame that passes at a moment in milliseconds, which isn't before the end of a report that
    /// has ended. It does nothing.
    pub fn frame_passes(&self, moment: u32)
        ensures { (settings : Counting) (journal : Journal) (row : ℕ) (frame : Frame) → frame.moment ≡ moment → last_moment journal ≤ moment
            → HasEndedBy self.now moment → IsCourse settings journal row self.now → IsCourse settings (passes frame ∷ journal) row self.now }
    {}

    /// A law: what is kept of a row stays so by a Set at a moment in milliseconds, which isn't before the end of a report that has ended,
    /// where the row is valid after the Set, no report of it begins, and the rows of hostControl go on. It does nothing.
    pub fn set_passes(&self, moment: u32)
        ensures { (settings : Counting) (journal : Journal) (row : ℕ) (values : Assignments) → last_moment journal ≤ moment → HasEndedBy self.now moment
            → is_valid (control_state (assigns moment values ∷ journal) row) ≡ true → is_start row (assigns moment values) journal ≡ false
            → DoHostsGoOn journal (assigns moment values ∷ journal)
            → IsCourse settings journal row self.now → IsCourse settings (assigns moment values ∷ journal) row self.now }
    {}

    /// A law: what is kept of a row stays so by the sample of an alarm at a moment in milliseconds. It does nothing.
    pub fn sample_passes(&self, moment: u32)
        ensures { (settings : Counting) (journal : Journal) (row alarm : ℕ) (reading : Option ℤ) → last_moment journal ≤ moment
            → IsCourse settings journal row self.now → IsCourse settings (samples moment alarm reading ∷ journal) row self.now }
    {}

    // Whether a report began that has ended by a moment in milliseconds.
    fn has_ended(&self, now: u32) -> bool
        ensures { result ≡ has_ended self.now now }
    {
        match &self.run {
            Some(run) => run.end() <= u64::from(now),
            None => false,
        }
    }

    // How many hosts are shown at a moment in milliseconds.
    fn count_shown(&self, now: u32) -> u32
        ensures value { result ≡ count_shown self.now now }
        ensures most { result ≤ MOST_ROWS }
    {
        if self.has_ended(now) {
            self.report.len() as u32
        } else {
            0
        }
    }
}

impl NumberedPart for Course {
    ghost use Rattle.rm_topn.specs.Courses.{is_shown, none_first};

    ghost is_shown = { is_shown };

    fn shows(&self, place: u32, now: u32) -> bool {
        self.shown(place, now).is_some()
    }

    fn number_above(&self, place: u32, now: u32) -> Option<u32> {
        if place < self.count_shown(now) {
            Some(place + 1)
        } else {
            None
        }
    }

    ghost from_1 = { none_first };
}
