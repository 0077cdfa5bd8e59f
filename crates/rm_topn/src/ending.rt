// Reports that end, and such as begin.
use crate::course::Course;
use rm_hosts::Hosts;
use rm_pool::Change;

/// The reports end that are due by a moment.
#[derive(Drop)]
pub(crate) struct Ending<'a> {
    /// The hosts as they are.
    pub hosts: &'a Hosts,
    /// The moment, in milliseconds.
    pub moment: u32,
}

impl Change<Course> for Ending<'_> {
    ghost use Rattle.rm_topn.specs.Changes.{EndsBy};

    ghost allows = { λ s row course. Unit {0} };

    ghost makes = { λ s row. EndsBy s.hosts.now s.moment };

    fn change(&self, _row: u32, course: &mut Course) {
        course.end_by(self.hosts, self.moment);
    }
}

/// The reports begin that are to.
#[derive(Drop)]
pub(crate) struct Beginning<'a> {
    /// The hosts after the Set.
    pub hosts: &'a Hosts,
    /// The moment of the Set, in milliseconds.
    pub now: u32,
}

impl Change<Course> for Beginning<'_> {
    ghost use Rattle.rm_topn.specs.Changes.{BeginsNext};

    ghost allows = { λ s row course. Unit {0} };

    ghost makes = { λ s row. BeginsNext s.hosts.now s.now };

    fn change(&self, _row: u32, course: &mut Course) {
        course.begin_next(self.hosts, self.now);
    }
}
