// The names of the captures of a run.
ghost use Rattle.std.specs.Prelude.{◌≡◌, ◌≤◌, take};
ghost use Rattle.rm_captures.specs.Reading.{texts};
ghost use Rattle.rm_settings.specs.Interfaces.{IsLadder};
ghost use Rattle.rm_probe.specs.Capture.{capture_count, names_of};

/// The names of the captures of a run, in order of interface.
#[derive(Clone, Copy)]
pub(crate) struct Names<'a> {
    // One for each interface, and behind them empty ones.
    all: [&'a str; 4],
    count: usize,
    ghost few: { count ≤ 4 },
}

impl<'a> Names<'a> {
    /// The names of the first interface and of those of the others that have captures.
    pub fn new(
        capture: &'a str,
        if2: Option<&'a str>,
        if3: Option<&'a str>,
        if4: Option<&'a str>,
    ) -> Names<'a>
        requires ladder { IsLadder if2 if3 if4 }
        ensures names { texts (take result.count result.all) ≡ names_of capture.now if2.entry if3.entry if4.entry }
    {
        let second = if2.unwrap_or("");
        let third = if3.unwrap_or("");
        let fourth = if4.unwrap_or("");
        let count = capture_count(if2, if3, if4);
        Names {
            all: [capture, second, third, fourth],
            count,
        }
    }

    /// As a slice.
    pub fn as_slice(&self) -> &[&'a str]
        ensures value { result.now ≡ take self.now.count self.now.all }
    {
        &self.all[..self.count]
    }
}

// How many interfaces have captures, where none has one behind an interface that has none.
fn capture_count(if2: Option<&str>, if3: Option<&str>, if4: Option<&str>) -> usize
    ensures count { result ≡ capture_count if2.entry if3.entry if4.entry }
    ensures few { result ≤ 4 }
{
    match (if2, if3, if4) {
        (None, _, _) => 1,
        (Some(_), None, _) => 2,
        (Some(_), Some(_), None) => 3,
        (Some(_), Some(_), Some(_)) => 4,
    }
}
