// The two runs of packets in a ring.
ghost use Rattle.std.specs.Prelude.{◌≡◌, ◌+◌, ◌<◌, ◌≤◌, ◌^◌};
ghost use Rattle.rm_ring.specs.Runs.{fits_behind, start_of, with_packet, without_oldest};

/// Where the packets of a ring stand: those of the older run one behind the other, and those of a newer one likewise, which begins
/// at the front of the ring. While there is no newer run all packets are in the older one.
#[derive(Clone, Copy)]
pub struct Runs {
    /// How many packets are in the older run.
    pub older: usize,
    /// Where the older run begins, and where it ends.
    pub start: usize,
    pub end: usize,
    /// Where the newer run ends.
    pub front: usize,
}

impl Runs {
    /// No packets.
    pub fn new() -> Runs
        ensures { result ≡ record { older = 0; start = 0; end = 0; front = 0 } }
    {
        Runs {
            older: 0,
            start: 0,
            end: 0,
            front: 0,
        }
    }

    // Whether a packet of a size goes behind the older run, where there are so many packets, and so many octets of storage.
    fn fits_behind(&self, count: usize, storage: usize, size: usize) -> bool
        requires { self.now.end ≤ storage }
        ensures { result ≡ fits_behind self.now count storage size }
    {
        self.older == count && size <= storage - self.end
    }

    /// Takes the place of a packet of a size, behind the older run or behind the newer one, and answers where it begins.
    pub fn take(&mut self, count: usize, storage: usize, size: usize) -> usize
        requires within { self.old.end ≤ storage }
        requires fewer { self.old.older ≤ count }
        requires few { count < 2 ^ 63 }
        requires front { self.old.front + size < 2 ^ 64 }
        ensures start { result ≡ start_of self.old count storage size }
        ensures runs { self.new ≡ with_packet self.old count storage size }
    {
        if self.fits_behind(count, storage, size) {
            let start = self.end;
            self.older += 1;
            self.end += size;
            return start;
        }
        let start = self.front;
        self.front += size;
        start
    }

    /// Gives back the place of the oldest packet of so many, by its size. The newer run is the older one from then on where no
    /// packet of the older one is left.
    pub fn give_back(&mut self, count: usize, size: usize)
        requires some { 1 ≤ self.old.older }
        requires fewer { self.old.older ≤ count }
        requires near { self.old.start + size < 2 ^ 64 }
        ensures { self.new ≡ without_oldest self.old count size }
    {
        self.older -= 1;
        self.start += size;
        if self.older == 0 {
            *self = Runs {
                older: count - 1,
                start: 0,
                end: self.front,
                front: 0,
            };
        }
    }
}
