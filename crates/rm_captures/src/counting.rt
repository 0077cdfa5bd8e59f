// How many frames have passed.
ghost use Rattle.std.specs.Prelude.{◌≡◌, ◌≤◌, ◌*◌, length};
ghost use Rattle.rm_captures.specs.Left.{passed_of};

use rm_pcap::Capture;

/// How many records of captures were passed, of up to four.
pub fn passed(captures: &[Capture]) -> u64
    requires few { length captures.now ≤ 4 }
    ensures count { result ≡ passed_of captures.now }
    ensures most { result ≤ 4294967295 * length captures.now }
{
    match captures.split_first() {
        Some((capture, others)) => u64::from(capture.count()) + passed(others),
        None => 0,
    }
}
