// A frame of a load, and its octets.
ghost use Rattle.std.specs.Prelude.{◌≡◌, ◌+◌, ◌≤◌, length};
ghost use Rattle.rm_load.specs.Frames.{octets_of, port_of};

use rm_pcap::Frame;

/// How many frames a load has at most.
pub const MOST_MADE: u32 = 10_000_000;

/// The interface of all frames.
const INTERFACE: u32 = 1;

/// The moment before the first frame, in milliseconds. A frame comes each millisecond.
pub const BEFORE_FRAMES: u32 = 1000;

// The octets of a frame from host 0 to itself, and to port 0.
const BETWEEN_HOSTS_0: [u8; 60] = [
    2, 0, 0, 0, 0, 0, 2, 0, 0, 0, 0, 0, 8, 0, 0x45, 0, 0, 46, 0, 0, 0, 0, 64, 17, 0, 0, 10, 0, 0,
    0, 10, 0, 0, 0, 0x9c, 0x40, 0, 0, 0, 26, 0, 0, 0, 0, 0, 0, 0, 0, 0, 0, 0, 0, 0, 0, 0, 0, 0, 0,
    0, 0,
];

/// A frame of a load, with its octets.
#[derive(Clone, Copy)]
pub struct MadeFrame {
    /// Its number, from 1.
    pub number: u32,
    /// How many octets it had, its check sequence left out.
    pub original: u32,
    /// The octets captured.
    pub octets: [u8; 60],
    ghost few: { number ≤ 10000000 },
    ghost least: { 60 ≤ original },
    ghost most: { original ≤ 1514 },
}

impl MadeFrame {
    ghost use Rattle.rm_pcap.specs.Progress.{frame_of};
    ghost use Rattle.rm_load.specs.Frames.{frame_by};
    ghost use Rattle.rm_load.specs.Making.{made_of};

    /// The frame with a number, by what is drawn for it.
    pub fn new(number: u32, drawn: u32) -> MadeFrame
        requires { number ≤ MOST_MADE }
        ensures { made_of result ≡ frame_by number drawn }
    {
        MadeFrame {
            number,
            original: 60 + drawn % 1455,
            octets: octets(drawn),
        }
    }

    /// The frame, as a probe takes it.
    pub fn lend(&self) -> Frame<'_>
        ensures frame { frame_of result ≡ made_of self.now }
        ensures moment { result.moment ≡ 1000 + self.now.number }
        ensures captured { length result.bytes.now ≤ result.original }
        ensures original { result.original ≤ 262144 }
    {
        Frame {
            bytes: &self.octets,
            original: self.original,
            moment: BEFORE_FRAMES + self.number,
            number: self.number,
            interface: INTERFACE,
        }
    }
}

// The port that a frame goes to, 53 or 161, by what is drawn for it. Its high octet is 0.
fn port(drawn: u32) -> u8
    ensures { result ≡ port_of drawn }
{
    if drawn % 2 == 0 { 53 } else { 161 }
}

// The octets of a frame, by what is drawn for it: the headers of Ethernet, of IPv4 and of UDP, and 18 octets behind them.
fn octets(drawn: u32) -> [u8; 60]
    ensures { result ≡ octets_of drawn }
{
    let source = (drawn % 64) as u8;
    let destination = (drawn / 64 % 64) as u8;
    let mut octets = BETWEEN_HOSTS_0;
    octets[5] = destination;
    octets[11] = source;
    octets[29] = source;
    octets[33] = destination;
    octets[37] = port(drawn);
    octets
}
