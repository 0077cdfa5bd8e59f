// The parts of an element: its tag, the length of its content, and the content (X.690, 8.1.2 and 8.1.3).
ghost use Rattle.std.specs.Prelude.{◌≡◌, option_map};
ghost use Rattle.rm_ber.specs.Reading.{length_at};

use byteorder::{BigEndian, ByteOrder};

// An element, and the octets after it.
#[derive(Clone, Copy)]
pub(crate) struct Element<'a> {
    pub(crate) tag: u8,
    pub(crate) content: &'a [u8],
    pub(crate) rest: &'a [u8],
}

// The number of the length that stands first, and the octets after it. None where there is no length in the
// definite form, or one of more than 4 further octets.
#[tactic(auto, unfolding(crate::specs::Reading::length_at))]
fn length_at(octets: &[u8]) -> Option<(usize, &[u8])>
    ensures { option_map (λ found. (found.0, found.1.now)) result ≡ length_at octets.now }
{
    let (&first, more) = octets.split_first()?;
    match first {
        0..=0x7f => Some((usize::from(first), more)),
        0x81..=0x84 => {
            let count = usize::from(first - 0x80);
            let (number, rest) = more.split_at_checked(count)?;
            Some((BigEndian::read_uint(number, count) as usize, rest))
        }
        _ => None,
    }
}

impl<'a> Element<'a> {
    ghost use Rattle.rm_ber.specs.Reading.{element_at, Finds};

    // The element that stands first, if one does.
    #[tactic(auto, unfolding(crate::specs::Reading::element_at))]
    pub(crate) fn first(octets: &'a [u8]) -> Option<Element<'a>>
        ensures { Finds result (element_at octets.entry.now) }
    {
        let (&tag, counted) = octets.split_first()?;
        let (length, more) = length_at(counted)?;
        let (content, rest) = more.split_at_checked(length)?;
        Some(Element { tag, content, rest })
    }
}
