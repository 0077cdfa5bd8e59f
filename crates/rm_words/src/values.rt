// What the value of an option is.
ghost use Rattle.std.specs.Prelude.{◌≡◌, ◌≤◌, IfSome, IsTrue, MatchOption, Some, None, length};
ghost use Rattle.std.specs.List.{list_all};
ghost use Rattle.std.specs.Char.{is_ascii_graphic, is_ascii_hexdigit};
ghost use Rattle.rm_words.specs.Grammar.{number_within, port_of, community_of, is_community, is_hex, is_name};

use arrayvec::ArrayVec;
use rm_edge::read_number;
use rm_settings::Community;

/// Whether a text may be the name of a file: it isn't empty.
pub fn is_name(text: &str) -> bool
    ensures { result ≡ is_name text.now }
{
    !text.is_empty()
}

/// The number that one to ten decimal digits are, if it is within a range.
#[tactic(auto, unfolding(crate::specs::Grammar::number_within, rm_edge::specs::Digits::number_in))]
pub fn number(text: &[u8], low: u32, high: u32) -> Option<u32>
    ensures is { result ≡ number_within low high text.now }
    ensures within { IfSome result (λ n. (low ≤ n) × (n ≤ high)) }
{
    match read_number(text) {
        Some(value) if low <= value && value <= high => Some(value),
        _ => None,
    }
}

/// The number of a port, if it is one.
pub fn port(text: &[u8]) -> Option<u16>
    ensures { result ≡ port_of text.now }
{
    let number = number(text, 1, 65_535)?;
    Some(number as u16)
}

fn is_visible(text: &[u8]) -> bool
    ensures { result ≡ list_all is_ascii_graphic text.now }
{
    text.iter().all(|c| c.is_ascii_graphic())
}

fn are_hex_digits(text: &[u8]) -> bool
    ensures { result ≡ list_all is_ascii_hexdigit text.now }
{
    text.iter().all(|c| c.is_ascii_hexdigit())
}

/// Whether a text is octets in hexadecimal digits, two for each, at most 131,070.
#[tactic(auto, unfolding(crate::specs::Grammar::is_hex))]
pub fn is_hex(text: &[u8]) -> bool
    ensures { result ≡ is_hex text.now }
{
    if text.is_empty() || text.len() > 131_070 || text.len() % 2 != 0 {
        return false;
    }
    are_hex_digits(text)
}

#[tactic(auto, unfolding(crate::specs::Grammar::is_community))]
fn is_community(text: &[u8]) -> bool
    ensures is { result ≡ is_community text.now }
    ensures some { IsTrue result → 1 ≤ length text.now }
    ensures short { IsTrue result → length text.now ≤ 64 }
{
    if text.is_empty() || text.len() > 64 || text[0] == b'-' {
        return false;
    }
    is_visible(text)
}

/// A community of these octets.
pub fn kept(octets: &[u8]) -> Community
    requires { length octets.now ≤ 64 }
    ensures { result.items ≡ octets.now }
{
    let mut community = ArrayVec::new();
    // There is room.
    let _ = community.try_extend_from_slice(octets);
    community
}

/// The community that a text is, if it is one.
pub fn community(text: &[u8]) -> Option<Community>
    ensures is { MatchOption result (community_of text.now ≡ None) (λ community. community_of text.now ≡ Some community.items) }
    ensures within { IfSome result (λ community. (1 ≤ length community.items) × (length community.items ≤ 64)) }
{
    if is_community(text) {
        Some(kept(text))
    } else {
        None
    }
}
