// Numbers in decimal digits.
ghost use Rattle.std.specs.Prelude.{◌≡◌};
ghost use Rattle.rm_edge.specs.Digits.{number_in};

/// The number that one to ten decimal digits are. None where the text is anything else, or the
/// number is above 4294967295.
#[tactic(auto, unfolding(crate::specs::Digits::number_in))]
pub fn read_number(text: &[u8]) -> Option<u32>
    ensures { result ≡ number_in text.now }
{
    if text.is_empty() || text.len() > 10 {
        return None;
    }
    let mut value = 0u64;
    for digit in text {
        if !digit.is_ascii_digit() {
            return None;
        }
        value = 10 * value + u64::from(*digit - b'0');
    }
    u32::try_from(value).ok()
}
