// Lines of a word and a number.
ghost use Rattle.std.specs.Prelude.{◌≡◌, ◌≤◌, length};
ghost use Rattle.rm_summary.specs.Text.{line};

use arrayvec::ArrayVec;
use itoa::Buffer;

/// The octets of a line, its line feed included.
pub type Line = ArrayVec<u8, 64>;

/// A line with a word of at most 40 octets, and a number behind it.
pub fn line(word: &[u8], number: u64) -> Line
    requires { length word.now ≤ 40 }
    ensures { result.items ≡ line word.now number }
{
    let mut digits = Buffer::new();
    let digits = digits.format(number).as_bytes();
    let mut line = Line::new();
    let _ = line.try_extend_from_slice(word);
    line.push(b' ');
    let _ = line.try_extend_from_slice(digits);
    line.push(b'\n');
    line
}
