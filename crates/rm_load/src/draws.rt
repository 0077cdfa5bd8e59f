// What a linear generator draws.
ghost use Rattle.std.specs.Prelude.{◌≡◌};
ghost use Rattle.rm_load.specs.Draws.{drawn_by, next};

// By what it multiplies a number.
const FACTOR: u64 = 1_103_515_245;

// What it adds then.
const SUMMAND: u64 = 12_345;

// What it divides by last: the remainder is the next number.
const MODULUS: u64 = 2_147_483_648;

/// The number after a number.
pub fn next_number(number: u32) -> u32
    ensures { result ≡ next number }
{
    ((FACTOR * u64::from(number) + SUMMAND) % MODULUS) as u32
}

/// What is drawn by a number: its high bits, since the low ones of such a generator repeat soon.
pub fn drawn(number: u32) -> u32
    ensures { result ≡ drawn_by number }
{
    number / 65536
}
