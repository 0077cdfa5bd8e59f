// Laws of the numbers of a request file. The bodies are empty.
ghost use Rattle.std.specs.Prelude.{◌≡◌, ◌↔◌, ◌≤◌, ◌<◌, ◌^◌, ℕ, List, length, Some, decimal};
ghost use Rattle.rm_edge.specs.Digits.{number_in};
ghost use Rattle.rm_requests.specs.Decimal.{IsDecimal, HasNoLeadingZero};

/// A law: a number is read exactly where a text is one to ten decimal digits that are it, and it is below 2^32. Zeros may
/// stand in front.
pub fn numbers_are_decimal()
    ensures { (text : List ℕ) (number : ℕ) → (number_in text ≡ Some number) ↔ (IsDecimal text number × (length text ≤ 10) × (number < 2 ^ 32)) }
{}

/// A law: what is written for a number is exactly the decimal digits that are it with no zero in front of others.
pub fn numbers_are_written()
    ensures { (text : List ℕ) (number : ℕ) → number < 2 ^ 64 → (text ≡ decimal number) ↔ (IsDecimal text number × HasNoLeadingZero text) }
{}

/// A law: what is written for a number below 2^32 is read as it.
pub fn numbers_read_back()
    ensures { (number : ℕ) → number < 2 ^ 32 → number_in (decimal number) ≡ Some number }
{}
