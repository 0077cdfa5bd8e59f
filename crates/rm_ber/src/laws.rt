// Laws of the octets that are accepted and of the canonical ones. Their bodies are empty.
ghost use Rattle.std.specs.Prelude.{◌≡◌, ◌⊎◌, ◌≤◌, ◌<◌, ◌%◌, ◌^◌, ℕ, List, [], ◌∷◌, ◌++◌, length, map, take, All};
ghost use Rattle.byteorder.specs.Endian.{big_number};
ghost use Rattle.rm_val.specs.Val.{Val};
ghost use Rattle.rm_val.specs.Spellable.{HasSpelling};
ghost use Rattle.rm_ber.specs.Element.{length_octets, element, group_octets, value_element};
ghost use Rattle.rm_ber.specs.Grammar.{IsGroup, StandsFirst, ValueFirst};
ghost use Rattle.rm_ber.specs.Canonical.{HasLength, IsInRange, IsAccepted, AreFewest};
ghost use Rattle.rm_ber.specs.Positional.{positional};

/// A law: at most one element stands first in the octets, with one rest.
pub fn one_element()
    ensures { (tag other_tag : ℕ) (content other_content rest other_rest bytes : List ℕ)
        → StandsFirst tag content rest bytes → StandsFirst other_tag other_content other_rest bytes
        → (tag ≡ other_tag) × (content ≡ other_content) × (rest ≡ other_rest) }
{}

/// A law: at most one value stands first in the octets, with one rest.
pub fn one_value()
    ensures { (v w : Val) (rest other_rest bytes : List ℕ)
        → ValueFirst v rest bytes → ValueFirst w other_rest bytes → (v ≡ w) × (rest ≡ other_rest) }
{}

/// A law: an element stands first in the octets, or none does.
pub fn element_or_none()
    ensures { (bytes : List ℕ) → ((tag : ℕ) × (content rest : List ℕ) × StandsFirst tag content rest bytes)
        ⊎ ((tag : ℕ) (content rest : List ℕ) → StandsFirst tag content rest bytes → ⊥) }
{}

/// A law: a value stands first in the octets, or none does.
pub fn value_or_none()
    ensures { (bytes : List ℕ) → ((v : Val) × (rest : List ℕ) × ValueFirst v rest bytes)
        ⊎ ((v : Val) (rest : List ℕ) → ValueFirst v rest bytes → ⊥) }
{}

/// A law: the octets of an element have no shorter front that is an element too.
pub fn no_element_in_front()
    ensures { (tag other_tag : ℕ) (content other_content bytes : List ℕ) (n : ℕ)
        → StandsFirst tag content [] bytes → n < length bytes
        → StandsFirst other_tag other_content [] (take n bytes) → ⊥ }
{}

/// A law: what is accepted as a value has a spelling.
pub fn values_are_spellable()
    ensures { (v : Val) (rest bytes : List ℕ) → ValueFirst v rest bytes → HasSpelling v }
{}

/// A law: a tag, the canonical length of a content and the content are accepted as an element, whatever follows.
pub fn elements_read_back()
    ensures { (tag : ℕ) (content rest : List ℕ) → length content ≤ 4294967295
        → StandsFirst tag content rest (tag ∷ length_octets (length content) ++ content ++ rest) }
{}

/// A law: the canonical element of a value is accepted as the value, whatever follows.
pub fn values_read_back()
    ensures { (v : Val) → HasSpelling v → HasLength v → IsInRange v → IsAccepted v }
{}

/// A law: no octets that are accepted as a value are fewer than its canonical element.
pub fn canonical_is_shortest()
    ensures { (v : Val) (rest bytes : List ℕ) → ValueFirst v rest bytes → All (λ octet. octet < 256) bytes
        → length (value_element v ++ rest) ≤ length bytes }
{}

/// A law: octets that are accepted as a value, and are as many as its canonical element and the rest, are these.
pub fn canonical_stands_alone()
    ensures { (v : Val) (rest bytes : List ℕ) → ValueFirst v rest bytes → All (λ octet. octet < 256) bytes
        → length bytes ≡ length (value_element v ++ rest) → bytes ≡ value_element v ++ rest }
{}

/// A law: octets that begin with an element are no fewer than its tag, its length in the fewest octets, its content and the rest, and
/// are these where they are as many (X.690, 8.1.3).
pub fn elements_are_shortest()
    ensures { (tag : ℕ) (content rest bytes : List ℕ) → StandsFirst tag content rest bytes → All (λ octet. octet < 256) bytes
        → AreFewest (element tag content ++ rest) bytes }
{}

/// A law: the digits of a subidentifier's number in base 128 are the low seven bits of its octets (X.690, 8.19.2).
pub fn subidentifiers_are_positional()
    ensures { (group : List ℕ) (n : ℕ) → IsGroup group n → n ≡ positional 128 (map (λ octet. octet % 128) group) }
{}

/// A law: what is written for a number of a name is a subidentifier with that number, in the fewest octets (X.690, 8.19.2).
pub fn subidentifiers_read_back()
    ensures { (n : ℕ) → n < 2 ^ 32 → IsGroup (group_octets n) n }
{}

/// A law: the number that octets are, the highest first, has them as its digits in base 256. So stand a length of the long form, and the two's
/// complement of an integer (X.690, 8.1.3.5 and 8.3.3).
pub fn octets_are_positional()
    ensures { (octets : List ℕ) → big_number (length octets) octets ≡ positional 256 octets }
{}
