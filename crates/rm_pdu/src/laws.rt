// Laws of messages and of what octets are. The bodies cite the laws of elements, and do nothing else.
ghost use Rattle.std.specs.Prelude.{◌≡◌, ◌≤◌, ◌<◌, ◌+◌, ◌*◌, ◌++◌, ℕ, ℤ, pos, Bool, List, [], length, take, All};
ghost use Rattle.std.specs.List.{sum_by};
ghost use Rattle.rm_val.specs.Val.{int, name, ticks};
ghost use Rattle.rm_pdu.specs.Message.{Binding, Message, binding_octets, message_octets};
ghost use Rattle.rm_pdu.specs.Draft.{binding_of};
ghost use Rattle.rm_pdu.specs.Spells.{Spells};
ghost use Rattle.rm_pdu.specs.Parse.{Parse, IsParse};

use rm_ber::{
    canonical_is_shortest, canonical_stands_alone, element_or_none, elements_are_shortest,
    no_element_in_front, one_element, one_value, value_or_none,
};

/// A law: octets spell one message at most.
pub fn one_message()
    ensures { (bytes : List ℕ) (m n : Message) → Spells bytes m → Spells bytes n → m ≡ n }
{
    one_element();
    one_value();
}

/// A law: octets that spell a message have no shorter front that spells one.
pub fn no_message_in_front()
    ensures { (bytes : List ℕ) (m n : Message) (count : ℕ) → Spells bytes m → count < length bytes → Spells (take count bytes) n → ⊥ }
{
    no_element_in_front();
}

/// A law: octets that spell a message are no fewer than its canonical ones, and are these where they are as many (RFC 1905, section 3;
/// X.690, 8.1.3, 8.3 and 8.19).
pub fn canonical_messages_are_shortest()
    ensures fewest { (bytes : List ℕ) (m : Message) → Spells bytes m → All (λ octet. octet < 256) bytes
        → length (message_octets m) ≤ length bytes }
    ensures alone { (bytes : List ℕ) (m : Message) → Spells bytes m → All (λ octet. octet < 256) bytes
        → length bytes ≡ length (message_octets m) → bytes ≡ message_octets m }
{
    canonical_is_shortest();
    canonical_stands_alone();
    elements_are_shortest();
}

/// A law: octets are one thing at most, read as requests or as any message.
pub fn one_parse()
    ensures { (requests : Bool) (bytes : List ℕ) (v w : Parse) → IsParse requests bytes v → IsParse requests bytes w → v ≡ w }
{
    one_element();
    one_value();
}

/// A law: octets are one thing at least, read as requests or as any message.
pub fn every_parse()
    ensures { (requests : Bool) (bytes : List ℕ) → (v : Parse) × IsParse requests bytes v }
{
    one_element();
    one_value();
    element_or_none();
    value_or_none();
}

/// A law: more bindings make the canonical octets of a message more.
pub fn bindings_lengthen()
    ensures { (m : Message) (more : List Binding) → length (message_octets m) ≤ length (message_octets (record m { bindings = m.bindings ++ more })) }
{}

/// A law: a message with no bindings and a community of at most 127 octets has at most 1472 canonical octets.
pub fn empty_messages_are_short()
    ensures { (m : Message) → length m.community ≤ 127 → m.bindings ≡ [] → length (message_octets m) ≤ 1472 }
{}

/// A law: of the responses with an error-status of at most 127 and an error-index of at most 128, one with error-index 128 has the
/// most canonical octets.
pub fn index_128_is_longest()
    ensures { (m : Message) (status index : ℕ) → status ≤ 127 → index ≤ 128
        → length (message_octets (record m { first = pos status; second = pos index })) ≤ length (message_octets (record m { first = pos 0; second = pos 128 })) }
{}

/// A law: a message with a community of at most 127 octets has at most 191 canonical octets beside those of its bindings.
pub fn bindings_add_up()
    ensures { (m : Message) → length m.community ≤ 127 → length (message_octets m) ≤ 191 + sum_by (λ binding. length (binding_octets binding)) m.bindings }
{}

/// A law: at most how many canonical octets a binding has whose value is an INTEGER, TimeTicks or a name.
pub fn bindings_are_bounded()
    ensures numbers { (numbers : List ℕ) (z : ℤ) → length (binding_octets (binding_of numbers (int z))) ≤ 5 * length numbers + 23 }
    ensures ticks { (numbers : List ℕ) (n : ℕ) → length (binding_octets (binding_of numbers (ticks n))) ≤ 5 * length numbers + 27 }
    ensures names { (numbers others : List ℕ) → length (binding_octets (binding_of numbers (name others))) ≤ 5 * length numbers + 5 * length others + 18 }
{}
