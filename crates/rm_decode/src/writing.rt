// Writes the text of octets.
ghost use Rattle.std.specs.Prelude.{◌≡◌, ◌≤◌, ◌++◌, ℕ, List, IfOk, IfErr, OnOk, codes, decimal, false, flat_map, take};
ghost use Rattle.std.specs.Fmt.{signed_decimal};
ghost use Rattle.rm_edge.specs.Outside.{Rose};
ghost use Rattle.rm_pdu.specs.Message.{Binding};
ghost use Rattle.rm_pdu.specs.Message.{Message as Meant};
ghost use Rattle.rm_pdu.specs.declared.places.Offsets.{Offsets};
ghost use Rattle.rm_pdu.specs.Parse.{IsParse, Parse, message};
ghost use Rattle.rm_pdu.specs.Placed.{AreKept};
ghost use Rattle.rm_pdu.specs.Reading.{IsTold};
ghost use Rattle.rm_decode.specs.Text.{binding_line, message_line, text_of};
ghost use Rattle.rm_decode.specs.Writes.{Writes};
ghost use Rattle.rm_decode.specs.declared.writing.Unwritten.TheVariants.{Failed};

use crate::line::{self, Text};
use rm_edge::Sink;
use rm_pdu::{Message, Places, one_parse, read_any};
use rm_val::NoMemory;
use std::alloc::Global;

/// Why a text wasn't written whole.
#[derive(Clone, Copy, Debug, PartialEq, Eq)]
pub enum Unwritten {
    /// There was no memory for it. Nothing was put.
    NoMemory,
    /// The put failed. A front of the text may have been put.
    Failed,
}

/// Writes what octets are, read as a message of SNMPv2c with any kind of PDU, by one put.
///
/// Octets that aren't a message have one line, which says why: `drop too-long` above 8192 octets, `drop malformed` with the
/// offset of the fault, or `drop version`. A message has a line with the kind of its PDU, its request-id, its other two numbers,
/// the count of its bindings and its community. Behind it the first 128 bindings have a line each, the name and the value.
/// Octets are shown in lower-case hexadecimal digits, and as a dash where there are none.
///
/// `Failed` comes only where the sink's count of faults has risen.
pub fn decode<K: Sink>(alloc: Global, octets: &[u8], out: &mut K) -> Result<(), Unwritten>
    // The octets have one parse, and its text is added.
    ensures text { (v : Parse) × IsParse false octets.now v × Writes (K.content out.old) (K.content out.new) (text_of v) result }
    ensures only { (v : Parse) → IsParse false octets.now v → Writes (K.content out.old) (K.content out.new) (text_of v) result }
    ensures later { K.faults out.old ≤ K.faults out.new }
    ensures cause { IfErr result (λ fault. fault ≡ Failed → Rose (K.faults out.old) (K.faults out.new)) }
{
    one_parse();
    let text = text_of(alloc, octets).map_err(|_| Unwritten::NoMemory)?;
    out.put(&text).map_err(|_| Unwritten::Failed)
}

// The text of octets.
fn text_of(alloc: Global, octets: &[u8]) -> Result<Text, NoMemory>
    ensures text { (v : Parse) × IsParse false octets.now v × IfOk result (λ text. text.items ≡ text_of v) }
{
    let mut bindings = Places::new();
    let mut text = Vec::new(alloc);
    match read_any(octets, &mut bindings) {
        Ok(message) => push_message(&mut text, octets, &message, &bindings)?,
        Err(fault) => line::push_fault(&mut text, fault)?,
    }
    Ok(text)
}

// Appends the lines of a message, which was read from the octets.
fn push_message(
    text: &mut Text,
    octets: &[u8],
    header: &Message<'_>,
    bindings: &Places,
) -> Result<(), NoMemory>
    requires { (m : Meant) × IsTold octets.now header.now bindings.now m }
    ensures { (m : Meant) → IsTold octets.now header.now bindings.now m → OnOk result (text.new.items ≡ text.old.items ++ text_of (message m)) }
{
    push_header(text, header)?;
    push_bindings(text, octets, bindings)
}

// Appends the line of a message itself.
fn push_header(text: &mut Text, header: &Message<'_>) -> Result<(), NoMemory>
    ensures { (octets : List ℕ) (offsets : List Offsets) (m : Meant) → IsTold octets header.now offsets m → OnOk result (text.new.items ≡ text.old.items ++ message_line m) }
{
    line::push(text, line::kind_word(header.kind))?;
    push_numbers(text, header)?;
    line::push_hex(text, header.community)?;
    line::push(text, b"\n")
}

// Appends the numbers of a message, with a blank before and behind each.
fn push_numbers(text: &mut Text, header: &Message<'_>) -> Result<(), NoMemory>
    ensures { OnOk result (text.new.items ≡ text.old.items ++ codes " " ++ signed_decimal header.now.id ++ codes " " ++ signed_decimal header.now.first
        ++ codes " " ++ signed_decimal header.now.second ++ codes " " ++ decimal header.now.count ++ codes " ") }
{
    line::push_blank_and(text, header.id)?;
    line::push_blank_and(text, header.first)?;
    line::push_blank_and(text, header.second)?;
    line::push_blank_and(text, header.count)?;
    line::push(text, b" ")
}

// Appends the lines of bindings, which stand in the octets.
fn push_bindings(text: &mut Text, octets: &[u8], bindings: &Places) -> Result<(), NoMemory>
    requires { (all : List Binding) × AreKept octets.now bindings.now all }
    ensures { (all : List Binding) → AreKept octets.now bindings.now all
        → OnOk result (text.new.items ≡ text.old.items ++ flat_map binding_line (take 128 all)) }
{
    for place in 0..bindings.len() {
        let name = bindings.name(octets, place);
        let value = bindings.value(octets, place);
        line::push_binding(text, &name, &value)?;
    }
    Ok(())
}
