// The lines of a text.
ghost use Rattle.std.specs.Prelude.{◌≡◌, ◌++◌, OnOk, codes};
ghost use Rattle.rm_val.specs.Val.{val_of};
ghost use Rattle.rm_pdu.specs.Answers.{parse_of};
ghost use Rattle.rm_decode.specs.Text.{kind_word, hex_or_dash, dot_and, dotted, value_text, binding_line, text_of};

use itoa::{Buffer, Integer};
use rm_pdu::{Fault, Kind};
use rm_val::{NoMemory, Oid, Value};

/// The octets of a text.
pub type Text = Vec<u8>;

// Appends octets.
pub fn push(text: &mut Text, bytes: &[u8]) -> Result<(), NoMemory>
    ensures { OnOk result (text.new.items ≡ text.old.items ++ bytes.now) }
{
    text.extend_from_slice(bytes).map_err(|_| NoMemory)
}

/// Appends a number in decimal digits.
pub fn push_number<I: Integer>(text: &mut Text, number: I) -> Result<(), NoMemory>
    ensures { OnOk result (text.new.items ≡ text.old.items ++ I.text number) }
{
    let mut buffer = Buffer::new();
    push(text, buffer.format(number).as_bytes())
}

/// Appends a number behind a blank.
pub fn push_blank_and<I: Integer>(text: &mut Text, number: I) -> Result<(), NoMemory>
    ensures { OnOk result (text.new.items ≡ text.old.items ++ codes " " ++ I.text number) }
{
    push(text, b" ")?;
    push_number(text, number)
}

/// Appends octets in lower-case hexadecimal digits, or a dash for none.
pub fn push_hex(text: &mut Text, bytes: &[u8]) -> Result<(), NoMemory>
    ensures { OnOk result (text.new.items ≡ text.old.items ++ hex_or_dash bytes.now) }
{
    if bytes.is_empty() {
        return push(text, b"-");
    }
    let alloc = *text.allocator();
    let digits = hex::encode(alloc, bytes).map_err(|_| NoMemory)?;
    push(text, digits.as_bytes())
}

// Appends a number behind a dot.
fn push_dot_and(text: &mut Text, number: u32) -> Result<(), NoMemory>
    ensures { OnOk result (text.new.items ≡ text.old.items ++ dot_and number) }
{
    push(text, b".")?;
    push_number(text, number)
}

// Appends numbers with dots between them.
fn push_dotted(text: &mut Text, numbers: &Oid) -> Result<(), NoMemory>
    ensures { OnOk result (text.new.items ≡ text.old.items ++ dotted numbers.now) }
{
    if numbers.len() == 0 {
        return Ok(());
    }
    push_number(text, numbers.at(0))?;
    for place in 1..numbers.len() {
        push_dot_and(text, numbers.at(place))?;
    }
    Ok(())
}

// Appends an address of IP, its four octets with dots between them.
fn push_address(text: &mut Text, address: [u8; 4]) -> Result<(), NoMemory>
    ensures { OnOk result (text.new.items ≡ text.old.items ++ dotted address) }
{
    let [first, second, third, fourth] = address;
    push_number(text, first)?;
    push_dot_and(text, u32::from(second))?;
    push_dot_and(text, u32::from(third))?;
    push_dot_and(text, u32::from(fourth))
}

// Appends the word for a type, and a number.
fn push_counted<I: Integer>(text: &mut Text, word: &[u8], number: I) -> Result<(), NoMemory>
    ensures { OnOk result (text.new.items ≡ text.old.items ++ word.now ++ I.text number) }
{
    push(text, word)?;
    push_number(text, number)
}

// Appends a value: the word for its type, and what it holds.
fn push_value(text: &mut Text, value: &Value<'_>) -> Result<(), NoMemory>
    ensures { OnOk result (text.new.items ≡ text.old.items ++ value_text (val_of value.now)) }
{
    match value {
        Value::Int(number) => push_counted(text, b"integer ", *number),
        Value::Counter(number) => push_counted(text, b"counter ", *number),
        Value::Gauge(number) => push_counted(text, b"gauge ", *number),
        Value::Ticks(number) => push_counted(text, b"ticks ", *number),
        Value::Big(number) => push_counted(text, b"counter64 ", *number),
        Value::Octets(bytes) => {
            push(text, b"octets ")?;
            push_hex(text, bytes)
        }
        Value::Opaque(bytes) => {
            push(text, b"opaque ")?;
            push_hex(text, bytes)
        }
        Value::Name(numbers) => {
            push(text, b"oid ")?;
            push_dotted(text, numbers)
        }
        Value::Ip(address) => {
            push(text, b"ip ")?;
            push_address(text, *address)
        }
        Value::Null => push(text, b"null"),
        Value::NoObject => push(text, b"no-object"),
        Value::NoInstance => push(text, b"no-instance"),
        Value::EndOfView => push(text, b"end-of-view"),
    }
}

/// Appends the line of a binding.
pub fn push_binding(text: &mut Text, name: &Oid, value: &Value<'_>) -> Result<(), NoMemory>
    ensures { OnOk result (text.new.items ≡ text.old.items ++ binding_line (record { name = name.now; value = val_of value.now })) }
{
    push_dotted(text, name)?;
    push(text, b" ")?;
    push_value(text, value)?;
    push(text, b"\n")
}

/// The word for a kind of PDU.
pub fn kind_word(kind: Kind) -> &'static [u8]
    ensures { result.now ≡ kind_word kind }
{
    match kind {
        Kind::Get => b"get",
        Kind::Next => b"next",
        Kind::Response => b"response",
        Kind::Set => b"set",
        Kind::Bulk => b"bulk",
        Kind::Inform => b"inform",
        Kind::Trap => b"trap",
        Kind::Report => b"report",
    }
}

/// Appends the line that says why octets are no message.
pub fn push_fault(text: &mut Text, fault: Fault) -> Result<(), NoMemory>
    ensures { OnOk result (text.new.items ≡ text.old.items ++ text_of (parse_of fault)) }
{
    match fault {
        Fault::TooLong => push(text, b"drop too-long\n"),
        Fault::Malformed(at) => {
            push(text, b"drop malformed ")?;
            push_number(text, at)?;
            push(text, b"\n")
        }
        Fault::Version(_) => push(text, b"drop version\n"),
        Fault::NotRequest(_) => push(text, b"drop not-request\n"),
    }
}
