// What the columns of protocolDirTable show that can't be set.
ghost use Rattle.std.specs.Prelude.{◌≡◌, [], ◌∷◌};
ghost use Rattle.rm_val.specs.Val.{val_of, octets};
ghost use Rattle.rm_dir.specs.BuiltIn.{type_bits};
ghost use Rattle.rm_dir.specs.Shown.{kept_other, type_at};

use crate::built_in::type_bits;
use crate::keys::row_protocol;
use crate::row::DirectoryRow;
use rm_path::ProtocolIdentifier;
use rm_status::{OtherColumns, Row};
use rm_val::Value;

/// The local index, the type, and that addresses aren't mapped.
#[derive(Clone, Copy)]
pub struct Others;

impl OtherColumns<DirectoryRow> for Others {
    ghost others = { λ s rows. kept_other rows };

    fn other(&self, index: u32, row: &Row<DirectoryRow>, column: u32) -> Value<'static> {
        match column {
            3 => Value::Int(row.columns.local.min(i32::MAX as u32) as i32),
            5 => type_shown(row_protocol(index)),
            _ => Value::Int(1),
        }
    }
}

// The octet of protocolDirType, by the protocol of a row.
fn type_shown(protocol: Option<ProtocolIdentifier>) -> Value<'static>
    ensures { val_of result ≡ octets (type_at protocol ∷ []) }
{
    let bits = match protocol {
        Some(protocol) => type_bits(protocol),
        None => 0x00,
    };
    match bits {
        0x80 => Value::Octets(&[0x80]),
        0xc0 => Value::Octets(&[0xc0]),
        _ => Value::Octets(&[0x00]),
    }
}
