// What the description of a control table says of its columns.
ghost use Rattle.std.specs.Prelude.{◌≡◌, Some, [], ◌∷◌, find, nat_eq, false, not, ◌||◌, ◌&&◌, is_some, is_none, if◌then◌else◌};
ghost use Rattle.std.specs.List.{list_all};
ghost use Rattle.std.specs.Option.{option_copied, option_map, option_map_or};
ghost use Rattle.rm_val.specs.Val.{val_of};
ghost use Rattle.rm_val.specs.Spellable.{HasSpelling};
ghost use Rattle.rm_model.specs.ControlTable.{number, any_name, column_of as table_column, is_ready};
ghost use Rattle.rm_model.specs.Judgement.{value_fault, column_kind, is_always as may_always, of_columns};
ghost use Rattle.rm_model.specs.Sheet.{range_of, kind_of, is_always, setting_value, column_of, columns_of};
ghost use Rattle.rm_columns.specs.Field.{kind_in};
ghost use Rattle.rm_columns.specs.Field.{shows};

use crate::control_row::ControlRow;
use crate::interface::interface_name;
use crate::values::{number_fault, source_fault, text_fault};
use rm_model::{ColumnKind, ColumnSheet, Settable, Setting, Span};
use rm_val::{ErrorStatus, Oid, Value};

/// What is wrong with a value for a column of a table (RFC 1905, section 4.2.5): notWritable for a column that isn't writable,
/// the status among them, else wrongType, wrongLength or wrongValue. None where the column takes the value.
pub fn check<C: ControlRow>(column: u32, value: &Value<'_>) -> Option<ErrorStatus>
    ensures { result ≡ value_fault (column_kind C.form.table column) (val_of value.now) }
{
    fault_in(C::sheet(), column, value)
}

/// Whether a column may be set while its row is valid too.
pub fn may_always<C: ControlRow>(column: u32) -> bool
    ensures { result ≡ may_always C.form.table column }
{
    always_in(C::sheet(), column)
}

/// Whether a row with these columns is ready, but for what only a `Look` can tell.
pub fn is_ready<C: ControlRow>(row: &C) -> bool
    ensures { result ≡ is_ready C.form.table (of_columns C.form.table (C.form.set_to row.now)) }
{
    has_needed(row, C::sheet()) && row.agree()
}

/// What a column shows, with `other` for one that isn't among the writable ones.
pub fn shown<'a, C: ControlRow>(row: &'a C, column: u32, other: Value<'a>) -> Value<'a>
    requires spelled { C.spelled row.now }
    requires spelling { HasSpelling (val_of other) }
    ensures value { val_of result ≡ (if is_some (table_column C.form.table column) then shows C.form.table C.form.set_to row.now column else val_of other.entry) }
    ensures spelling { HasSpelling (val_of result) }
{
    match column_in(C::sheet(), column) {
        None => other,
        Some(found) => match row.show(column) {
            Some(value) => value,
            None => setting_value(&found.default),
        },
    }
}

// Whether each column that a row needs was set.
fn has_needed<C: ControlRow>(row: &C, columns: &[ColumnSheet]) -> bool
    ensures { result ≡ list_all (λ c. not c.needed || is_some (C.form.set_to row.now c.number)) (columns_of columns.now) }
{
    !missing(row, columns).is_some()
}

fn missing<'a, C: ControlRow>(row: &C, columns: &'a [ColumnSheet]) -> Option<&'a ColumnSheet>
    ensures { option_copied result ≡ find (λ c. c.needed && is_none (C.form.set_to row.now c.number)) columns.now }
{
    columns.iter().find(|column| is_missing(row, column))
}

fn is_missing<C: ControlRow>(row: &C, column: &ColumnSheet) -> bool
    ensures { result ≡ (column.now.needed && is_none (C.form.set_to row.now column.now.number)) }
{
    column.needed && row.show(column.number).is_none()
}

// What is wrong with a value for the column with a number: notWritable where there is no such column.
fn fault_in(columns: &[ColumnSheet], number: u32, value: &Value<'_>) -> Option<ErrorStatus>
    ensures { result ≡ value_fault (kind_in (columns_of columns.now) number) (val_of value.now) }
{
    match column_in(columns, number) {
        None => Some(ErrorStatus::NotWritable),
        Some(column) => kind_fault(&column.kind, value),
    }
}

// Whether the column with a number may be set while its row is valid too.
fn always_in(columns: &[ColumnSheet], number: u32) -> bool
    ensures { result ≡ option_map_or (λ c. c.always) (find (λ c. nat_eq c.number number) (columns_of columns.now)) false }
{
    match column_in(columns, number) {
        None => false,
        Some(column) => is_always(column.settable),
    }
}

// The column with that number, if there is one.
fn column_in(columns: &[ColumnSheet], number: u32) -> Option<&ColumnSheet>
    ensures { option_map column_of (option_copied result) ≡ find (λ c. nat_eq c.number number) (columns_of columns.now) }
{
    found_in(columns, number)
}

fn found_in(columns: &[ColumnSheet], number: u32) -> Option<&ColumnSheet>
    ensures { option_copied result ≡ find (λ c. nat_eq c.number number) columns.now }
{
    columns.iter().find(|column| column.number == number)
}

// What is wrong with a value for a column of that kind.
fn kind_fault(kind: &ColumnKind, value: &Value<'_>) -> Option<ErrorStatus>
    ensures { result ≡ value_fault (Some (kind_of kind.now)) (val_of value.now) }
{
    match kind {
        ColumnKind::Number(span) => number_fault(value, span.least, span.greatest),
        ColumnKind::Either(low, high) => either_fault(value, *low, *high),
        ColumnKind::Text(longest) => text_fault(value, *longest),
        ColumnKind::AnyName => name_fault(value),
        ColumnKind::Source => source_fault(value),
    }
}

fn either_fault(value: &Value<'_>, low: Span, high: Span) -> Option<ErrorStatus>
    ensures { result ≡ value_fault (Some (number (range_of low ∷ range_of high ∷ []))) (val_of value.now) }
{
    let Value::Int(number) = value else {
        return Some(ErrorStatus::WrongType);
    };
    if low.least <= *number && *number <= low.greatest {
        None
    } else if high.least <= *number && *number <= high.greatest {
        None
    } else {
        Some(ErrorStatus::WrongValue)
    }
}

fn name_fault(value: &Value<'_>) -> Option<ErrorStatus>
    ensures { result ≡ value_fault (Some any_name) (val_of value.now) }
{
    match value {
        Value::Name(_) => None,
        _ => Some(ErrorStatus::WrongType),
    }
}

// Whether a column may be set while its row is valid too.
fn is_always(settable: Settable) -> bool
    ensures { result ≡ is_always settable }
{
    match settable {
        Settable::Always => true,
        Settable::UnderCreation => false,
    }
}

// What a column shows until it is set.
fn setting_value(default: &Setting) -> Value<'static>
    ensures value { val_of result ≡ setting_value default.now }
    ensures spelling { HasSpelling (val_of result) }
{
    match default {
        Setting::Number(number) => Value::Int(*number),
        Setting::Empty => Value::Octets(&[]),
        Setting::NoName => Value::Name(Oid::from_slice(&[0, 0]).unwrap()),
        Setting::Interface(number) => Value::Name(interface_name(*number)),
    }
}
