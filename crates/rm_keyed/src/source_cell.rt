// What the columns show of a control row that asks for what frames of a data source enter.
ghost use Rattle.std.specs.Prelude.{◌≡◌, ◌≤◌};
ghost use Rattle.std.specs.Option.{option_copied};
ghost use Rattle.rm_val.specs.Val.{val_of};
ghost use Rattle.rm_val.specs.Spellable.{HasSpelling};
ghost use Rattle.rm_keyed.specs.declared.keyed.TheConstants.{MOST_ROWS};
ghost use Rattle.rm_keyed.specs.SourceControl.{source_value, size_in, deleted_in};

use crate::counts::Counts;
use crate::keyed::{Keyed, MOST_ROWS};
use rm_evicting::Key;
use rm_val::Value;

/// What the columns show that can't be set, the index left out, by the rows that a control row holds: how many they are, and when one last
/// gave way to another, in hundredths of a second. A control row that isn't valid holds none, and shows 0.
pub fn source_value<K: Key, C: Counts>(rows: Option<&Keyed<K, C>>, column: u32) -> Value<'static>
    ensures value { val_of result ≡ source_value (option_copied rows.entry) column }
    ensures spelling { HasSpelling (val_of result) }
{
    if column == 3 {
        Value::Int(size_of(rows) as i32)
    } else {
        Value::Ticks(deleted_at(rows))
    }
}

// How many rows there are.
fn size_of<K: Key, C: Counts>(rows: Option<&Keyed<K, C>>) -> usize
    ensures value { result ≡ size_in (option_copied rows.entry) }
    ensures most { result ≤ MOST_ROWS }
{
    match rows {
        Some(rows) => rows.rows().len(),
        None => 0,
    }
}

// When one last gave way.
fn deleted_at<K: Key, C: Counts>(rows: Option<&Keyed<K, C>>) -> u32
    ensures { result ≡ deleted_in (option_copied rows.entry) }
{
    match rows {
        Some(rows) => rows.last_delete(),
        None => 0,
    }
}
