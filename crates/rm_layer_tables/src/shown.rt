// What rows show, and what the control table counts of them.
ghost use Rattle.std.specs.Prelude.{◌≡◌, ◌%◌, ◌^◌, if◌then◌else◌, IfSome};
ghost use Rattle.std.specs.Option.{option_map};
ghost use Rattle.rm_val.specs.Val.{val_of, ticks, gauge};
ghost use Rattle.rm_val.specs.Spellable.{HasSpelling};
ghost use Rattle.rm_layer_tables.specs.Held.{is_up};
ghost use Rattle.rm_layer_tables.specs.Kept.{kept_counter};
ghost use Rattle.rm_layer_tables.specs.Shown.{column_of, up_to_tick};

use crate::layer_view::LayerView;
use rm_columns::counter_32;
use rm_evicting::Key;
use rm_upper::{Counted, Counts, LayerCounts, LayerTable};
use rm_val::Value;

/// What a column of the control table shows of the rows of an active control row, where it can't be set: how many were entered, and how
/// many of these are gone, of network rows and of application rows. No frame is dropped. Columns 8 and 9 are those of application rows;
/// column 9 costs some 32 steps for each network row.
pub fn control_counter<K: Key, N: LayerCounts>(table: &LayerTable<K, N>, column: u32) -> u32
    ensures { result ≡ kept_counter K.eq table.now column % 2 ^ 32 }
{
    counter_32(count_in(table, column))
}

// The counter in a column of the control table.
fn count_in<K: Key, N: LayerCounts>(table: &LayerTable<K, N>, column: u32) -> u64
    ensures { result ≡ kept_counter K.eq table.now column }
{
    let rows = table.rows();
    match column {
        4 => rows.network_inserts(),
        5 => rows.network_deletes(),
        8 => rows.application_inserts(),
        9 => rows.application_deletes(),
        _ => 0,
    }
}

/// Whether the tables have rows at a moment in milliseconds: once sysUpTime isn't 0 any more (RFC 2021, TimeFilter).
pub(crate) fn is_up(now: u32) -> bool
    ensures { result ≡ is_up now }
{
    0 < now / 10
}

/// What a column shows of a network row at a mark, where there is one: the row stands at each mark up to the tick of its last contribution
/// (RFC 2021, TimeFilter). Whether the table has rows at all at a moment is what `is_up` says.
pub(crate) fn network_shown<V: LayerView>(
    counted: Option<Counted<V::Counts>>,
    mark: u32,
    column: u32,
) -> Option<Value<'static>>
    ensures value { option_map val_of result ≡ up_to_tick (column_of V.networks V.networks.count) mark counted column }
    ensures spelling { IfSome result (λ value. HasSpelling (val_of value)) }
{
    let row = counted?;
    if row.tick < mark {
        return None;
    }
    let is_created = column == V::networks().created;
    Some(shown(is_created, row.created, V::network_count(column, &row.sums)))
}

/// The same of an application row.
pub(crate) fn application_shown<V: LayerView>(
    counted: Option<Counted<<V::Counts as Counts>::Application>>,
    mark: u32,
    column: u32,
) -> Option<Value<'static>>
    ensures value { option_map val_of result ≡ up_to_tick (column_of V.applications V.application_count) mark counted column }
    ensures spelling { IfSome result (λ value. HasSpelling (val_of value)) }
{
    let row = counted?;
    if row.tick < mark {
        return None;
    }
    let is_created = column == V::applications().created;
    Some(shown(
        is_created,
        row.created,
        V::application_count(column, &row.sums),
    ))
}

// The time of creation, in hundredths of a second, or a count.
fn shown(is_created: bool, created: u32, count: u64) -> Value<'static>
    ensures value { val_of result ≡ (if is_created then ticks created else gauge (count % 2 ^ 32)) }
    ensures spelling { HasSpelling (val_of result) }
{
    if is_created {
        Value::Ticks(created)
    } else {
        Value::Gauge(counter_32(count))
    }
}
