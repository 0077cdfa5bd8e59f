// What rows count of a key, column by column.
ghost use Rattle.std.specs.Prelude.{◌≡◌, ◌%◌, ◌^◌, ℕ};
ghost use Rattle.rm_val.specs.Val.{val_of, counter};
ghost use Rattle.rm_val.specs.Spellable.{HasSpelling};
ghost use Rattle.rm_sourced.specs.Counters.{kept_count};

use rm_columns::counter_32;
use rm_evicting::Key;
use rm_keyed::{Counts, Keyed};
use rm_val::Value;

/// What the mentions of a key add up to, as columns of a table count it.
pub trait Counters: Counts {
    /// The counter in a column.
    ghost counter_in: { ℕ → Self → ℕ };

    /// The counter in a column.
    fn counter(&self, column: u32) -> u64
        ensures { result ≡ counter_in column self.now };
}

/// What a column counts of a key, as a Counter32; 0 where the key has no row.
pub fn counter_value<K: Key, C: Counters>(
    rows: &Keyed<K, C>,
    key: &K,
    column: u32,
) -> Value<'static>
    ensures value { val_of result ≡ counter (kept_count K.eq (C.counter_in column) rows.now.rows.rows key.now % 2 ^ 32) }
    ensures spelling { HasSpelling (val_of result) }
{
    let count = match rows.rows().get(key) {
        Some(counts) => counts.counter(column),
        None => 0,
    };
    Value::Counter(counter_32(count))
}
