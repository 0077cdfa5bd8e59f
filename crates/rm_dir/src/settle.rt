// What becomes of the rows after a Set was done to their columns.
ghost use Rattle.std.specs.Prelude.{◌≡◌, ℕ, ◌+◌, ◌^◌, ◌≤◌, nat_eq, nat_lt, ◌||◌, if◌then◌else◌};
ghost use Rattle.std.specs.Option.{option_map};
ghost use Rattle.rm_model.specs.Judgement.{count_below};
ghost use Rattle.rm_status.specs.Rows.{row_in};
ghost use Rattle.rm_status.specs.Change.{changed_row};
ghost use Rattle.rm_dir.specs.Settling.{is_fresh_in, is_changed_in, is_changed_row, settled};

use crate::row::DirectoryRow;
use rm_model::State;
use rm_status::{Change, Controls, MAX_ROWS};

/// The greatest local index: it is an INTEGER.
pub(crate) const MOST_LOCAL: u32 = 2147483647;

/// What settling the rows came to.
#[derive(Clone, Copy)]
pub(crate) struct Settled {
    /// The greatest local index that was given.
    pub given: u32,
    /// Whether a row was made, or a configuration was changed.
    pub changed: bool,
}

/// One row is settled, and has this local index if it has none yet.
#[derive(Clone, Copy)]
struct Settling {
    row: u32,
    local: u32,
}

impl Change<DirectoryRow> for Settling {
    ghost changed = { λ s index state columns. if nat_eq index s.row then settled s.local columns else columns };

    fn change(&self, index: u32, _state: State, columns: &mut DirectoryRow) {
        if index == self.row {
            if columns.local == 0 {
                columns.local = self.local;
            }
            columns.host_before = columns.host;
            columns.matrix_before = columns.matrix;
        }
    }
}

/// Gives the rows that a Set made their local indexes, the next ones in the order of the rows, and notes what it changed.
pub(crate) fn settle(rows: &mut Controls<DirectoryRow>, given: u32) -> Settled
    requires { given + count_below (is_fresh_in rows.old) (2 ^ 32) ≤ 2147483647 }
    ensures rows { (i : ℕ) → row_in rows.new i ≡ option_map (changed_row (λ index state row. settled (given + count_below (is_fresh_in rows.old) (index + 1)) row)) (row_in rows.old i) }
    ensures given { result.given ≡ given + count_below (is_fresh_in rows.old) (2 ^ 32) }
    ensures changed { result.changed ≡ nat_lt 0 (count_below (is_changed_in rows.old) (2 ^ 32)) }
{
    prove!(rows.len() <= MAX_ROWS);
    let mut so_far = Settled {
        given,
        changed: false,
    };
    let mut at = 0;
    while let Some(number) = rows.after(at) {
        so_far = with_row(so_far, rows, number);
        rows.change_each(&Settling {
            row: number,
            local: so_far.given,
        });
        at = number;
    }
    so_far
}

// What settling comes to with one more row.
fn with_row(so_far: Settled, rows: &Controls<DirectoryRow>, number: u32) -> Settled
    requires { so_far.given + (if is_fresh_in rows.now number then 1 else 0) ≤ 2147483647 }
    ensures given { result.given ≡ so_far.given + (if is_fresh_in rows.now number then 1 else 0) }
    ensures changed { result.changed ≡ (so_far.changed || is_changed_in rows.now number) }
{
    match rows.get(number) {
        None => so_far,
        Some(columns) => Settled {
            given: so_far.given + u32::from(columns.local == 0),
            changed: so_far.changed || is_changed(columns),
        },
    }
}

// Whether a row was made by the Set, or one of its configurations is another than before it.
fn is_changed(columns: &DirectoryRow) -> bool
    ensures { result ≡ is_changed_row columns.now }
{
    columns.local == 0
        || columns.host != columns.host_before
        || columns.matrix != columns.matrix_before
}
