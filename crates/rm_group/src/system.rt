// The system group.
ghost use Rattle.std.specs.Prelude.{◌≡◌, [], ◌∷◌, false, None, IfSome};
ghost use Rattle.std.specs.Option.{option_map};
ghost use Rattle.rm_val.specs.Val.{val_of};
ghost use Rattle.rm_val.specs.Spellable.{HasSpelling};
ghost use Rattle.rm_model.specs.Cells.{cells_of, is_of_column};
ghost use Rattle.rm_model.proofs.Finite.{one_row_finite};
ghost use Rattle.rm_group.specs.Alone.{read_only};
ghost use Rattle.rm_group.specs.Listed.{of_table, read_only_listed};
ghost use Rattle.rm_group.specs.System.{system_entry, system_columns, system_tables, system_table};

use crate::assigns::Assigns;
use crate::commits::Commits;
use crate::group::Group;
use crate::instance::instance_of;
use crate::look::Look;
use crate::objects::{TableObjects, Tables};
use crate::one_row::OneRow;
use crate::read_only::judge_read_only;
use crate::search::next_name;
use crate::stores::Storeless;
use rm_model::Verdict;
use rm_val::{Oid, Value};

/// The group's objects: sysDescr and sysUpTime.
const OBJECTS: TableObjects = TableObjects {
    entry: &[1, 3, 6, 1, 2, 1, 1],
    columns: &[SYS_DESCR, SYS_UP_TIME],
};

const SYS_DESCR: u32 = 1;

const SYS_UP_TIME: u32 = 3;

/// The row of the scalars.
const SCALARS: OneRow = OneRow { number: 0 };

/// The system group (RFC 1213), of which sysDescr.0 and sysUpTime.0 are answered. It stands for every journal. None of its
/// objects is writable.
#[derive(Clone, Copy)]
pub struct System;

impl Group for System {
    ghost stands = { λ s settings journal. Unit {0} };

    ghost clock = { λ s. 0 };

    ghost askable = { λ s moment. Unit {0} };

    ghost frames = { λ s. 0 };

    ghost cells = { λ settings journal now. cells_of (system_table now) };

    ghost alone = { read_only (is_of_column system_entry system_columns) };

    ghost together = { λ settings journal now readings bindings place. None };

    ghost accepts = { λ s now bindings. Unit {0} };

    ghost finite = { λ settings journal now. one_row_finite (system_table now) (0 ∷ []) (λ index row. row) };

    fn least() -> &'static [u32] {
        OBJECTS.entry
    }

    fn cell(&self, name: &Oid, now: u32) -> Option<Value<'_>> {
        scalar(name, now)
    }

    fn after(&self, name: &Oid, now: u32, out: &mut Oid) -> Option<Value<'_>> {
        *out = next_name(&SCALARS, &identifier(), OBJECTS.columns, name, now)?;
        scalar(out, now)
    }

    fn judge_alone<A: Assigns>(&self, set: &A) -> Verdict {
        judge_read_only(set, &identifier(), OBJECTS.columns)
    }

    fn judge_rows<A: Assigns, L: Look>(&self, _set: &A, _now: u32, _look: &L) -> Verdict {
        Verdict::Fine
    }
}

impl Storeless for System {}

impl Commits for System {
    fn commit<A: Assigns>(&mut self, _set: &A, _now: u32) {}
}

impl Tables for System {
    ghost tables = { system_tables };

    ghost can_be_set = { λ name. false };

    fn tables() -> &'static [TableObjects] {
        &[OBJECTS]
    }

    ghost shows_listed = { λ settings journal now. of_table (system_table now) };

    ghost refuses_listed = { read_only_listed (record { entry = system_entry; columns = system_columns }) };
}

/// The value of the scalar with that name at a moment in milliseconds. None where the group has no such scalar.
pub(crate) fn scalar(name: &Oid, now: u32) -> Option<Value<'static>>
    ensures value { option_map val_of result ≡ cells_of (system_table now) name.now }
    ensures spelling { IfSome result (λ value. HasSpelling (val_of value)) }
{
    let at = instance_of(name, &identifier(), OBJECTS.columns)?;
    if !SCALARS.has(&at.index) {
        return None;
    }
    match at.column {
        SYS_DESCR => Some(Value::Octets(b"RMON probe")),
        _ => Some(Value::Ticks(now / 10)),
    }
}

/// The identifier of the group.
fn identifier() -> Oid
    ensures { result ≡ system_entry }
{
    Oid::from_slice(OBJECTS.entry).unwrap()
}
