// The directory of protocols.
ghost use Rattle.std.specs.Prelude.{◌≡◌, ◌≤◌, ◌||◌, ◌/◌, [], ◌∷◌, if◌then◌else◌, IfSome, IfNone, OnSome, Some, None};
ghost use Rattle.std.specs.Option.{option_map};
ghost use Rattle.std.specs.Str.{bytes_eq};
ghost use Rattle.rm_val.specs.Val.{val_of, ticks};
ghost use Rattle.rm_val.specs.Spellable.{IsSpellable, HasSpelling};
ghost use Rattle.rm_model.specs.Cells.{cells_of, IsNext};
ghost use Rattle.rm_path.specs.Slots.{HaveSlots};
ghost use Rattle.rm_dir.specs.ProtocolDir.{change_entry};
ghost use Rattle.rm_dir.specs.Shown.{kept_change};
ghost use Rattle.rm_dir.specs.Kept.{AreNumbered, AreNoted};
ghost use Rattle.rm_dir.specs.Paths.{AreOfRows, DoStay};

use crate::built_in::built_in_rows;
use crate::cell::Others;
use crate::first_rows::insert_all;
use crate::locals::judge_locals;
use crate::row::DirectoryRow;
use crate::settle::settle;
use crate::slots::follow;
use rm_group::{
    Assigns, OneRow, TableObjects, choose_nearer, instance_of, judge_read_only, lower_verdict,
    next_name,
};
use rm_model::Verdict;
use rm_path::Protocols;
use rm_status::{Controls, MAX_ROWS};
use rm_val::{Oid, Value};

/// The scalars of the group: protocolDirLastChange.
pub(crate) const CHANGE_OBJECTS: TableObjects = TableObjects {
    entry: &[1, 3, 6, 1, 2, 1, 16, 11],
    columns: &[1],
};

/// The row of the scalars.
const SCALARS: OneRow = OneRow { number: 0 };

/// The directory of protocols: protocolDirTable and protocolDirLastChange (RFC 2021, section 6).
#[derive(Drop)]
pub struct Directory {
    rows: Controls<DirectoryRow>,
    // The greatest local index that was given.
    given: u32,
    // The moment of the last change of a row, in milliseconds.
    changed: u32,
    // The protocols whose rows are active.
    pub(crate) protocols: Protocols,
    ghost numbered: { AreNumbered rows },
    ghost noted: { AreNoted rows },
    ghost few: { given ≤ 2147483647 },
    ghost active: { AreOfRows rows protocols },
    ghost apart: { HaveSlots protocols },
}

impl Directory {
    ghost use Rattle.std.specs.Prelude.{ℕ, List, [], ◌∷◌, ◌+◌, length};
    ghost use Rattle.rm_model.specs.Journal.{Assignments, Journal, assigns, value_given};
    ghost use Rattle.rm_model.specs.Judgement.{IsFirstFault};
    ghost use Rattle.rm_model.specs.declared.verdict.Verdict.TheVariants.{Fine};
    ghost use Rattle.rm_dir.specs.Tables.{directory_cells};
    ghost use Rattle.rm_dir.specs.Group.{Stands, AreFine};
    ghost use Rattle.rm_dir.specs.Judging.{directory_alone, directory_together};
    ghost use Rattle.rm_group.specs.Alone.{alone_at, AreFineAlone, IsWithin};

    /// The directory before the first act, with the rows that it has from the beginning.
    pub fn new() -> Directory
        ensures { Stands result [] }
    {
        let first = built_in_rows();
        let mut rows = Controls::new();
        insert_all(&mut rows, first);
        let mut protocols = Protocols::new();
        follow(&mut protocols, &rows);
        Directory {
            rows,
            given: first.len() as u32,
            changed: 0,
            protocols,
        }
    }

    /// The value of the cell with that name, in protocolDirTable or of protocolDirLastChange. None where there is no such cell.
    pub(crate) fn shown_at(&self, name: &Oid) -> Option<Value<'_>>
        ensures value { (journal : Journal) → Stands self.now journal → option_map val_of result ≡ directory_cells journal name.now }
        ensures spelling { IfSome result (λ value. HasSpelling (val_of value)) }
    {
        match self.rows.cell(&Others, name) {
            Some(value) => Some(value),
            None => last_change_at(name, self.changed),
        }
    }

    /// The value of the cell with the least name above that one (RFC 1905, section 4.2.2). Its name is put into `out`. None where no cell
    /// has a greater name; `out` is then as before.
    pub(crate) fn shown_after(&self, name: &Oid, out: &mut Oid) -> Option<Value<'_>>
        ensures next { (journal : Journal) → Stands self.now journal → IsNext (directory_cells journal) name.now (option_map val_of result) out.new }
        ensures stays { IfNone result (out.new ≡ out.old) }
        ensures name_spelling { OnSome result (IsSpellable out.new) }
        ensures spelling { IfSome result (λ value. HasSpelling (val_of value)) }
    {
        let row = self.rows.next_cell(&Others, name, out);
        let mut other = Oid::new();
        let scalar = last_change_after(name, self.changed, &mut other);
        choose_nearer(row, out, scalar, other)
    }

    /// Its rows.
    pub fn rows(&self) -> &Controls<DirectoryRow>
        ensures { result.now ≡ self.now.rows }
    {
        &self.rows
    }

    /// The moment of the last change, in milliseconds: a row was made or removed, or one of its configurations was changed
    /// (protocolDirLastChange). 0 before the first.
    pub fn last_change(&self) -> u32
        ensures { result ≡ self.now.changed }
    {
        self.changed
    }

    /// The first pass of a Set: each binding alone, of either table.
    pub(crate) fn judge_bindings<A: Assigns>(&self, set: &A) -> Verdict
        ensures { let bindings = A.bindings set.now in IsFirstFault (length bindings) (alone_at directory_alone bindings) result }
    {
        let rows = self.rows.judge_alone(set);
        let scalars = judge_read_only(set, &change_entry(), CHANGE_OBJECTS.columns);
        lower_verdict(rows, scalars)
    }

    /// The second pass of a Set of which the first found nothing wrong: the bindings of each row together, by what the rows are now.
    /// Where a local index of a row that it makes would be above 2147483647, each binding of each row that it makes is wrong.
    pub(crate) fn judge_together<A: Assigns>(&self, set: &A) -> Verdict
        requires { AreFineAlone directory_alone (A.bindings set.now) }
        ensures accepted { result ≡ Fine → AreFine self.now (A.bindings set.now) }
        ensures verdict { let bindings = A.bindings set.now in (journal : Journal) → Stands self.now journal → IsFirstFault (length bindings) (directory_together journal bindings) result }
        ensures within { IsWithin (length (A.bindings set.now)) result }
    {
        let locals = judge_locals(&self.rows, self.given, set);
        let rows = self.rows.judge_rows(set);
        lower_verdict(locals, rows)
    }

    /// Does a Set with which both passes found nothing wrong, at a moment in milliseconds. There is a local index for each row that
    /// it makes.
    pub(crate) fn assign<A: Assigns>(&mut self, set: &A, now: u32)
        requires { AreFine self.old (A.bindings set.now) }
        ensures stands { (journal : Journal) (values : Assignments) → Stands self.old journal
            → ((name : List ℕ) → value_given values name ≡ value_given (A.bindings set.now) name)
            → Stands self.new (assigns now values ∷ journal) }
        ensures stay { DoStay self.new.rows self.old.protocols self.new.protocols }
    {
        let before = self.rows.len();
        self.rows.commit(set);
        prove!(self.rows.len() <= MAX_ROWS);
        let settled = settle(&mut self.rows, self.given);
        follow(&mut self.protocols, &self.rows);
        let made = (settled.given - self.given) as usize;
        let after = self.rows.len();
        self.changed = change_of(settled.changed, after < before + made, now, self.changed);
        self.given = settled.given;
    }
}

// The moment of the last change: now, where rows were made or changed or some went, and else as before.
fn change_of(changed: bool, removed: bool, now: u32, before: u32) -> u32
    ensures { result ≡ (if changed || removed then now else before) }
{
    if changed || removed { now } else { before }
}

// The value of the cell of protocolDirLastChange with that name, by the moment of the last change. None for any other name.
fn last_change_at(name: &Oid, changed: u32) -> Option<Value<'static>>
    ensures value { option_map val_of result ≡ cells_of (kept_change changed) name.now }
    ensures spelling { IfSome result (λ value. HasSpelling (val_of value)) }
{
    match instance_of(name, &change_entry(), CHANGE_OBJECTS.columns) {
        None => None,
        Some(at) => scalar_at(&at.index, changed),
    }
}

// The value of the cell of protocolDirLastChange, where its name is above that one. Its name is put into `out`.
fn last_change_after(name: &Oid, changed: u32, out: &mut Oid) -> Option<Value<'static>>
    ensures next { IsNext (cells_of (kept_change changed)) name.now (option_map val_of result) out.new }
    ensures stays { IfNone result (out.new ≡ out.old) }
    ensures name_spelling { OnSome result (IsSpellable out.new) }
    ensures spelling { IfSome result (λ value. HasSpelling (val_of value)) }
{
    *out = next_name(&SCALARS, &change_entry(), CHANGE_OBJECTS.columns, name, 0)?;
    last_change_at(out, changed)
}

// The value of the scalar with that index.
fn scalar_at(index: &Oid, changed: u32) -> Option<Value<'static>>
    ensures value { option_map val_of result ≡ (if bytes_eq index.now (0 ∷ []) then Some (ticks (changed / 10)) else None) }
    ensures spelling { IfSome result (λ value. HasSpelling (val_of value)) }
{
    if SCALARS.has(index) {
        Some(Value::Ticks(changed / 10))
    } else {
        None
    }
}

// The identifier of the group.
fn change_entry() -> Oid
    ensures { result ≡ change_entry }
{
    Oid::from_slice(CHANGE_OBJECTS.entry).unwrap()
}
