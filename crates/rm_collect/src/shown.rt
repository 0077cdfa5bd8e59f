// What the tables show by what is held.
ghost use Rattle.std.specs.Prelude.{◌≡◌, IfSome, OnSome, IfNone};
ghost use Rattle.std.specs.Option.{option_map};
ghost use Rattle.rm_val.specs.Val.{val_of};
ghost use Rattle.rm_val.specs.Spellable.{IsSpellable, HasSpelling};
ghost use Rattle.rm_model.specs.Cells.{IsNext};
ghost use Rattle.rm_status.specs.Rows.{AreControlRows};
ghost use Rattle.rm_collect.specs.Collection.{control_kept, kept, sampled};

use crate::collected::Collected;
use crate::collecting::Collecting;
use crate::sampled_tables::SampledTables;
use rm_group::{choose_nearer, is_under};
use rm_pool::Pool;
use rm_status::{OtherColumns, Row};
use rm_val::{Oid, Value};

// What the columns of the control table show that can't be set, by what its rows have collected.
#[derive(Drop)]
struct Others<'a, P> {
    parts: &'a Pool<P>,
}

impl<P: Collected> OtherColumns<P::Columns> for Others<'_, P> {
    ghost others = { λ s rows. P.collection.others rows s.parts.now };

    fn other(&self, index: u32, row: &Row<P::Columns>, column: u32) -> Value<'static> {
        P::other(self.parts, index, row, column)
    }
}

impl<P: Collected> Collecting<P> {
    /// What the tables show under a name, at a moment in milliseconds. None where they show nothing.
    pub(crate) fn shown_at(&self, name: &Oid, now: u32) -> Option<Value<'_>>
        ensures value { option_map val_of result ≡ kept P.Columns.form P.collection self.now.rows self.now.parts now name.now }
        ensures spelling { IfSome result (λ value. HasSpelling (val_of value)) }
        ensures rows { AreControlRows P.Columns.form.table self.now.rows }
    {
        prove!(self.table.rows.len() <= 32);
        match self.control_at(name) {
            Some(value) => Some(value),
            None => P::inner_cell(&self.table.rows, &self.parts, name, now),
        }
    }

    /// What the tables that alarms may sample show under a name, at a moment in milliseconds. None where they show nothing.
    pub(crate) fn sampled_at(&self, name: &Oid, now: u32) -> Option<Value<'_>>
        ensures { option_map val_of result ≡ sampled P.Columns.form P.collection self.now.rows self.now.parts now name.now }
    {
        match P::sampled_tables() {
            SampledTables::AllTables => self.shown_at(name, now),
            SampledTables::ControlTable => self.control_at(name),
            SampledTables::NoTable => None,
        }
    }

    // What the control table shows under a name. None where it shows nothing.
    fn control_at(&self, name: &Oid) -> Option<Value<'_>>
        ensures value { option_map val_of result ≡ control_kept P.Columns.form P.collection self.now.rows self.now.parts name.now }
        ensures spelling { IfSome result (λ value. HasSpelling (val_of value)) }
    {
        prove!(self.table.rows.len() <= 32);
        let parts = &self.parts;
        self.table.rows.cell(&Others { parts }, name)
    }

    /// What the tables show under the least name above one, at a moment in milliseconds. That name is put into `out`. None where they show
    /// nothing above it; `out` is then as before.
    pub(crate) fn shown_after(&self, name: &Oid, now: u32, out: &mut Oid) -> Option<Value<'_>>
        ensures next { IsNext (kept P.Columns.form P.collection self.now.rows self.now.parts now) name.now (option_map val_of result) out.new }
        ensures stays { IfNone result (out.new ≡ out.old) }
        ensures name_spelling { OnSome result (IsSpellable out.new) }
        ensures spelling { IfSome result (λ value. HasSpelling (val_of value)) }
        ensures rows { AreControlRows P.Columns.form.table self.now.rows }
    {
        prove!(self.table.rows.len() <= 32);
        let parts = &self.parts;
        let nearer = self.table.rows.next_cell(&Others { parts }, name, out);
        // No cell of the other tables has a name below the least one.
        if nearer.is_some() && is_under(out, P::inner_least()) {
            return nearer;
        }
        let mut other = Oid::new();
        let inner = P::inner_after(&self.table.rows, parts, name, now, &mut other);
        choose_nearer(nearer, out, inner, other)
    }
}
