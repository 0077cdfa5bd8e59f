// What comes next in two groups or tables.
ghost use Rattle.std.specs.Prelude.{◌≡◌, ℕ, ◌≤◌, List, IfSome, OnSome, IfNone};
ghost use Rattle.std.specs.Option.{option_map, option_or};
ghost use Rattle.rm_val.specs.Val.{val_of};
ghost use Rattle.rm_val.specs.Spellable.{IsSpellable, HasSpelling};
ghost use Rattle.rm_model.specs.Cells.{Cells, IsNext};
ghost use Rattle.rm_model.specs.Counting.{Counting};
ghost use Rattle.rm_model.specs.Journal.{Journal, last_moment};

use crate::group::Group;
use crate::least::is_under;
use rm_val::{Oid, Value};

/// What comes next in two groups or tables, by what comes next in each: a value, whose name is `out` or `other`, or
/// None. It is the value with the lesser name, the first one where both have it, and `out` becomes its name. None where
/// both are; `out` is then as before.
pub fn choose_nearer<'a>(
    value: Option<Value<'a>>,
    out: &mut Oid,
    other_value: Option<Value<'a>>,
    other: Oid,
) -> Option<Value<'a>>
    ensures next { (cells other_cells : Cells) (asked : List ℕ) → IsNext cells asked (option_map val_of value.entry) out.old
        → IsNext other_cells asked (option_map val_of other_value.entry) other
        → IsNext (λ name. option_or (cells name) (other_cells name)) asked (option_map val_of result) out.new }
    ensures neither { IfNone result ((value.entry ≡ None) × (other_value.entry ≡ None)) }
    ensures stays { IfNone result (out.new ≡ out.old) }
    ensures name_spelling { OnSome value.entry (IsSpellable out.old) → OnSome other_value.entry (IsSpellable other) → OnSome result (IsSpellable out.new) }
    ensures spelling { IfSome value.entry (λ v. HasSpelling (val_of v)) → IfSome other_value.entry (λ v. HasSpelling (val_of v)) → IfSome result (λ v. HasSpelling (val_of v)) }
{
    match (value, other_value) {
        (Some(value), Some(nearer)) => {
            if out.compare(&other).is_gt() {
                *out = other;
                Some(nearer)
            } else {
                Some(value)
            }
        }
        (None, Some(value)) => {
            *out = other;
            Some(value)
        }
        (value, None) => value,
    }
}

/// What comes next after a name, by what was found in other groups, whose name is `out` then, and by what comes next in one more group: the
/// value with the lesser name, what was found where both have that. `out` becomes its name. The group isn't asked where it begins behind
/// what was found. None where neither has a greater name; `out` is then as before.
pub fn nearer_in<'a, G: Group>(
    found: Option<Value<'a>>,
    group: &'a G,
    name: &Oid,
    now: u32,
    out: &mut Oid,
) -> Option<Value<'a>>
    ensures next { (cells : Cells) (settings : Counting) (journal : Journal) → IsNext cells name.now (option_map val_of found.entry) out.old
        → G.stands group.now settings journal → last_moment journal ≤ now → G.askable group.now now
        → IsNext (λ asked. option_or (cells asked) (G.cells settings journal now asked)) name.now (option_map val_of result) out.new }
    ensures neither { IfNone result (found.entry ≡ None) }
    ensures stays { IfNone result (out.new ≡ out.old) }
    ensures name_spelling { OnSome found.entry (IsSpellable out.old) → OnSome result (IsSpellable out.new) }
    ensures spelling { IfSome found.entry (λ value. HasSpelling (val_of value)) → IfSome result (λ value. HasSpelling (val_of value)) }
{
    let Some(value) = found else {
        return group.after(name, now, out);
    };
    if is_under(out, G::least()) {
        return Some(value);
    }
    let mut other = Oid::new();
    let other_value = group.after(name, now, &mut other);
    choose_nearer(Some(value), out, other_value, other)
}
