// The value of a variable in one more group.
ghost use Rattle.std.specs.Prelude.{◌≡◌, ◌≤◌, IfSome};
ghost use Rattle.std.specs.Option.{option_map, option_or};
ghost use Rattle.rm_val.specs.Val.{val_of};
ghost use Rattle.rm_val.specs.Spellable.{HasSpelling};
ghost use Rattle.rm_model.specs.Counting.{Counting};
ghost use Rattle.rm_model.specs.Journal.{Journal, last_moment};

use crate::group::Group;
use rm_val::{Oid, Value};

/// The value of the variable with that name, by what was found in other groups and by one more group: what was found, or else what that
/// group has (`Group::cell`). The group isn't asked where something was found. None where it has no such variable either.
pub fn cell_in<'a, G: Group>(
    found: Option<Value<'a>>,
    group: &'a G,
    name: &Oid,
    now: u32,
) -> Option<Value<'a>>
    ensures value { (settings : Counting) (journal : Journal) → G.stands group.now settings journal → last_moment journal ≤ now
        → G.askable group.now now → option_map val_of result ≡ option_or (option_map val_of found.entry) (G.cells settings journal now name.now) }
    ensures spelling { IfSome found.entry (λ value. HasSpelling (val_of value)) → IfSome result (λ value. HasSpelling (val_of value)) }
{
    match found {
        Some(value) => Some(value),
        None => group.cell(name, now),
    }
}
