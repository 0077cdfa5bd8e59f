// What a Set gives to a variable.
ghost use Rattle.std.specs.Prelude.{◌≡◌};
ghost use Rattle.std.specs.Option.{option_map};
ghost use Rattle.rm_acts.specs.Alarms.{name_of};
ghost use Rattle.rm_model.specs.Journal.{value_given};

use rm_columns::name_in;
use rm_group::Assigns;
use rm_val::Oid;

/// The name that a Set gives to a variable by its first binding of it, if it gives it a value: the empty one where that is
/// no name.
pub(crate) fn name_given<A: Assigns>(set: &A, variable: &Oid) -> Option<Oid>
    ensures { result ≡ option_map name_of (value_given (A.bindings set.now) variable.now) }
{
    for place in 0..set.count() {
        let name = set.name(place);
        if name.compare(variable).is_eq() {
            return Some(name_in(&set.value(place)));
        }
    }
    None
}
