// The interfaces, as data sources name them.
ghost use Rattle.std.specs.Prelude.{◌≡◌, ℕ, ◌≤◌, ◌↔◌, IsTrue};
ghost use Rattle.rm_val.specs.Val.{val_of};
ghost use Rattle.rm_model.specs.Interfaces.{interface_name, is_interface};

use rm_model::INTERFACES;
use rm_val::{Oid, Value};

/// The name of ifIndex of an interface (RFC 1213), by which a data source names it.
pub fn interface_name(number: u32) -> Oid
    ensures { result ≡ interface_name number }
{
    Oid::from_slice(&[1, 3, 6, 1, 2, 1, 2, 2, 1, 1, number]).unwrap()
}

/// The number of the interface that a data source names: k where the value is the name ifIndex.k of one of the
/// probe's interfaces. None for every other value.
pub fn source(value: &Value<'_>) -> Option<u32>
    ensures { (k : ℕ) → (result ≡ Some k) ↔ (IsTrue (is_interface (val_of value.now) k) × (1 ≤ k) × (k ≤ INTERFACES)) }
{
    let Value::Name(name) = value else {
        return None;
    };
    for number in 1..=INTERFACES {
        if name.compare(&interface_name(number)).is_eq() {
            return Some(number);
        }
    }
    None
}
