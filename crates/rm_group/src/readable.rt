// Groups whose variables alarms may sample.
ghost use Rattle.std.specs.Prelude.{◌≡◌, ℕ, ◌≤◌, List, Option, false, refl};
ghost use Rattle.std.specs.Option.{option_map, option_or};
ghost use Rattle.rm_val.specs.Val.{val_of};
ghost use Rattle.rm_model.specs.Counting.{Counting};
ghost use Rattle.rm_model.specs.Journal.{Journal, last_moment};
ghost use Rattle.rm_model.specs.Cells.{Cells, cells_of};
ghost use Rattle.rm_acts.specs.Recurring.{ReadBefore};
ghost use Rattle.rm_acts.proofs.ShownLaws.{both_before};
ghost use Rattle.rm_acts.specs.Recurring.{reading_of};
ghost use Rattle.rm_group.specs.System.{system_table};

use crate::beside::Beside;
use crate::both::Both;
use crate::group::Group;
use crate::look::Look;
use crate::stores::Stores;
use crate::system::{System, scalar};
use rm_model::Reading;
use rm_val::{Oid, Value};

/// A group whose variables alarms may sample: its cells follow from what it keeps.
pub trait Readable: Group {
    /// Those of the group's cells that alarms may sample, after a journal and at a moment in milliseconds, by what the probe was set
    /// to.
    ghost sampleable: { Counting → Journal → ℕ → Cells };

    /// The same at a moment in milliseconds, by what the group keeps.
    ghost shown: { Self → ℕ → Cells };

    /// The value of the variable with that name at a moment in milliseconds. None where the group has no such variable that alarms
    /// may sample.
    fn value(&self, name: &Oid, now: u32) -> Option<Value<'_>>
        ensures { option_map val_of result ≡ shown self.now now name.now };

    /// A law: what it shows at a moment, in milliseconds, at which it may be asked, is its cells after each journal that it
    /// stands for, whose last act isn't later. It does nothing.
    fn shows(&self, now: u32)
        ensures { (settings : Counting) (journal : Journal) → Self.Group.stands self.now settings journal → last_moment journal ≤ now
            → Self.Group.askable self.now now → (name : List ℕ) → shown self.now now name ≡ sampleable settings journal now name };

    /// They depend on what alarms read after earlier acts only.
    ghost recurring: { ReadBefore sampleable };
}

impl Readable for System {
    ghost sampleable = { λ settings journal now. cells_of (system_table now) };

    ghost shown = { λ s now. cells_of (system_table now) };

    fn value(&self, name: &Oid, now: u32) -> Option<Value<'_>> {
        scalar(name, now)
    }

    fn shows(&self, _now: u32) {}

    ghost recurring = { λ settings one other journal alike now name. refl };
}

impl<G: Readable + Stores, H: Readable + Beside<G>> Readable for Both<G, H> {
    ghost sampleable = { λ settings journal now name. option_or (G.sampleable settings journal now name) (H.sampleable settings journal now name) };

    ghost shown = { λ s now name. option_or (G.shown s.first now name) (H.shown s.second now name) };

    fn value(&self, name: &Oid, now: u32) -> Option<Value<'_>> {
        match self.first.value(name, now) {
            Some(value) => Some(value),
            None => self.second.value(name, now),
        }
    }

    fn shows(&self, now: u32) {
        self.first.shows(now);
        self.second.shows(now);
    }

    ghost recurring = { both_before G.sampleable H.sampleable G.recurring H.recurring };
}

/// What a variable with that value reads, or without one: its number where it is an INTEGER, a Counter32, a Gauge32 or
/// TimeTicks. None where there is no value, or one of another type.
pub fn reading_of(value: Option<Value<'_>>) -> Option<Reading>
    ensures { result ≡ reading_of (option_map val_of value.entry) }
{
    match value? {
        Value::Int(number) => Some(gauged(i64::from(number))),
        Value::Counter(number) => Some(Reading {
            value: i64::from(number),
            counter: true,
        }),
        Value::Gauge(number) | Value::Ticks(number) => Some(gauged(i64::from(number))),
        _ => None,
    }
}

// A reading that is no Counter32's.
fn gauged(value: i64) -> Reading
    ensures { result ≡ record { value = value; counter = false } }
{
    Reading {
        value,
        counter: false,
    }
}

/// What alarms may sample of a group.
#[derive(Drop)]
pub struct Sight<'a, G> {
    /// The group.
    pub group: &'a G,
}

impl<G: Readable> Look for Sight<'_, G> {
    ghost readings = { λ look now name. reading_of (G.shown look.group.now now name) };

    fn reading(&self, name: &Oid, now: u32) -> Option<Reading> {
        reading_of(self.group.value(name, now))
    }
}
