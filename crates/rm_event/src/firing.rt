// Events that fire.
ghost use Rattle.std.specs.Prelude.{◌≡◌, ℕ, List, [], ◌∷◌, ◌++◌, ◌≤◌, length, true, false, OnOk, IfSome, IfNone, Option, Some, nat_eq};
ghost use Rattle.std.specs.Option.{option_map};
ghost use Rattle.rm_val.specs.Val.{octets};
ghost use Rattle.rm_model.specs.Counting.{Counting};
ghost use Rattle.rm_model.specs.Journal.{Act, Journal, moment_of};
ghost use Rattle.rm_model.specs.ControlRows.{is_valid};
ghost use Rattle.rm_status.specs.Rows.{state_in, columns_in};
ghost use Rattle.rm_acts.specs.declared.firing.Firing.{Firing};
ghost use Rattle.rm_event.specs.declared.fired.Fired.TheVariants as FiredTo;
ghost use Rattle.rm_event.specs.declared.event_row.EventRow.{EventRow as Columns};
ghost use Rattle.rm_pool.specs.Slots.{part_in, has_part};
ghost use Rattle.rm_event.specs.declared.log.Log.{Log as Kept};
ghost use Rattle.rm_event.specs.Log.{HasFired};
ghost use Rattle.rm_event.specs.EventTable.{event_state, type_of};
ghost use Rattle.rm_acts.specs.Fired.{is_set};
ghost use Rattle.rm_event.specs.Group.{IsStocked, IsReleased};
ghost use Rattle.rm_event.specs.Standing.{HasRows, Stands, IsUnderWay, fired_of, community_of};

use crate::event_type::EventType;
use crate::events::Events;
use crate::fired::Fired;
use crate::log::Log;
use rm_model::State;
use rm_pool::Pool;
use rm_status::Controls;
use rm_val::NoMemory;
use std::alloc::Global;

impl Events {
    /// No events, and no storage.
    pub fn new() -> Events
        ensures stands { (settings : Counting) → Stands result settings [] }
        ensures released { IsReleased result }
    {
        Events {
            rows: Controls::new(),
            logs: Pool::new(),
        }
    }

    /// Takes the storage of one row. No variable changes. NoMemory where there is none for it.
    pub fn reserve(&mut self, alloc: Global) -> Result<(), NoMemory>
        ensures stocked { OnOk result (IsStocked self.new) }
        ensures stands { (settings : Counting) (journal : Journal) → Stands self.old settings journal → Stands self.new settings journal }
        ensures released { IsReleased self.old → IsReleased self.new }
    {
        self.logs.reserve(alloc)
    }

    /// Fires the event with that index at a moment, in milliseconds, and tells what became of it. Only an event with a valid row
    /// fires.
    pub fn fire(&mut self, index: u32, moment: u32) -> Fired
        ensures under_way { (settings : Counting) (act : Act) (earlier : Journal) (some : List Firing) (by_channel : Option ℕ) → is_set act ≡ false
            → moment_of act ≡ moment
            → IsUnderWay self.old settings act earlier some
            → IsUnderWay self.new settings act earlier (some ++ record { event = index; channel = by_channel } ∷ []) }
        ensures result { (journal : Journal) → HasRows self.old journal
            → result ≡ fired_of (event_state journal (index ∷ [])) (type_of journal index) }
        ensures absent { result ≡ FiredTo.Absent → self.new ≡ self.old }
        ensures stocked { IsStocked self.old → IsStocked self.new }
        ensures released { IsReleased self.old → IsReleased self.new }
    {
        match self.valid_type(index) {
            Some(event_type) => {
                fire_log(&mut self.logs, index, event_type, moment);
                event_type.fired()
            }
            None => Fired::Absent,
        }
    }

    /// What becomes of the event with that index where it is to fire. Absent where it has no valid row: it doesn't fire then.
    pub fn becomes(&self, index: u32) -> Fired
        ensures { (journal : Journal) → HasRows self.now journal
            → result ≡ fired_of (event_state journal (index ∷ [])) (type_of journal index) }
    {
        match self.valid_type(index) {
            Some(event_type) => event_type.fired(),
            None => Fired::Absent,
        }
    }

    // The type of an event, if its row is valid.
    fn valid_type(&self, index: u32) -> Option<EventType>
        ensures valid { IfSome result (λ kind. (is_valid (state_in self.now.rows index) ≡ true)
            × ((columns : Columns) → columns_in self.now.rows index ≡ Some columns → kind ≡ columns.event_type)) }
        ensures idle { IfNone result (is_valid (state_in self.now.rows index) ≡ false) }
    {
        match self.rows.state(index) {
            State::Valid => Some(self.rows.get(index)?.event_type),
            _ => None,
        }
    }

    /// The community of the event with that index (RFC 1757, eventCommunity). None where there is no such row.
    pub fn community(&self, index: u32) -> Option<&[u8]>
        ensures value { (journal : Journal) → HasRows self.now journal
            → option_map (λ text. octets text.now) result ≡ community_of journal index }
        ensures short { IfSome result (λ text. length text.now ≤ 127) }
    {
        prove!(self.rows.len() <= 32);
        match self.rows.get(index) {
            Some(row) => Some(row.community.as_slice()),
            None => None,
        }
    }
}

// Notes in the log of a row that its event, which is of that type, fires at a moment in milliseconds.
fn fire_log(logs: &mut Pool<Log>, row: u32, event_type: EventType, moment: u32)
    ensures itself { (log : Kept) → part_in logs.old row ≡ Some log → (new : Kept) × (part_in logs.new row ≡ Some new)
        × HasFired event_type moment log new }
    ensures others { (other : ℕ) → nat_eq row other ≡ false → part_in logs.new other ≡ part_in logs.old other }
    ensures same { (other : ℕ) → has_part logs.new other ≡ has_part logs.old other }
    ensures size { length logs.new ≡ length logs.old }
{
    if let Some(log) = logs.get_mut(row) {
        log.fire(event_type, moment);
    }
}
