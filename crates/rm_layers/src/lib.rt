//! What one control row of the network and application layer tables (RFC 2021, section 6) holds after what happened to it: the rows of
//! the addresses, or pairs of them, that frames named, and within each the rows of the protocols above ip.
#![tactic(auto)]

ghost use Rattle.std.specs.Prelude.{◌≡◌, ℕ, ◌<◌, ◌≤◌, Bool, true, false, List, ◌∷◌, ◌++◌, length, Option, Some, IfSome, slice_get};
ghost use Rattle.rm_evicting.specs.declared.Row.{Row};
ghost use Rattle.rm_evicting.specs.Stands.{total};
ghost use Rattle.rm_layers.specs.Event.{Contribution, Event, names, turns_ip, begins, is_ip_on, on_since, AreUpTo, AreRising, AreTimed};
ghost use Rattle.rm_layers.specs.Network.{exists, is_held, entry_tick, first_tick, is_on_path, application_contributions, application_rows, network_rows, contributions};
ghost use Rattle.rm_layers.specs.Applications.{Slots, Value, application_at, application_of};
ghost use Rattle.rm_layers.specs.Upper.{Upper, AreTuned, IsOf, named, retuned, emptied, begun, applications_held, IsWithin};
ghost use Rattle.rm_layers.specs.Turning.{IsChange, contributions_by_place};
ghost use Rattle.rm_layers.specs.Capacity.{capacity};
ghost use Rattle.rm_layers.specs.Marks.{NetworkLasts, ApplicationLasts};

use rm_evicting::Key;

/// Rows and counts that stand for the events so far stand for one more after it.
pub fn each_event<K: Key, N, A, G>()
    ensures names { (blank : N) (add : N → G → N) (none : A) (more : A → G → A) (capacity : ℕ) (slots : Slots) (earlier : List (Event K G)) (key : K) (brings : Contribution G) (upper : Upper K N A)
        → 0 < capacity → is_ip_on earlier ≡ true → AreTuned slots earlier → AreRising (names key brings ∷ earlier) → IsOf K.eq blank add none more capacity slots earlier upper
        → IsOf K.eq blank add none more capacity slots (names key brings ∷ earlier) (named K.eq blank add none more capacity slots key brings upper) }
    ensures unnamed { (blank : N) (add : N → G → N) (none : A) (more : A → G → A) (capacity : ℕ) (slots : Slots) (earlier : List (Event K G)) (key : K) (brings : Contribution G) (upper : Upper K N A)
        → is_ip_on earlier ≡ false → IsOf K.eq blank add none more capacity slots earlier upper
        → IsOf K.eq blank add none more capacity slots (names key brings ∷ earlier) upper }
    ensures turned { (blank : N) (add : N → G → N) (none : A) (more : A → G → A) (capacity stamp : ℕ) (turnings earlier : List (Event K G)) (old slots : Slots) (upper : Upper K N A)
        → AreUpTo stamp earlier → AreTuned old earlier → AreTuned slots (turnings ++ earlier) → IsChange stamp turnings earlier old slots → IsOf K.eq blank add none more capacity old earlier upper
        → IsOf K.eq blank add none more capacity slots (turnings ++ earlier) (retuned old slots upper) }
    ensures turned_ip { (blank : N) (add : N → G → N) (none : A) (more : A → G → A) (capacity : ℕ) (slots : Slots) (earlier : List (Event K G)) (on : Bool) (upper : Upper K N A)
        → IsOf K.eq blank add none more capacity slots earlier upper → IsOf K.eq blank add none more capacity slots (turns_ip on ∷ earlier) (emptied upper) }
    ensures begins { (blank : N) (add : N → G → N) (none : A) (more : A → G → A) (capacity : ℕ) (slots : Slots) (earlier : List (Event K G))
        → IsOf K.eq blank add none more capacity slots (begins ∷ earlier) begun }
{}

/// What rows that stand for the events show: network rows with the ticks of their entries, application rows, and how many rows there are.
pub fn shown<K: Key, N, A, G>()
    ensures network { (blank : N) (add : N → G → N) (none : A) (more : A → G → A) (capacity : ℕ) (slots : Slots) (events : List (Event K G)) (upper : Upper K N A)
        → IsOf K.eq blank add none more capacity slots events upper → (place : ℕ) (row : Row K (Value N A)) → slice_get upper.rows place ≡ Some row
        → (row.value.created ≡ Some (entry_tick K.eq capacity row.key events))
        × (row.value.sums ≡ total blank (λ sums brings. add sums brings.gain) (contributions K.eq capacity row.key events)) }
    ensures application { (blank : N) (add : N → G → N) (none : A) (more : A → G → A) (capacity : ℕ) (slots : Slots) (events : List (Event K G)) (upper : Upper K N A)
        → AreTuned slots events → IsOf K.eq blank add none more capacity slots events upper
        → (place : ℕ) (row : Row K (Value N A)) → slice_get upper.rows place ≡ Some row → (protocol : ℕ)
        → application_at protocol slots row.value.applications ≡ application_of none more (application_contributions K.eq capacity row.key protocol events) }
    ensures network_rows { (blank : N) (add : N → G → N) (none : A) (more : A → G → A) (capacity : ℕ) (slots : Slots) (events : List (Event K G)) (upper : Upper K N A)
        → IsOf K.eq blank add none more capacity slots events upper → length upper.rows ≡ network_rows K.eq capacity events }
    ensures application_rows { (blank : N) (add : N → G → N) (none : A) (more : A → G → A) (capacity : ℕ) (slots : Slots) (events : List (Event K G)) (upper : Upper K N A)
        → AreTuned slots events → IsOf K.eq blank add none more capacity slots events upper → applications_held upper.rows ≡ application_rows K.eq capacity events }
{}

/// No more rows are held than were entered, after each step.
pub fn within<K: Key, N, A, G>()
    ensures named { (blank : N) (add : N → G → N) (none : A) (more : A → G → A) (capacity : ℕ) (slots : Slots) (key : K) (brings : Contribution G) (upper : Upper K N A)
        → IsWithin upper → IsWithin (named K.eq blank add none more capacity slots key brings upper) }
    ensures turned { (old slots : Slots) (upper : Upper K N A) → IsWithin upper → IsWithin (retuned old slots upper) }
{}

/// What counts from the stamp of a turning on is what comes after it; a reference makes no row of a protocol that isn't on its path;
/// and an application row doesn't outlast its network row.
pub fn events<K: Key, G>()
    ensures after { (capacity : ℕ) (key : K) (protocol stamp : ℕ) (events : List (Event K G)) → AreRising events → on_since protocol events ≡ Some stamp
        → contributions_by_place K.eq capacity key protocol events ≡ application_contributions K.eq capacity key protocol events }
    ensures by_path { (capacity : ℕ) (key : K) (protocol : ℕ) (brings : Contribution G) (earlier : List (Event K G)) → is_on_path protocol brings ≡ false
        → exists K.eq capacity key protocol (names key brings ∷ earlier) ≡ true → exists K.eq capacity key protocol earlier ≡ true }
    ensures lasts { (capacity : ℕ) (key : K) (protocol tick last : ℕ) (events : List (Event K G)) → AreTimed events
        → ApplicationLasts K.eq capacity events (key, protocol) tick → NetworkLasts K.eq capacity events key last → tick ≤ last }
{}

/// The first contribution to a row is its entry.
pub fn created<K: Key, G>()
    ensures { (capacity : ℕ) (key : K) (events : List (Event K G)) → is_held K.eq capacity key events ≡ true
        → entry_tick K.eq capacity key events ≡ first_tick (contributions K.eq capacity key events) }
{}

/// There is room for a row, and for no more than were reserved.
pub fn room()
    ensures some { (upper : ℕ) (network applications : Option ℕ) → 0 < upper → IfSome network (λ most. 0 < most) → IfSome applications (λ most. 32 ≤ most) → 0 < capacity upper network applications }
    ensures within { (upper : ℕ) (network applications : Option ℕ) → capacity upper network applications ≤ upper }
{}
