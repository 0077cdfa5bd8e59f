// A group of objects.
ghost use Rattle.std.specs.Prelude.{◌≡◌, ℕ, ◌≤◌, List, length, Option, IfSome, OnSome, IfNone};
ghost use Rattle.std.specs.Option.{option_map};
ghost use Rattle.rm_val.specs.Val.{Val, val_of};
ghost use Rattle.rm_val.specs.declared.error.ErrorStatus.{ErrorStatus as Fault};
ghost use Rattle.rm_val.specs.Spellable.{IsSpellable, HasSpelling};
ghost use Rattle.rm_model.specs.Counting.{Counting};
ghost use Rattle.rm_model.specs.Journal.{Journal, last_moment};
ghost use Rattle.rm_model.specs.Cells.{Cells, IsNext};
ghost use Rattle.rm_model.specs.Finite.{AreFinite};
ghost use Rattle.rm_model.specs.Judgement.{Bindings, IsFirstFault};
ghost use Rattle.rm_group.specs.Least.{AreFrom};
ghost use Rattle.rm_group.specs.Look.{Readings};
ghost use Rattle.rm_group.specs.Alone.{alone_at, AreFineAlone, IsWithin};

use crate::assigns::Assigns;
use crate::look::Look;
use rm_model::Verdict;
use rm_val::{Oid, Value};

/// A group of objects. It stands for a journal where all that it keeps is what that journal gives.
///
/// A Set is judged in two passes, prepared (`Stores`) and then committed, all at one moment. Until it is committed or discarded,
/// the group is given nothing else. A group commits it by itself (`Commits`), or beside another one (`Beside`).
pub trait Group {
    /// What the group keeps is what a journal gives, by what the probe was set to.
    ghost stands: { Self → Counting → Journal → Type 0 };

    /// The least moment at which the group may be given a Set, in milliseconds.
    ghost clock: { Self → ℕ };

    /// The group may be asked at a moment in milliseconds: of what ends by itself, as a report does, exactly that has ended whose
    /// end isn't later. A group with nothing of that kind may always be asked.
    ghost askable: { Self → ℕ → Type 0 };

    /// How many frames the group was given.
    ghost frames: { Self → ℕ };

    /// The group's cells after a journal, at a moment in milliseconds, by what the probe was set to.
    ghost cells: { Counting → Journal → ℕ → Cells };

    /// What is wrong with a binding alone.
    ghost alone: { List ℕ → Val → Option Fault };

    /// What is wrong with the binding at a place together with the others of its row, after a journal, at a moment in
    /// milliseconds and by what is read then.
    ghost together: { Counting → Journal → ℕ → Readings → Bindings → ℕ → Option Fault };

    /// Both passes found nothing wrong with a Set at a moment in milliseconds.
    ghost accepts: { Self → ℕ → Bindings → Type 0 };

    /// Where the group's variables begin: none has a name below this one, whatever the journal and the moment. So a group that begins
    /// behind a variable that was found needn't be asked for a nearer one. By default it is the empty name, which no name is below.
    fn least() -> &'static [u32]
        ensures from { (settings : Counting) (journal : Journal) (now : ℕ) → AreFrom result.now (cells settings journal now) }
        ensures fits { length result.now ≤ 128 }
    {
        &[]
    }

    /// The value of the variable with that name at a moment in milliseconds, which isn't below that of the last act, and at
    /// which the group may be asked. None where the group has no such variable.
    fn cell(&self, name: &Oid, now: u32) -> Option<Value<'_>>
        ensures value { (settings : Counting) (journal : Journal) → stands self.now settings journal → last_moment journal ≤ now
            → askable self.now now → option_map val_of result ≡ cells settings journal now name.now }
        ensures spelling { IfSome result (λ value. HasSpelling (val_of value)) };

    /// The value of the variable with the least name above that one (RFC 1905, section 4.2.2), at a moment in
    /// milliseconds, which isn't below that of the last act, and at which the group may be asked. Its name is put into `out`.
    /// None where the group has no variable with a greater name; `out` is then as before.
    fn after(&self, name: &Oid, now: u32, out: &mut Oid) -> Option<Value<'_>>
        ensures next { (settings : Counting) (journal : Journal) → stands self.now settings journal → last_moment journal ≤ now
            → askable self.now now → IsNext (cells settings journal now) name.now (option_map val_of result) out.new }
        ensures stays { IfNone result (out.new ≡ out.old) }
        ensures name_spelling { OnSome result (IsSpellable out.new) }
        ensures spelling { IfSome result (λ value. HasSpelling (val_of value)) };

    /// The first pass of a Set: each binding alone.
    fn judge_alone<A: Assigns>(&self, set: &A) -> Verdict
        ensures { let bindings = A.bindings set.now in IsFirstFault (length bindings) (alone_at alone bindings) result };

    /// The second pass of a Set at a moment in milliseconds, which isn't below that of the last act, and at which the group may
    /// be asked: the bindings of each row together. The first pass found nothing wrong.
    fn judge_rows<A: Assigns, L: Look>(&self, set: &A, now: u32, look: &L) -> Verdict
        requires alone { AreFineAlone alone (A.bindings set.now) }
        ensures accepted { result ≡ Verdict.Fine → accepts self.now now (A.bindings set.now) }
        ensures verdict { let bindings = A.bindings set.now in (settings : Counting) (journal : Journal) → stands self.now settings journal → last_moment journal ≤ now
            → askable self.now now → IsFirstFault (length bindings) (together settings journal now (L.readings look.now now) bindings) result }
        ensures within { IsWithin (length (A.bindings set.now)) result };

    /// The cells are finitely many, after every journal and at every moment.
    ghost finite: { (settings : Counting) (journal : Journal) (now : ℕ) → AreFinite (cells settings journal now) };
}
