// Laws of what GetNext finds, and of what a Set gives. The bodies are empty.
ghost use Rattle.std.specs.Prelude.{◌≡◌, ℕ, List, Option};
ghost use Rattle.rm_val.specs.Val.{Val};
ghost use Rattle.rm_model.specs.Cells.{Cells, IsNext};
ghost use Rattle.rm_model.specs.Finite.{AreFinite};
ghost use Rattle.rm_model.specs.Journal.{value_given};
ghost use Rattle.rm_model.specs.Judgement.{Bindings};
ghost use Rattle.rm_model.specs.Accepted.{assignments_of};

/// A law: where the cells are finitely many, GetNext finds one above each name, or that there is none.
pub fn next_or_none()
    ensures { (cells : Cells) → AreFinite cells → (asked : List ℕ) → (value : Option Val) × (found : List ℕ) × IsNext cells asked value found }
{}

/// A law: what a journal holds of an accepted Set is the same for every order of its bindings, since two Sets that give
/// the same value to each variable have the same assignments.
pub fn order_does_not_matter()
    ensures given { (bindings : Bindings) (name : List ℕ) → value_given (assignments_of bindings) name ≡ value_given bindings name }
    ensures same { (bindings others : Bindings) → ((name : List ℕ) → value_given bindings name ≡ value_given others name) → assignments_of bindings ≡ assignments_of others }
{}
