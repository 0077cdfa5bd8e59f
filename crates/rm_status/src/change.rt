// A change of the columns of every row.
ghost use Rattle.std.specs.Prelude.{◌≡◌, ℕ};
ghost use Rattle.rm_model.specs.declared.row.State.{State};

use rm_model::State;

/// A change that the columns of each row of a control table undergo, by the row's index and its state.
pub trait Change<C> {
    /// The columns after it.
    ghost changed: { Self → ℕ → State → C → C };

    /// Changes the columns of a row.
    fn change(&self, index: u32, state: State, columns: &mut C)
        ensures { columns.new ≡ changed self.now index state columns.old };
}
