// For how many pairs a row has room.
ghost use Rattle.std.specs.Prelude.{◌≤◌};
ghost use Rattle.rm_keyed.specs.declared.keyed.TheConstants.{MOST_ROWS};

use rm_keyed::MOST_ROWS;

/// For how many pairs of hosts each row of matrixControl has room.
#[derive(Clone, Copy, Drop)]
pub struct MatrixRoom {
    /// How many they are.
    pub pairs: u32,
    ghost some: { 1 ≤ pairs },
    ghost most: { pairs ≤ MOST_ROWS },
}
