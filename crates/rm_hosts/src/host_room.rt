// For how many hosts a row has room.
ghost use Rattle.std.specs.Prelude.{◌≤◌};
ghost use Rattle.rm_keyed.specs.declared.keyed.TheConstants.{MOST_ROWS};

use rm_keyed::MOST_ROWS;

/// For how many hosts each row of hostControl has room: for both hosts of a frame, at least.
#[derive(Clone, Copy, Drop)]
pub struct HostRoom {
    /// How many they are.
    pub hosts: u32,
    ghost both: { 2 ≤ hosts },
    ghost most: { hosts ≤ MOST_ROWS },
}
