// What all rows of a control table share.
ghost use Rattle.std.specs.Prelude.{◌<◌, ◌≤◌};

/// What all rows of hlHostControl share, or of hlMatrixControl: how many network rows each may hold, and what is on (RFC 2021,
/// protocolDirHostConfig and protocolDirMatrixConfig).
#[derive(Drop)]
pub struct LayerShared {
    /// How many network rows the probe has each row hold at most.
    pub upper: u32,
    /// Whether ip is on.
    pub on: bool,
    /// The local indexes of the protocols above ip that are on, each in a slot.
    pub slots: [Option<u32>; 32],
    ghost some: { 0 < upper },
    ghost most: { upper ≤ 1024 },
}
