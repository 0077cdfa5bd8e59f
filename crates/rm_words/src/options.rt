// What a run is set to by the options of its command.
use rm_settings::Settings;

/// What a run is set to.
#[derive(Drop)]
pub struct RunOptions {
    /// What its probe is set to.
    pub settings: Settings,
    /// The moment of the first frame, in milliseconds.
    pub lead: u32,
}
