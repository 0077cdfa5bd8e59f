// Notifications that go nowhere.
use rm_probe::Notes;

/// Nobody is told of notifications. A load has no alarm, and so sends none.
#[derive(Drop)]
pub struct Unheard;

impl Notes for Unheard {
    ghost since = { λ start now said. Unit {0} };

    ghost none = { λ state. tt };

    fn note(&mut self, _moment: u32, _message: &[u8]) {}
}
