// The real outside. These adapters tell nothing of what they hold.
mod counted;
mod file_shelf;
mod host_clock;
mod std_sink;
mod udp_link;

pub use counted::Counted;
pub use file_shelf::FileShelf;
pub use host_clock::HostClock;
pub use std_sink::StdSink;
pub use udp_link::UdpLink;
