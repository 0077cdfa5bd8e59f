// What an event does where it fires.
ghost use Rattle.std.specs.Prelude.{◌≡◌};
ghost use Rattle.rm_event.specs.EventType.{is_logged, fired_as};

use crate::fired::Fired;
use rm_columns::Numbered;

/// What an event does where it fires (RFC 1757, eventType).
#[derive(Clone, Copy, Debug, PartialEq, Eq)]
pub enum EventType {
    /// none: nothing.
    None = 1,
    /// log: it adds an entry to the log.
    Log = 2,
    /// snmp-trap: it sends a notification.
    SnmpTrap = 3,
    /// log-and-trap: both.
    LogAndTrap = 4,
}

impl EventType {
    /// Whether an event of the type is logged where it fires.
    pub fn is_logged(self) -> bool
        ensures { result ≡ is_logged self }
    {
        match self {
            EventType::Log | EventType::LogAndTrap => true,
            EventType::None | EventType::SnmpTrap => false,
        }
    }

    /// What an event of the type does where it fires.
    pub fn fired(self) -> Fired
        ensures { result ≡ fired_as self }
    {
        match self {
            EventType::None => Fired::Silent,
            EventType::Log => Fired::Logged,
            EventType::SnmpTrap => Fired::Trap,
            EventType::LogAndTrap => Fired::Both,
        }
    }
}

impl Numbered for EventType {
    ghost use Rattle.rm_event.specs.EventType.{numbering};

    ghost numbering = { numbering };

    fn variants() -> &'static [EventType] {
        &[Self::None, Self::Log, Self::SnmpTrap, Self::LogAndTrap]
    }

    fn number(self) -> i32 {
        self as i32
    }
}
