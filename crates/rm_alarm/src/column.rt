//! The columns of alarmTable by their numbers (RFC 1757, section 5).

/// The number of alarmIndex.
pub const INDEX: u32 = 1;

/// The number of alarmInterval.
pub const INTERVAL: u32 = 2;

/// The number of alarmVariable.
pub const VARIABLE: u32 = 3;

/// The number of alarmSampleType.
pub const SAMPLE_TYPE: u32 = 4;

/// The number of alarmValue.
pub const VALUE: u32 = 5;

/// The number of alarmStartupAlarm.
pub const STARTUP_ALARM: u32 = 6;

/// The number of alarmRisingThreshold.
pub const RISING_THRESHOLD: u32 = 7;

/// The number of alarmFallingThreshold.
pub const FALLING_THRESHOLD: u32 = 8;

/// The number of alarmRisingEventIndex.
pub const RISING_EVENT_INDEX: u32 = 9;

/// The number of alarmFallingEventIndex.
pub const FALLING_EVENT_INDEX: u32 = 10;

/// The number of alarmOwner.
pub const OWNER: u32 = 11;

/// The number of alarmStatus.
pub const STATUS: u32 = 12;
