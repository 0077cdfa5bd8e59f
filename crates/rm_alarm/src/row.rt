// A row of alarmTable.
use crate::course::Course;
use crate::sample_type::SampleType;
use crate::thresholds::Thresholds;
use arrayvec::ArrayVec;
use rm_columns::MOST_OWNER;
use rm_model::Reading;
use rm_val::Oid;

/// The columns of a row of alarmTable (RFC 1757, section 5), with what it keeps of its samples while it is valid.
#[derive(Drop)]
pub struct AlarmRow {
    /// alarmInterval, in seconds, if it was set.
    pub interval: Option<i32>,
    /// alarmVariable, if it was set.
    pub variable: Option<Oid>,
    /// alarmSampleType
    pub sample_type: SampleType,
    /// alarmStartupAlarm, alarmRisingThreshold and alarmFallingThreshold
    pub thresholds: Thresholds,
    /// alarmRisingEventIndex
    pub rising_event: i32,
    /// alarmFallingEventIndex
    pub falling_event: i32,
    /// alarmOwner
    pub owner: ArrayVec<u8, MOST_OWNER>,
    /// What its variable reads, remembered for a Set by which the row may become valid.
    pub base: Option<Reading>,
    /// What is kept of its samples while it is valid.
    pub course: Option<Course>,
}
