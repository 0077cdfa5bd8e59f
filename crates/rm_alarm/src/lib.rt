//! The group alarm: alarmTable (RFC 1757, section 5).
#![tactic(auto)]

mod alarms;
mod assigning;
mod beside;
mod cell;
mod change;
pub mod column;
mod columns;
mod course;
mod due;
mod given;
mod group;
mod hysteresis;
mod judging;
mod laws;
mod row;
mod sample_type;
mod sampling;
mod startup_alarm;
mod taking;
mod thresholds;
mod watched;

pub use alarms::Alarms;
pub use cell::column_name;
pub use course::Course;
pub use hysteresis::Hysteresis;
pub use laws::{crossing_conditions, frames_pass, one_crossing, reads_cells};
pub use rm_acts::Sampled;
pub use row::AlarmRow;
pub use sample_type::SampleType;
pub use startup_alarm::StartupAlarm;
pub use thresholds::Thresholds;
pub use watched::{Watched, take_sample};
