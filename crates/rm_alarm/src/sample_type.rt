// What the value of a sample is.
ghost use Rattle.rm_alarm.specs.SampleType.{numbering};

use rm_columns::Numbered;

/// What the value of a sample is (RFC 1757, alarmSampleType).
#[derive(Clone, Copy, Debug, PartialEq, Eq)]
pub enum SampleType {
    /// absoluteValue: what the variable reads.
    Absolute = 1,
    /// deltaValue: the difference from the reading before.
    Delta = 2,
}

impl Numbered for SampleType {
    ghost numbering = { numbering };

    fn variants() -> &'static [SampleType] {
        &[Self::Absolute, Self::Delta]
    }

    fn number(self) -> i32 {
        self as i32
    }
}
