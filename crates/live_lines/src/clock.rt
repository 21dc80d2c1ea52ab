// The time of day, as it stands before a line.

/// A time of day. Each number is written as it is, with two digits or more.
#[derive(Clone, Copy, Debug, PartialEq, Eq)]
pub struct Clock {
    pub hour: u8,
    pub minute: u8,
    pub second: u8,
}
