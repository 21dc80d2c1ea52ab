// The time of day at this place.
use jiff::Timestamp;
use jiff::tz::{SystemTimeZone, TimeZoneDatabase};
use live_lines::Clock;
use std::env::Env;
use std::rt::Files;
use std::time::{self, SystemTime, UNIX_EPOCH};

/// How many seconds a day has.
const DAY: u64 = 86_400;

/// How many seconds the day here is before that of universal time, as less than a day; 0 where that can't be
/// told. It reads the files of the system's time zone.
pub fn offset_here<R: Env + Files + AllocGlobal + time::Clock>(rt: &R) -> u64 {
    let Ok(system) = SystemTimeZone::read(rt) else {
        return 0;
    };
    let none = TimeZoneDatabase::new(rt.alloc());
    let Ok(zone) = system.time_zone(&none) else {
        return 0;
    };
    match Timestamp::now(rt) {
        Ok(now) => offset_of(zone.to_offset(now).seconds()),
        Err(_) => 0,
    }
}

// An offset as less than a day before universal time: one behind it is one of the day after.
fn offset_of(seconds: i32) -> u64 {
    if seconds >= 0 {
        seconds as u64 % DAY
    } else {
        DAY - u64::from(seconds.unsigned_abs()) % DAY
    }
}

/// The time of day at a place that is so many seconds before universal time; the clock at its start where it
/// fails.
pub(crate) fn day_time<R: time::Clock>(rt: &R, offset: u64) -> Clock {
    let seconds = match SystemTime::now(rt) {
        Ok(now) => match now.duration_since(UNIX_EPOCH) {
            Ok(since) => since.as_secs(),
            Err(_) => 0,
        },
        Err(_) => 0,
    };
    clock_of(seconds.saturating_add(offset))
}

// The time so many seconds after a midnight.
fn clock_of(seconds: u64) -> Clock {
    Clock {
        hour: (seconds / 3600 % 24) as u8,
        minute: (seconds / 60 % 60) as u8,
        second: (seconds % 60) as u8,
    }
}
