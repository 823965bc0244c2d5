//! The text of times.
ghost use Rattle.eve_record.specs.Time.{IsCivil, civil_of, stamp_text, time_text};
ghost use Rattle.std.specs.Prelude.{◌≡◌, ◌≤◌, ◌<◌};
ghost use Rattle.std.specs.Str.{IsAscii};

use crate::digits::two;
use jiff::ToSpan;
use jiff::civil::{Date, date};

const NANOSECONDS: u64 = 1_000_000_000;

const SECONDS_OF_A_DAY: u64 = 86_400;

/// A date of the Gregorian calendar, from 1970 on.
#[derive(Clone, Copy)]
pub struct Civil {
    pub year: u16,
    pub month: u8,
    pub day: u8,
}

// The date so many days after 1 January 1970, as jiff has it.
fn day_after(days: u32) -> Date
    requires { days ≤ 213503 }
    ensures { IsCivil result (civil_of days) }
{
    let count = i64::from(days);
    match date(1970, 1, 1).checked_add(count.days()) {
        Ok(day) => day,
        Err(_) => unreachable!(),
    }
}

// The date so many days after 1 January 1970.
fn civil_date(days: u32) -> Civil
    requires { days ≤ 213503 }
    ensures date { result ≡ civil_of days }
    ensures year { result.year < 10000 }
    ensures month { result.month < 100 }
    ensures day { result.day < 100 }
{
    let date = day_after(days);
    Civil {
        year: date.year() as u16,
        month: date.month() as u8,
        day: date.day() as u8,
    }
}

// The text of a date, of the seconds of its day, and of the microseconds of its second.
fn stamp(date: Civil, seconds: u32, micros: u32) -> [u8; 31]
    requires year { date.year < 10000 }
    requires month { date.month < 100 }
    requires day { date.day < 100 }
    requires seconds { seconds < 86400 }
    requires micros { micros < 1000000 }
    ensures value { result ≡ stamp_text date seconds micros }
    ensures ascii { IsAscii result }
{
    let century = two((date.year / 100) as u8);
    let year = two((date.year % 100) as u8);
    let month = two(date.month);
    let day = two(date.day);
    let hour = two((seconds / 3600) as u8);
    let minute = two((seconds / 60 % 60) as u8);
    let second = two((seconds % 60) as u8);
    let front = two((micros / 100 / 100) as u8);
    let middle = two((micros / 100 % 100) as u8);
    let back = two((micros % 100) as u8);
    [
        century[0], century[1], year[0], year[1], b'-', month[0], month[1], b'-', day[0], day[1],
        b'T', hour[0], hour[1], b':', minute[0], minute[1], b':', second[0], second[1], b'.',
        front[0], front[1], middle[0], middle[1], back[0], back[1], b'+', b'0', b'0', b'0', b'0',
    ]
}

/// The text of an instant in UTC, `YYYY-MM-DDTHH:MM:SS.uuuuuu+0000`, from nanoseconds since 1970.
/// Nanoseconds below a microsecond are dropped.
pub fn utc_text(nanoseconds: u64) -> [u8; 31]
    ensures value { result ≡ time_text nanoseconds }
    ensures ascii { IsAscii result }
{
    let seconds = nanoseconds / NANOSECONDS;
    let date = civil_date((seconds / SECONDS_OF_A_DAY) as u32);
    let micros = nanoseconds % NANOSECONDS / 1_000;
    stamp(date, (seconds % SECONDS_OF_A_DAY) as u32, micros as u32)
}
