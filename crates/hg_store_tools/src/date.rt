//! The date of a moment, in coordinated universal time.

ghost use Rattle.std.specs.Prelude.{◌≡◌, ◌+◌, ◌-◌, ◌*◌, ◌<◌, ◌≤◌, ◌++◌, IfNone, IfSome, OnOk, string_bytes};
ghost use Rattle.hg_store_tools.specs.Date.{IsDateOf, IsDayOfYear, IsDayOfMonth, days_of_month, days_of_year};
ghost use Rattle.hg_store_tools.specs.Date.{day_text, days_of_years, is_leap, time_text};

use hg_types::NoMemory;
use std::alloc::Allocator;

/// A date and a time of the day, in coordinated universal time.
#[derive(Clone, Copy, Debug, PartialEq, Eq)]
pub struct Date {
    /// From 1970 to 9999.
    pub year: u32,
    /// From 1 to 12.
    pub month: u32,
    /// From 1 to 31.
    pub day: u32,
    /// Below 24.
    pub hour: u32,
    /// Below 60.
    pub minute: u32,
    /// Below 60.
    pub second: u32,
}

/// The seconds of a day, of an hour and of a minute.
const DAY: u64 = 86_400;

const HOUR: u32 = 3_600;

const MINUTE: u32 = 60;

/// The years that have dates here, from 1970 to 9999.
const YEARS: u32 = 8_030;

/// The date of a moment, which is given in seconds since the beginning of 1970, without leap seconds. A moment after
/// the year 9999 has none.
pub fn date_of(seconds: u64) -> Option<Date>
    ensures some { IfSome result (λ date. IsDateOf seconds date) }
    ensures none { IfNone result (days_of_years 8030 * 86400 ≤ seconds) }
{
    let (year, day_of_year) = year_of(seconds / DAY)?;
    let (month, day_of_month) = month_of(year, day_of_year);
    let second = (seconds % DAY) as u32;
    Some(Date {
        year,
        month,
        day: day_of_month + 1,
        hour: second / HOUR,
        minute: second % HOUR / MINUTE,
        second: second % HOUR % MINUTE,
    })
}

/// The year of a day, and how many of its days are before it. So many days are before it since the beginning of 1970.
fn year_of(day: u64) -> Option<(u32, u32)>
    ensures some { IfSome result (λ found. IsDayOfYear day found.0 found.1) }
    ensures none { IfNone result (days_of_years 8030 ≤ day) }
{
    let mut left = day;
    for passed in 0..YEARS {
        let year = 1970 + passed;
        let days = days_of_year(year) as u64;
        if left < days {
            return Some((year, left as u32));
        }
        left -= days;
    }
    None
}

/// The month of a day of a year, and how many of its days are before it.
fn month_of(year: u32, day: u32) -> (u32, u32)
    requires { day < days_of_year year }
    ensures { IsDayOfMonth year day result.0 result.1 }
{
    let mut left = day;
    for passed in 0..11u32 {
        let month = 1 + passed;
        let days = days_of_month(year, month);
        if left < days {
            return (month, left);
        }
        left -= days;
    }
    (12, left)
}

/// Every fourth year, and of the hundredth ones every fourth.
fn is_leap(year: u32) -> bool
    ensures { result ≡ is_leap year }
{
    year % 4 == 0 && (year % 100 != 0 || year % 400 == 0)
}

fn days_of_year(year: u32) -> u32
    ensures { result ≡ days_of_year year }
{
    if is_leap(year) { 366 } else { 365 }
}

fn days_of_month(year: u32, month: u32) -> u32
    ensures { result ≡ days_of_month year month }
{
    match month {
        2 => { if is_leap(year) { 29 } else { 28 } }
        4 | 6 | 9 | 11 => 30,
        _ => 31,
    }
}

/// Adds a date as `2026-11-30T05:31:07Z`.
pub(crate) fn push_date<A: Allocator>(text: &mut String<A>, date: &Date) -> Result<(), NoMemory>
    ensures { OnOk result (string_bytes text.new
        ≡ string_bytes text.old ++ (day_text date.now ++ time_text date.now)) }
{
    push_day(text, date)?;
    push_time(text, date)
}

/// Adds the day of a date, as `2026-11-30`.
#[tactic(auto, unfolding(crate::specs::Date::day_text))]
fn push_day<A: Allocator>(text: &mut String<A>, date: &Date) -> Result<(), NoMemory>
    ensures { OnOk result (string_bytes text.new ≡ string_bytes text.old ++ day_text date.now) }
{
    let year = date.year;
    let month = date.month;
    let day = date.day;
    write!(text, "{year:04}-{month:02}-{day:02}")?;
    Ok(())
}

/// Adds the time of the day of a date, as `T05:31:07Z`.
#[tactic(auto, unfolding(crate::specs::Date::time_text))]
fn push_time<A: Allocator>(text: &mut String<A>, date: &Date) -> Result<(), NoMemory>
    ensures { OnOk result (string_bytes text.new ≡ string_bytes text.old ++ time_text date.now) }
{
    let hour = date.hour;
    let minute = date.minute;
    let second = date.second;
    write!(text, "T{hour:02}:{minute:02}:{second:02}Z")?;
    Ok(())
}
