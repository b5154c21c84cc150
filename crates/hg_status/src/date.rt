//! The date of a moment.

ghost use Rattle.std.specs.Prelude.{◌≡◌, ◌++◌, OnOk, string_bytes};
ghost use Rattle.hg_status.specs.Page.{day_text, time_text};

use hg_types::NoMemory;
use std::alloc::Allocator;

/// A moment, in coordinated universal time.
#[derive(Clone, Copy, Debug, PartialEq, Eq)]
pub struct Date {
    /// From 1970 to 9999.
    pub year: u32,
    /// From 1 to 12.
    pub month: u32,
    /// From 1 to 31.
    pub day: u32,
    /// Of the day, below 86,400.
    pub second: u32,
}

const DAY: u64 = 86_400;

/// The last year that has dates here.
const LAST_YEAR: u32 = 9999;

/// The last second that has a date here: the last of the year 9999.
const LAST: u64 = 253_402_300_799;

/// The date of a moment, which is given in seconds since the beginning of 1970 without leap seconds. What is
/// later than the year 9999 has the date of its last second.
pub fn date_of(seconds: u64) -> Date {
    let seconds = seconds.min(LAST);
    let (year, day) = year_of((seconds / DAY) as u32);
    let (month, day) = month_of(year, day);
    let second = (seconds % DAY) as u32;
    Date {
        year,
        month,
        day: day.saturating_add(1),
        second,
    }
}

/// The year of a day, and which of its days it is. Days are counted from 0, since the beginning of 1970.
fn year_of(day: u32) -> (u32, u32) {
    let mut day = day;
    for year in 1970..LAST_YEAR {
        let days = days_of_year(year);
        if day < days {
            return (year, day);
        }
        day -= days;
    }
    (LAST_YEAR, day)
}

/// The month of a day of a year, and which of its days it is, counted from 0.
fn month_of(year: u32, day: u32) -> (u32, u32) {
    let mut day = day;
    for month in 1..12 {
        let days = days_of_month(year, month);
        if day < days {
            return (month, day);
        }
        day -= days;
    }
    (12, day)
}

fn is_leap(year: u32) -> bool {
    year % 4 == 0 && (year % 100 != 0 || year % 400 == 0)
}

fn days_of_year(year: u32) -> u32 {
    if is_leap(year) { 366 } else { 365 }
}

fn days_of_month(year: u32, month: u32) -> u32 {
    match month {
        2 if is_leap(year) => 29,
        2 => 28,
        4 | 6 | 9 | 11 => 30,
        _ => 31,
    }
}

/// Adds the day of a date, as `2026-11-25`.
#[tactic(auto, unfolding(crate::specs::Page::day_text))]
pub fn push_day<A: Allocator>(text: &mut String<A>, date: &Date) -> Result<(), NoMemory>
    ensures { OnOk result (string_bytes text.new ≡ string_bytes text.old ++ day_text date.now) }
{
    let year = date.year;
    let month = date.month;
    let day = date.day;
    write!(text, "{year:04}-{month:02}-{day:02}")?;
    Ok(())
}

/// Adds the time of the day of a date, as `06:12:03`.
#[tactic(auto, unfolding(crate::specs::Page::time_text))]
pub fn push_time<A: Allocator>(text: &mut String<A>, date: &Date) -> Result<(), NoMemory>
    ensures { OnOk result (string_bytes text.new ≡ string_bytes text.old ++ time_text date.now) }
{
    let hours = date.second / 3600;
    let minutes = date.second / 60 % 60;
    let seconds = date.second % 60;
    write!(text, "{hours:02}:{minutes:02}:{seconds:02}")?;
    Ok(())
}
