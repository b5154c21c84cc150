//! How numbers are written.

ghost use Rattle.std.specs.Prelude.{◌≡◌, ◌<◌, ◌++◌, OnOk, string_bytes};
ghost use Rattle.hg_status.specs.Numbers.{millis, seconds, three_digits};

use hg_types::NoMemory;
use std::alloc::Allocator;

/// Adds microseconds as milliseconds, with three digits after the point.
pub fn push_millis<A: Allocator>(text: &mut String<A>, micros: u64) -> Result<(), NoMemory>
    ensures { OnOk result (string_bytes text.new ≡ string_bytes text.old ++ millis micros) }
{
    let whole = micros / 1000;
    write!(text, "{whole}.")?;
    push_three_digits(text, micros % 1000)
}

/// Adds microseconds as seconds, with six digits after the point.
pub fn push_seconds<A: Allocator>(text: &mut String<A>, micros: u64) -> Result<(), NoMemory>
    ensures { OnOk result (string_bytes text.new ≡ string_bytes text.old ++ seconds micros) }
{
    let whole = micros / 1_000_000;
    write!(text, "{whole}.")?;
    push_three_digits(text, micros / 1000 % 1000)?;
    push_three_digits(text, micros % 1000)
}

/// Adds a number below 1,000 as three digits.
fn push_three_digits<A: Allocator>(text: &mut String<A>, number: u64) -> Result<(), NoMemory>
    ensures { OnOk result (string_bytes text.new ≡ string_bytes text.old ++ three_digits number) }
{
    let hundreds = number / 100;
    let tens = number / 10 % 10;
    let ones = number % 10;
    write!(text, "{hundreds}{tens}{ones}")?;
    Ok(())
}
