ghost use Rattle.std.specs.Prelude.{◌≡◌, ◌<◌, ◌↔◌, pos, IsSome, IfSome};
ghost use Rattle.jiff.specs.Words.{IsDate, IsYmd};
ghost use Rattle.intel_format.specs.Date.{IsDayOf, AreDigits, two_digits};

use intel_format::IntelHeader;
use jiff::civil::Date;

/// The number of two decimal digits, one in each half of a byte.
fn two_digits(byte: u8) -> Option<u8>
    ensures digits { IsSome result ↔ AreDigits byte }
    ensures value { IfSome result (λ number. number ≡ two_digits byte) }
    ensures small { IfSome result (λ number. number < 100) }
{
    let high = byte / 16;
    let low = byte % 16;
    if high < 10 && low < 10 {
        Some(10 * high + low)
    } else {
        None
    }
}

/// The day that the calendar has under these numbers, if it has one.
fn day_on(year: u16, month: u8, day: u8) -> Option<Date>
    requires year { year < 10000 }
    requires month { month < 100 }
    requires day { day < 100 }
    ensures exists { IsSome result ↔ IsDate (pos year) (pos month) (pos day) }
    ensures value { IfSome result (IsYmd (pos year) (pos month) (pos day)) }
{
    Date::new(year as i16, month as i8, day as i8).ok()
}

/// The day that a date word names, or None where a digit of it is not decimal or the calendar has no such day.
pub fn day_of(date: u32) -> Option<Date>
    ensures { IsDayOf date result }
{
    let [month, day, century, year] = date.to_be_bytes();
    let month = two_digits(month)?;
    let day = two_digits(day)?;
    let century = two_digits(century)?;
    let year = two_digits(year)?;
    day_on(100 * u16::from(century) + u16::from(year), month, day)
}

/// The day of an update.
pub fn date_of(h: &IntelHeader) -> Option<Date>
    ensures { IsDayOf h.now.date result }
{
    day_of(h.date)
}
