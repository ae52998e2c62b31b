//! Dates, as `2005-04-07 15:13:13 -0700`.
ghost use Rattle.std.specs.Prelude.{◌≡◌, ◌+◌, ◌*◌, ◌/◌, ◌%◌, ◌<◌, ◌≤◌, ℕ, List, [], ◌∷◌, ◌++◌, OnOk, IsOk, not, ◌==◌, ◌&&◌, ◌||◌, nat_le, true};
ghost use Rattle.std.specs.List.{list_all};
ghost use Rattle.std.specs.Fmt.{decimal};
ghost use Rattle.gix_statement.specs.Formats.{clock, is_offset, months};
ghost use Rattle.gix_format.specs.Pieces.{after_year, date_text, day_text, month_text, offset_seconds, two, year_days};

use std::alloc::AllocError;

/// Whether there are only digits.
fn are_digits(text: &[u8]) -> bool
    ensures { result ≡ list_all (λ b. nat_le 48 b && nat_le b 57) text.now }
{
    text.iter().all(|b| b'0' <= *b && *b <= b'9')
}

/// Whether a text is a sign, two digits of hours and two of minutes.
fn is_offset(text: &[u8]) -> bool
    ensures { result ≡ is_offset text.now }
{
    match text {
        [] => false,
        [sign, rest @ ..] => {
            (*sign == b'+' || *sign == b'-') && rest.len() == 4 && are_digits(rest)
        }
    }
}

/// What a digit stands for.
fn value(digit: u8) -> u64
    requires low { 48 ≤ digit }
    requires high { digit ≤ 57 }
    ensures { digit ≡ 48 + result }
{
    u64::from(digit - b'0')
}

/// How many seconds a clock is off UTC, in either direction.
fn seconds_off(offset: &[u8]) -> u64
    requires { is_offset offset.now ≡ true }
    ensures value { result ≡ offset_seconds offset.now }
    ensures small { result < 1000000 }
{
    let hours = 10 * value(offset[1]) + value(offset[2]);
    let minutes = 10 * value(offset[3]) + value(offset[4]);
    3600 * hours + 60 * minutes
}

/// The seconds since 1970 of a clock that is off UTC by so much: 0 where it is before 1970.
fn clock(time: i64, offset: &[u8]) -> u64
    requires { is_offset offset.now ≡ true }
    ensures { result ≡ clock time offset.now }
{
    let off = seconds_off(offset);
    let seconds = time.unsigned_abs();
    match (offset[0] == b'-', time < 0) {
        (true, true) => 0,
        (true, false) => seconds.saturating_sub(off),
        (false, true) => off.saturating_sub(seconds),
        (false, false) => seconds + off,
    }
}

/// Whether a year has a 29th of February.
fn is_leap(year: u64) -> bool
    ensures { result ≡ (year % 4 == 0 && (not (year % 100 == 0) || year % 400 == 0)) }
{
    year % 4 == 0 && (year % 100 != 0 || year % 400 == 0)
}

/// How many days a year has.
fn days_in(year: u64) -> u64
    ensures { result ≡ year_days year }
{
    if is_leap(year) { 366 } else { 365 }
}

/// How many days each month of a year has.
fn months(year: u64) -> [u64; 12]
    ensures { result ≡ months year }
{
    let february = if is_leap(year) { 29 } else { 28 };
    [31, february, 31, 30, 31, 30, 31, 31, 30, 31, 30, 31]
}

/// The year of a day, which is counted from the first of 1970, and the day in that year, counted from 0.
fn year_and_day(day: u64) -> (u64, u64)
    ensures text { day_text day ≡ decimal result.0 ++ 45 ∷ month_text result.0 result.1 }
    ensures within { result.1 < year_days result.0 }
{
    // dates come again after 400 years
    let mut year = 1970 + 400 * (day / 146_097);
    let mut left = day % 146_097;
    loop {
        let days = days_in(year);
        if left < days {
            return (year, left);
        }
        left -= days;
        year += 1;
    }
}

/// The month of a day of a year, and the day in that month, both counted from 1.
fn month_and_day(year: u64, day: u64) -> (u64, u64)
    requires { day < year_days year }
    ensures text { month_text year day ≡ two result.0 ++ 45 ∷ two result.1 }
    ensures month { result.0 < 100 }
    ensures day { result.1 < 100 }
{
    let months = months(year);
    let mut left = day;
    let mut month = 1;
    for days in &months {
        if left < *days {
            return (month, left + 1);
        }
        left -= *days;
        month += 1;
    }
    unreachable!()
}

/// The character of a digit.
fn digit(n: u64) -> u8
    requires { n < 10 }
    ensures { result ≡ 48 + n }
{
    b'0' + n as u8
}

/// What a date and a time have between the year and the offset: `-04-07 15:13:13 `, of so many seconds behind the first of the day.
fn behind_the_year(month: u64, day: u64, second: u64) -> [u8; 16]
    requires month { month < 100 }
    requires day { day < 100 }
    requires second { second < 86400 }
    ensures { result ≡ after_year month day second }
{
    let hour = second / 3600;
    let minute = second / 60 % 60;
    let second = second % 60;
    [
        b'-',
        digit(month / 10),
        digit(month % 10),
        b'-',
        digit(day / 10),
        digit(day % 10),
        b' ',
        digit(hour / 10),
        digit(hour % 10),
        b':',
        digit(minute / 10),
        digit(minute % 10),
        b':',
        digit(second / 10),
        digit(second % 10),
        b' ',
    ]
}

/// Adds the date and the time of a clock that is off UTC by so much, and how much that is. Adds nothing if this is no offset.
///
/// # Errors
///
/// Where memory runs out. What was added then is a beginning of the date, or nothing.
pub(crate) fn add_date_and_time(
    line: &mut Vec<u8>,
    time: i64,
    offset: &[u8],
) -> Result<(), AllocError>
    ensures whole { OnOk result (line.new.items ≡ line.old.items ++ date_text time offset.now) }
    ensures begun { (added more : List ℕ) × (line.new.items ≡ line.old.items ++ added) × (added ++ more ≡ date_text time offset.now) }
    ensures succeeds { date_text time offset.now ≡ [] → IsOk result }
{
    if !is_offset(offset) {
        return Ok(());
    }
    let now = clock(time, offset);
    let (year, day) = year_and_day(now / 86_400);
    let (month, day) = month_and_day(year, day);
    line.extend_from_slice(itoa::Buffer::new().format(year).as_bytes())?;
    line.extend_from_slice(&behind_the_year(month, day, now % 86_400))?;
    line.extend_from_slice(offset)?;
    Ok(())
}
