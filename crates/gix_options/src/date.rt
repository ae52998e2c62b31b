//! Times that options name.
ghost use Rattle.std.specs.Prelude.{◌≡◌, ◌≤◌, length, Some, IfSome};
ghost use Rattle.gix_records.specs.Decimal.{digits_behind};
ghost use Rattle.gix_words.specs.Words.{number_in};

/// The seconds since 1970 that a text says, in at most 10 digits: 1 to 10 digits are such seconds. A date as `2024-05-01` is its midnight in
/// UTC, and `2024-05-01T12:00:00`, maybe without the seconds, is a time in UTC, or behind `Z`, `+02:00` or `-0330` one with that offset. A
/// space may be in place of the `T`, and before the offset.
pub fn seconds_of(text: &str) -> Option<u64>
    ensures { IfSome (number_in 10 text.now) (λ n. result ≡ Some n) }
{
    let bytes = text.as_bytes();
    if !bytes.is_empty() && bytes.len() <= 10 {
        if let Some(seconds) = number(bytes) {
            return Some(seconds);
        }
    }
    let days = days_of(bytes.get(..10)?)?;
    let midnight = days.saturating_mul(86_400);
    let seconds = match bytes.get(10..)? {
        [] => midnight,
        [b'T' | b' ', time @ ..] => time_behind(midnight, time)?,
        _ => return None,
    };
    if seconds > 9_999_999_999 {
        return None;
    }
    Some(seconds)
}

/// The number that at most 10 digits write.
pub(crate) fn number(digits: &[u8]) -> Option<u64>
    requires few { length digits.now ≤ 10 }
    ensures value { result ≡ digits_behind 0 digits.now }
    ensures small { IfSome result (λ n. n ≤ 9999999999) }
{
    let mut number = 0;
    for digit in digits {
        if !digit.is_ascii_digit() {
            return None;
        }
        number = 10 * number + u64::from(digit - b'0');
    }
    Some(number)
}

/// How many days after 1970-01-01 a date is, as `2024-05-01`.
fn days_of(date: &[u8]) -> Option<u64> {
    let [a, b, c, d, b'-', e, f, b'-', g, h] = date else {
        return None;
    };
    let year = number(&[*a, *b, *c, *d])?;
    let month = number(&[*e, *f])?;
    let day = number(&[*g, *h])?;
    if year < 1970 || day < 1 || day > days_in(year, month)? {
        return None;
    }
    // Years that begin in March end with the day that a leap year has more.
    let (year, month) = if month > 2 {
        (year, month.saturating_sub(3))
    } else {
        (year.saturating_sub(1), month.saturating_add(9))
    };
    let before = month.saturating_mul(153).saturating_add(2) / 5;
    let days = year
        .saturating_mul(365)
        .saturating_add(year / 4)
        .saturating_add(year / 400)
        .saturating_sub(year / 100)
        .saturating_add(before)
        .saturating_add(day);
    days.checked_sub(719_469)
}

/// How many days a month has.
fn days_in(year: u64, month: u64) -> Option<u64> {
    let is_leap = year % 4 == 0 && (year % 100 != 0 || year % 400 == 0);
    match month {
        1 | 3 | 5 | 7 | 8 | 10 | 12 => Some(31),
        4 | 6 | 9 | 11 => Some(30),
        2 => Some(if is_leap { 29 } else { 28 }),
        _ => None,
    }
}

/// The seconds of a time of the day behind its midnight, with or without its seconds, and maybe with an offset.
fn time_behind(midnight: u64, time: &[u8]) -> Option<u64> {
    let [a, b, b':', c, d, rest @ ..] = time else {
        return None;
    };
    let seconds = clock(number(&[*a, *b])?, number(&[*c, *d])?)?;
    let local = midnight.saturating_add(seconds);
    match rest {
        [b':', e, f, zone @ ..] => {
            let more = number(&[*e, *f])?;
            if more > 59 {
                return None;
            }
            without_offset(local.saturating_add(more), zone)
        }
        zone => without_offset(local, zone),
    }
}

/// The seconds of an hour and a minute.
fn clock(hour: u64, minute: u64) -> Option<u64> {
    if hour > 23 || minute > 59 {
        return None;
    }
    Some(hour * 3600 + minute * 60)
}

/// The seconds in UTC of a time with an offset.
fn without_offset(local: u64, zone: &[u8]) -> Option<u64> {
    let zone = zone.strip_prefix(b" ").unwrap_or(zone);
    let (sign, offset) = match zone {
        [] | [b'Z'] => return Some(local),
        [sign, a, b, b':', c, d] | [sign, a, b, c, d] => {
            (*sign, clock(number(&[*a, *b])?, number(&[*c, *d])?)?)
        }
        _ => return None,
    };
    match sign {
        b'+' => local.checked_sub(offset),
        b'-' => local.checked_add(offset),
        _ => None,
    }
}
