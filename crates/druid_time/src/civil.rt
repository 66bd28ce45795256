//! Dates and times of the proleptic Gregorian calendar, out of instants and texts and back.
ghost use Rattle.std.specs.Prelude.{◌≡◌, ◌<◌, ◌≤◌, ◌↔◌, IsTrue, SomeIff};
ghost use Rattle.druid_time.specs.Instant.{IsInstant};
ghost use Rattle.druid_time.specs.Texts.{digit};

use crate::parser::number;
use jiff::civil::Date;
use std::marker::Model;

const SECOND: u64 = 1000;

const MINUTE: u64 = 60 * SECOND;

const HOUR: u64 = 60 * MINUTE;

const DAY: u64 = 24 * HOUR;

/// A date and a time in UTC, which the calendar may not have.
#[derive(Clone, Copy)]
pub struct Civil {
    year: u32,
    month: u32,
    day: u32,
    hour: u32,
    minute: u32,
    second: u32,
    milli: u32,
}

impl Model for Civil {
    ghost use Rattle.druid_time.specs.Civil.{Civil as Parts};

    ghost Value = { Parts };

    ghost view = { λ a. record { year = a.year; month = a.month; day = a.day; hour = a.hour; minute = a.minute; second = a.second; milli = a.milli } };

    ghost inverse = { λ c. record { year = c.year; month = c.month; day = c.day; hour = c.hour; minute = c.minute; second = c.second; milli = c.milli } };
}

impl Civil {
    ghost use Rattle.druid_time.specs.Civil.{IsCivil, IsWithinLimits, civil_of, instant_of, time_of_day};
    ghost use Rattle.druid_time.specs.Texts.{civil_text, civil_parts};

    /// The date and the time of an instant.
    pub fn of_instant(instant: u64) -> Civil
        requires { IsInstant instant }
        ensures { result ≡ civil_of instant }
    {
        let days = instant / DAY;
        let Ok(date) = Date::ZERO.to_plain().checked_add(days as i64) else {
            unreachable!();
        };
        Civil {
            year: date.year as u32,
            month: date.month as u32,
            day: date.day as u32,
            hour: (instant % DAY / HOUR) as u32,
            minute: (instant % HOUR / MINUTE) as u32,
            second: (instant % MINUTE / SECOND) as u32,
            milli: (instant % SECOND) as u32,
        }
    }

    /// What the parts of a text of one of the forms say.
    pub fn read(text: &[u8]) -> Civil
        ensures { result ≡ civil_parts text.now }
    {
        Civil {
            year: number(text, 0, 4),
            month: number(text, 5, 2),
            day: number(text, 8, 2),
            hour: number(text, 11, 2),
            minute: number(text, 14, 2),
            second: number(text, 17, 2),
            milli: number(text, 20, 3),
        }
    }

    /// Its instant. None where the calendar has no such day, or the day no such time.
    pub fn instant(&self) -> Option<u64>
        ensures { SomeIff result (IsCivil self.now) (instant_of self.now) }
    {
        if !self.is_within_limits() {
            return None;
        }
        let Ok(date) = Date::new(self.year as i16, self.month as i8, self.day as i8) else {
            return None;
        };
        let days = Date::ZERO.to_plain().until(date.to_plain());
        Some(days as u64 * DAY + self.time_of_day())
    }

    // Whether no part is above the largest that some date or time has.
    fn is_within_limits(&self) -> bool
        ensures { IsTrue result ↔ IsWithinLimits self.now }
    {
        self.year <= 9999
            && self.month <= 12
            && self.day <= 31
            && self.hour < 24
            && self.minute < 60
            && self.second < 60
            && self.milli < 1000
    }

    // The milliseconds since the day began.
    fn time_of_day(&self) -> u64
        requires { IsWithinLimits self.now }
        ensures value { result ≡ time_of_day self.now }
        ensures bound { result < 86_400_000 }
    {
        self.hour as u64 * HOUR
            + self.minute as u64 * MINUTE
            + self.second as u64 * SECOND
            + self.milli as u64
    }

    /// It as `YYYY-MM-DDTHH:MM:SS.mmmZ`.
    pub fn text(&self) -> [u8; 24]
        ensures { result ≡ civil_text self.now }
    {
        [
            digit(self.year / 1000),
            digit(self.year / 100),
            digit(self.year / 10),
            digit(self.year),
            b'-',
            digit(self.month / 10),
            digit(self.month),
            b'-',
            digit(self.day / 10),
            digit(self.day),
            b'T',
            digit(self.hour / 10),
            digit(self.hour),
            b':',
            digit(self.minute / 10),
            digit(self.minute),
            b':',
            digit(self.second / 10),
            digit(self.second),
            b'.',
            digit(self.milli / 100),
            digit(self.milli / 10),
            digit(self.milli),
            b'Z',
        ]
    }
}

// The last digit of a number, in ASCII.
fn digit(number: u32) -> u8
    ensures { result ≡ digit number }
{
    b'0' + (number % 10) as u8
}
