// The day of the week.
ghost use Rattle.std.specs.Prelude.{◌≡◌, ◌<◌, Some};
ghost use Rattle.arith.specs.Weekdays.{EpochIsThursday, WeekdaysTurn, weekday as weekday_of};
ghost use Rattle.calendar.specs.DateTimes.{number_of};
ghost use Rattle.calendar.specs.Texts.{weekday_name};
ghost use Rattle.calendar.specs.Weeks.{OnWeekday};

use crate::date::Date;
use crate::day::Day;
use std::fmt;

#[derive(Clone, Copy, PartialEq, Eq, Debug)]
pub enum Weekday {
    Monday,
    Tuesday,
    Wednesday,
    Thursday,
    Friday,
    Saturday,
    Sunday,
}

impl Weekday {
    fn name(&self) -> &'static str
        ensures { result.now ≡ weekday_name self.now }
    {
        match self {
            Weekday::Monday => "Mon",
            Weekday::Tuesday => "Tue",
            Weekday::Wednesday => "Wed",
            Weekday::Thursday => "Thu",
            Weekday::Friday => "Fri",
            Weekday::Saturday => "Sat",
            Weekday::Sunday => "Sun",
        }
    }
}

impl fmt::Display for Weekday {
    ghost output = { λ weekday. Some (weekday_name weekday) };

    fn fmt<W: fmt::Write>(&self, f: &mut fmt::Formatter<W>) -> fmt::Result {
        f.pad(self.name())
    }
}

impl Day {
    pub(crate) fn days_since_monday(self) -> u8
        ensures value { result ≡ weekday_of self.number }
        ensures bound { result < 7 }
        ensures laws { EpochIsThursday × WeekdaysTurn }
    {
        (self.number + 3).rem_euclid(7) as u8
    }

    fn weekday(self) -> Weekday
        ensures { OnWeekday self.number result }
    {
        match self.days_since_monday() {
            0 => Weekday::Monday,
            1 => Weekday::Tuesday,
            2 => Weekday::Wednesday,
            3 => Weekday::Thursday,
            4 => Weekday::Friday,
            5 => Weekday::Saturday,
            _ => Weekday::Sunday,
        }
    }
}

impl Date {
    pub fn weekday(self) -> Weekday
        ensures { OnWeekday (number_of self) result }
    {
        self.day().weekday()
    }
}
