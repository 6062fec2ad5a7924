// Types of times of day: seconds and milliseconds of 32 bits, microseconds and nanoseconds of 64.
ghost use Rattle.std.specs.Prelude.{◌≡◌, ◌⊎◌, ℤ, pos, ◌≤ℤ◌, ◌<ℤ◌, unsigned_abs};
ghost use Rattle.truncation.specs.Times.{TowardZero};
ghost use Rattle.truncation.specs.declared.unit.TimeUnit.{TimeUnit as UnitOf};
ghost use Rattle.truncation.specs.declared.unit.TimeUnit.TheVariants.{Second, Millisecond, Microsecond, Nanosecond};

use crate::length::Length;
use crate::unit::TimeUnit;

// A value less its remainder by a length. The remainder has the value's sign.
fn less_remainder(value: i64, length: i64) -> i64
    requires { pos 0 <ℤ length }
    ensures cut { TowardZero (unsigned_abs length) value result }
    ensures between { ((pos 0 ≤ℤ result) × (result ≤ℤ value)) ⊎ ((value ≤ℤ result) × (result ≤ℤ pos 0)) }
{
    value - value % length
}

// A number that holds times of day.
pub trait Native: Copy {
    ghost value: { Self → ℤ };

    // The number less its remainder by a length.
    fn toward_zero(self, length: Length) -> Self
        ensures { TowardZero (unsigned_abs length.units) (value self) (value result) };
}

impl Native for i32 {
    ghost value = { λ v. v };

    fn toward_zero(self, length: Length) -> i32 {
        less_remainder(i64::from(self), length.units) as i32
    }
}

impl Native for i64 {
    ghost value = { λ v. v };

    fn toward_zero(self, length: Length) -> i64 {
        less_remainder(self, length.units)
    }
}

// A type of times of day, by its unit and the numbers that hold it.
pub trait ArrowTimeType {
    type Native: Native;

    ghost measure: { UnitOf };

    fn unit() -> TimeUnit
        ensures { result ≡ measure };
}

pub struct Time32SecondType;

pub struct Time32MillisecondType;

pub struct Time64MicrosecondType;

pub struct Time64NanosecondType;

impl ArrowTimeType for Time32SecondType {
    type Native = i32;

    ghost measure = { Second };

    fn unit() -> TimeUnit {
        TimeUnit::Second
    }
}

impl ArrowTimeType for Time32MillisecondType {
    type Native = i32;

    ghost measure = { Millisecond };

    fn unit() -> TimeUnit {
        TimeUnit::Millisecond
    }
}

impl ArrowTimeType for Time64MicrosecondType {
    type Native = i64;

    ghost measure = { Microsecond };

    fn unit() -> TimeUnit {
        TimeUnit::Microsecond
    }
}

impl ArrowTimeType for Time64NanosecondType {
    type Native = i64;

    ghost measure = { Nanosecond };

    fn unit() -> TimeUnit {
        TimeUnit::Nanosecond
    }
}
