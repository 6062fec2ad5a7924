// Timestamps, alone or on the clock of a zone, and times of day cut to the first instant of their second, day, month or the like.
#![tactic(auto)]

mod boundary;
mod date_trunc;
mod granularity;
mod length;
mod moment;
mod name;
mod reading;
mod readings;
mod time;
mod time_type;
mod unit;
mod with_tz;

pub use date_trunc::{date_trunc_timestamp_value, general_date_trunc};
pub use granularity::Granularity;
pub use time::truncate_time;
pub use time_type::{
    ArrowTimeType, Time32MillisecondType, Time32SecondType, Time64MicrosecondType,
    Time64NanosecondType,
};
pub use unit::{
    ArrowTimestampType, TimeUnit, TimestampMicrosecondType, TimestampMillisecondType,
    TimestampNanosecondType, TimestampSecondType,
};
pub use with_tz::{date_trunc_timestamp_value_with_tz, general_date_trunc_with_tz};
