// An instant by its parts: a whole second, and the nanoseconds since.
ghost use Rattle.std.specs.Prelude.{◌<◌};

pub(crate) mod parts;

#[derive(Clone, Copy)]
pub(crate) struct Moment {
    pub(crate) second: i64,
    pub(crate) nanos: u32,
    ghost below: { nanos < 1000000000 },
}
