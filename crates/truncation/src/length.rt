// A length of so many units, at least 1.
ghost use Rattle.std.specs.Prelude.{pos, ◌<ℤ◌};

#[derive(Clone, Copy)]
pub struct Length {
    pub(crate) units: i64,
    ghost some: { pos 0 <ℤ units },
}
