// A zone by a table of changes in the caller's memory.
ghost use Rattle.zone.specs.Tables.{LawfulTable};

pub(crate) mod answers;
pub(crate) mod fill;

// From a second on, a new offset.
#[derive(Clone, Copy, PartialEq, Eq, Debug)]
pub struct Change {
    pub second: i64,
    pub offset: i64,
}

// A first offset, and the changes, ascending.
#[derive(Clone, Copy, PartialEq, Eq, Debug)]
pub struct TableZone<'a> {
    first: i64,
    changes: &'a [Change],
    ghost lawful: { LawfulTable first changes.now },
}
