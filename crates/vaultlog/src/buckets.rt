// The rows that are filed under each start, in ascending order of the starts.
ghost use Rattle.std.specs.Prelude.{◌≡◌, MatchResult};
ghost use Rattle.std.specs.BTreeMap.{IsEmpty, IsUnchanged};
ghost use Rattle.vaultlog.specs.Filing.{Ascending, OneMore};

use std::alloc::{AllocError, Global};
use std::collections::BTreeMap;
use std::collections::btree_map::Iter;
use thiserror::Error;

#[derive(Drop)]
pub(crate) struct Buckets {
    counts: BTreeMap<i64, u64>,
}

// Why a row could not be filed.
#[derive(Debug, Drop, Error)]
pub(crate) enum Unfiled {
    #[error("no memory for a bucket")]
    NoMemory(#[from(alloc)] AllocError),
    #[error("a bucket has too many rows")]
    CountTooBig,
}

impl Buckets {
    pub(crate) fn new(heap: Global) -> Buckets
        ensures { IsEmpty result.counts }
    {
        Buckets {
            counts: BTreeMap::new(heap),
        }
    }

    // Each start with its count.
    pub(crate) fn iter(&self) -> Iter<'_, i64, u64>
        ensures value { result ≡ self.now.counts.entries }
        ensures ascending { Ascending result }
    {
        self.counts.iter()
    }

    // One row more in the bucket of this start.
    pub(crate) fn file(&mut self, start: i64) -> Result<(), Unfiled>
        ensures { MatchResult result (λ _. OneMore self.old.counts start self.new.counts) (λ _. IsUnchanged self.old.counts self.new.counts) }
    {
        let count = self.counts.entry(start)?.or_insert(0);
        *count = count.checked_add(1).ok_or(Unfiled::CountTooBig)?;
        Ok(())
    }
}
