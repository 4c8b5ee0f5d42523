// The records of a file, one after the other.
ghost use Rattle.std.specs.Prelude.{◌≡◌, ◌⊎◌, [], length, drop, Some, None, MatchOption};
ghost use Rattle.std.specs.Iterator.{at_most};
ghost use Rattle.std.specs.NonZero.{non_zero_usize_get};
ghost use Rattle.std.specs.declared.num.NonZeroUsize.{NonZeroUsize};
ghost use Rattle.little_endian.specs.declared.Record.{Record};

use crate::Record;
use std::num::NonZeroUsize;

// The bytes behind the first n: none where there are fewer.
fn behind(bytes: &[u8], n: usize) -> &[u8]
    ensures { result.now ≡ drop n bytes.now }
{
    bytes.get(n..).unwrap_or(&[])
}

// What is left of the file, and how many bytes a record takes: None where no more come.
#[derive(Drop)]
pub struct Records<'a, F> {
    pub bytes: &'a [u8],
    pub size: F,
}

impl<'a, F: Fn(Record<'a>) -> Option<NonZeroUsize> + Drop> Iterator for Records<'a, F> {
    type Item = Record<'a>;

    ghost can_next = { λ s. F.IsAlwaysCallable s.size };

    // Each record that comes takes at least one byte, and those behind it are left; none comes of no bytes, or where there is no size.
    ghost next_gives = { λ s r t. (t.size ≡ s.size) × MatchOption r
        ((s.bytes.now ≡ []) ⊎ ((item : Record) × (item.bytes ≡ s.bytes) × F.post s.size item None))
        (λ item. (item.bytes ≡ s.bytes) × ((size : NonZeroUsize) × F.post s.size item (Some size)
        × (t.bytes.now ≡ drop (non_zero_usize_get size) s.bytes.now))) };

    ghost remaining = { λ s. at_most (length s.bytes.now) };

    // A record that is cut short is the last.
    fn next(&mut self) -> Option<Record<'a>> {
        let record = Record { bytes: self.bytes };
        let size = (self.size)(record)?;
        if self.bytes.is_empty() {
            return None;
        }
        self.bytes = behind(self.bytes, size.get());
        Some(record)
    }
}
