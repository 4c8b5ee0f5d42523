// Replays the model files of data/files, each with the answer that document 01 gives of it (tests/nl/files.py, which says how a
// record is laid out), and prints how many there are and for how many an answer is another.
#![tactic(auto)]

ghost use Rattle.std.specs.Prelude.{◌≤◌, ◌<◌};

use little_endian::{Record, Records};
use std::alloc::{AllocError, Global};
use std::io::Read;
use std::num::NonZeroUsize;
use std::ops::Range;
use std::{fs, io};

// The most words, and the most constants, that a file of a record has.
const MOST: usize = 64;

// The most bytes of data/files that are read.
const LARGEST: u64 = 65536;

// The values of tests/nl/files.py, by their places.
fn value(place: u32) -> f64 {
    match place {
        0 => 0.0,
        1 => -0.0,
        2 => 1.0,
        3 => -1.0,
        4 => 0.5,
        5 => 0.0 / 0.0,
        6 => 1.0 / 0.0,
        _ => -1.0 / 0.0,
    }
}

// The record's words at those places.
fn words(alloc: Global, record: Record, at: Range<usize>) -> Result<Vec<u32>, AllocError> {
    at.map(|i| record.word(i)).collect(alloc)
}

// The constants that they name.
fn values(alloc: Global, record: Record, at: Range<usize>) -> Result<Vec<f64>, AllocError> {
    at.map(|i| value(record.word(i))).collect(alloc)
}

// Whether number, place and part of a row are those of the record, by the finder and by its forms for C.
fn row_right(record: Record, words: &[u32]) -> bool {
    let constants = record.number(1);
    let columns = record.number(2);
    let r = record.number(3);
    let number = record.word(4);
    let place = record.number(5);
    let start = record.number(6);
    let length = record.number(7);
    let packed = u64::from(number) * 0x1_0000_0000 + place as u64;
    base::shown(nl::find_row(words, constants, columns, r)) == (number, place)
        && nl::fervoulk_find_row(words, constants, columns, r) == packed
        && nl::fervoulk_row_start(words, constants, columns, r) == start
        && nl::fervoulk_row_length(words, constants, columns, r) == length
        && words.get(start..start + length) == Some(nl::row(words, constants, columns, r))
}

// A file of more words than MOST is none of data/files, and is wrong.
fn finder_right(alloc: Global, record: Record) -> Result<bool, AllocError> {
    let count = record.number(8);
    if count > MOST {
        return Ok(false);
    }
    Ok(row_right(record, &words(alloc, record, 9..9 + count)?))
}

// Whether `same` and its form for C answer as the record says, for lists of at most MOST.
fn same_right(alloc: Global, record: Record) -> Result<bool, AllocError> {
    if (2..6usize).any(|i| record.number(i) > MOST) {
        return Ok(false);
    }
    let constants_a_at = 6 + record.number(2);
    let words_b_at = constants_a_at + record.number(3);
    let constants_b_at = words_b_at + record.number(4);
    let end = constants_b_at + record.number(5);
    let words_a = words(alloc, record, 6..constants_a_at)?;
    let constants_a = values(alloc, record, constants_a_at..words_b_at)?;
    let words_b = words(alloc, record, words_b_at..constants_b_at)?;
    let constants_b = values(alloc, record, constants_b_at..end)?;
    let answer = record.word(1);
    Ok(
        nl::same(&words_a, &constants_a, &words_b, &constants_b) == (answer == 1)
            && nl::fervoulk_same(&words_a, &constants_a, &words_b, &constants_b) == answer,
    )
}

// What a record is of.
#[derive(Clone, Copy)]
enum Kind {
    Finder,
    Same,
}

// By its number in the file: all but 0 are of `same`.
impl From<u32> for Kind {
    fn from(number: u32) -> Kind {
        match number {
            0 => Kind::Finder,
            _ => Kind::Same,
        }
    }
}

// How many words the record says that it has.
fn size(record: Record) -> usize
    ensures { (1 ≤ result) × (result < 34359738368) }
{
    match Kind::from(record.word(0)) {
        Kind::Finder => 9 + record.number(8),
        Kind::Same => {
            6 + record.number(2) + record.number(3) + record.number(4) + record.number(5)
        }
    }
}

// What the data takes of it: bytes that are no word are no record.
fn bytes_of(record: Record) -> Option<NonZeroUsize> {
    if record.bytes.len() < 4 {
        return None;
    }
    NonZeroUsize::new(4 * size(record))
}

// Past the data a record's words are 0.
fn right(alloc: Global, record: Record) -> Result<bool, AllocError> {
    match Kind::from(record.word(0)) {
        Kind::Finder => finder_right(alloc, record),
        Kind::Same => same_right(alloc, record),
    }
}

fn main(rt: HostRuntime) -> io::Result<()> {
    let mut bytes = Vec::new(rt.alloc());
    fs::open(&rt, "files")?
        .take(LARGEST)
        .read_to_end(&mut bytes)?;
    let records = Records {
        bytes: bytes.as_slice(),
        size: |record| bytes_of(record),
    };
    // Three programs end in these lines: little_endian, which they share, has no heap.
    let answers: Vec<bool> = records
        .map(|record| right(rt.alloc(), record))
        .try_collect(rt.alloc())?;
    let wrong = answers.iter().filter(|right| !**right).count();
    println!(rt; "{} files, {wrong} wrong", answers.len())
}
