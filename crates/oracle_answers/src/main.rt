// Replays the original Rust's answers of data/answers (tests/differential/src/bin/store.rs says how a record is laid out and how they were
// chosen) through compile and the check, and prints how many there are and for how many the answer or a list is another.
#![tactic(auto)]

ghost use Rattle.std.specs.Prelude.{◌<◌, ◌≤◌};

use base::Refusal;
use compile::Compiled;
use little_endian::{Record, Records, has_front};
use std::alloc::{AllocError, Global};
use std::num::NonZeroUsize;
use std::ops::Range;
use std::{fs, io};

// The most words, and the most numbers, columns or outputs that a record has.
const WORDS: usize = 32;

const NUMBERS: usize = 256;

// The bytes of a part of the file: no record stands in two of them.
const PART: usize = 65536;

// What the lists hold that are lent.
const LENT: f64 = 5.0;

const LENT_WORD: u32 = 5;

// What a record is of.
#[derive(Clone, Copy)]
enum Kind {
    Check,
    Compile,
}

// By its number in the file: all but 0 are of compile.
impl From<u32> for Kind {
    fn from(number: u32) -> Kind {
        match number {
            0 => Kind::Check,
            _ => Kind::Compile,
        }
    }
}

// A stored record, of cells of 64 bits.
#[derive(Clone, Copy)]
struct Cells<'a> {
    record: Record<'a>,
}

impl Cells<'_> {
    // 0 past the data.
    fn cell(self, i: usize) -> u64 {
        self.record.bits(i)
    }

    // A cell's lower half.
    fn word(self, i: usize) -> u32 {
        (self.cell(i) & 0xffff_ffff) as u32
    }

    fn number(self, i: usize) -> usize
        ensures { result < 4294967296 }
    {
        self.word(i) as usize
    }

    // A length, in cell i. One above the most that a record has is none of data/answers, and counts as 0.
    fn length(self, i: usize, most: usize) -> usize
        ensures { result ≤ most }
    {
        let n = self.number(i);
        if n > most { 0 } else { n }
    }

    fn value(self, i: usize) -> f64 {
        self.record.float(i)
    }

    fn words(self, alloc: Global, at: Range<usize>) -> Result<Vec<u32>, AllocError> {
        at.map(|i| self.word(i)).collect(alloc)
    }

    fn values(self, alloc: Global, at: Range<usize>) -> Result<Vec<f64>, AllocError> {
        at.map(|i| self.value(i)).collect(alloc)
    }

    // Whether the list has those cells in front, and the rest as it was lent.
    fn in_front(self, alloc: Global, at: Range<usize>, list: &[f64]) -> Result<bool, AllocError> {
        let stored: Vec<u64> = at.map(|i| self.cell(i)).collect(alloc)?;
        Ok(has_front(list, &stored, LENT))
    }

    // The same of so many words, which stand two a cell from cell i on. `has_front` compares floats by their bits, and a function for both
    // types would take that as a closure, and be longer than this one.
    fn has_words(self, i: usize, count: usize, list: &[u32]) -> bool
        requires { (i < 17179869184) × (count < 4294967296) }
    {
        let at = 2 * i..2 * i + count;
        match list.split_at_checked(count) {
            Some((front, rest)) => {
                front.iter().zip(at).all(|(w, k)| *w == self.record.word(k))
                    && rest.iter().all(|w| *w == LENT_WORD)
            }
            None => false,
        }
    }
}

// A record of the check.
fn point_right(alloc: Global, record: Cells) -> Result<bool, AllocError> {
    let numbers_at = 19 + record.length(2, WORDS);
    let point_at = numbers_at + record.length(3, NUMBERS);
    let tolerances_at = point_at + record.length(4, NUMBERS);
    let outputs_at = tolerances_at + record.length(18, NUMBERS);
    let lent = record.length(5, NUMBERS);
    let mut outputs = vec![in alloc; LENT; lent]?;
    let answer = validate::check(
        &record.words(alloc, 19..numbers_at)?,
        &record.values(alloc, numbers_at..point_at)?,
        &record.values(alloc, point_at..tolerances_at)?,
        record.value(8),
        &record.values(alloc, tolerances_at..outputs_at)?,
        &mut outputs,
    );
    Ok(
        base::shown(answer.verdict) == (record.word(6), record.number(7))
            && float::to_bits(answer.objective()) == record.cell(9)
            && record.in_front(alloc, 10..18, &answer.residuals)?
            && record.in_front(alloc, outputs_at..outputs_at + lent, &outputs)?,
    )
}

// Whether number, place, counts and objective constant are the record's.
fn answer_right(record: Cells, answer: Result<Compiled, Refusal>) -> bool {
    // A network that is refused has counts of 0.
    let counts = answer.unwrap_or_default();
    base::shown(answer) == (record.word(4), record.number(5))
        && counts.words == record.number(6)
        && counts.constants == record.number(7)
        && counts.columns == record.number(8)
        && counts.rows == record.number(9)
        && counts.shared == record.number(10)
        && float::to_bits(counts.objective) == record.cell(11)
}

// The lists that compile is lent.
#[derive(Drop)]
struct Lists {
    words: Vec<u32>,
    constants: Vec<f64>,
    lower: Vec<f64>,
    upper: Vec<f64>,
    start: Vec<f64>,
    row_lower: Vec<f64>,
    row_upper: Vec<f64>,
}

impl Lists {
    fn lent(alloc: Global) -> Result<Lists, AllocError> {
        Ok(Lists {
            words: vec![in alloc; LENT_WORD; 1024]?,
            constants: vec![in alloc; LENT; 256]?,
            lower: vec![in alloc; LENT; 64]?,
            upper: vec![in alloc; LENT; 64]?,
            start: vec![in alloc; LENT; 64]?,
            row_lower: vec![in alloc; LENT; 128]?,
            row_upper: vec![in alloc; LENT; 128]?,
        })
    }

    // Whether they are the record's, which start at cell i.
    fn right(&self, alloc: Global, record: Cells, i: usize) -> Result<bool, AllocError>
        requires { i < 17179869184 }
    {
        let word_count = record.number(6);
        let columns = record.number(8);
        let rows = record.number(9);
        let a = i + word_count.div_ceil(2);
        let b = a + record.number(7);
        let c = b + 3 * columns;
        Ok(
            record.has_words(i, word_count, &self.words)
                && record.in_front(alloc, a..b, &self.constants)?
                && record.in_front(alloc, b..b + columns, &self.lower)?
                && record.in_front(alloc, b + columns..b + 2 * columns, &self.upper)?
                && record.in_front(alloc, b + 2 * columns..c, &self.start)?
                && record.in_front(alloc, c..c + rows, &self.row_lower)?
                && record.in_front(alloc, c + rows..c + 2 * rows, &self.row_upper)?,
        )
    }
}

// compile on lists of its own; the record's start at cell i.
fn compile_right(
    alloc: Global,
    record: Cells,
    i: usize,
    words: &[u32],
    numbers: &[f64],
) -> Result<bool, AllocError>
    requires { i < 17179869184 }
{
    let mut lists = Lists::lent(alloc)?;
    let answer = compile::compile(
        words,
        numbers,
        &mut lists.words,
        &mut lists.constants,
        &mut lists.lower,
        &mut lists.upper,
        &mut lists.start,
        &mut lists.row_lower,
        &mut lists.row_upper,
    );
    Ok(answer_right(record, answer) && lists.right(alloc, record, i)?)
}

// A record of compile.
fn model_right(alloc: Global, record: Cells) -> Result<bool, AllocError> {
    let numbers_at = 12 + record.length(2, WORDS);
    let lists_at = numbers_at + record.length(3, NUMBERS);
    let words = record.words(alloc, 12..numbers_at)?;
    let numbers = record.values(alloc, numbers_at..lists_at)?;
    compile_right(alloc, record, lists_at, &words, &numbers)
}

fn right(alloc: Global, record: Cells) -> Result<bool, AllocError> {
    match Kind::from(record.word(1)) {
        Kind::Check => point_right(alloc, record),
        Kind::Compile => model_right(alloc, record),
    }
}

fn main(rt: HostRuntime) -> io::Result<()> {
    let bytes = fs::read(&rt, "answers")?;
    // Three programs end in these lines: little_endian, which they share, has no heap.
    let answers: Vec<bool> = bytes
        .as_slice()
        .chunks(PART)
        .flat_map(|part| Records {
            bytes: part,
            size: |record| NonZeroUsize::new(8 * Cells { record }.number(0)),
        })
        .map(|record| right(rt.alloc(), Cells { record }))
        .try_collect(rt.alloc())?;
    let wrong = answers.iter().filter(|right| !**right).count();
    println!(rt; "{} answers, {wrong} wrong", answers.len())
}
