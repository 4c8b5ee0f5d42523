// Replays the cases of row values of data/cases (tests/row_values/cases.py says where they come from and how a record is laid out), and
// prints how many there are and for how many an answer or a list is another.
#![tactic(auto)]

ghost use Rattle.std.specs.Prelude.{◌<◌};

use base::{Reason, Refusal};
use little_endian::{Record, Records, has_front};
use model_reading::{Counts, row_counts};
use nl::ModelFile;
use row_values::{RowValues, row_values};
use std::alloc::{AllocError, Global};
use std::io::Read;
use std::num::NonZeroUsize;
use std::{fs, io};

// The most bytes of data/cases that are read.
const LARGEST: u64 = 65536;

// The most words, and the most constants or columns, that a case's file has: a longer list is none of data/cases, and counts as empty.
const WORDS: u32 = 8768;

const NUMBERS: u32 = 64;

// The length of the two lists of which a front part is lent.
const ROOM: usize = 4416;

// What they hold.
const LENT: f64 = 5.0;

// The record from word i on.
fn from_word(record: Record, i: usize) -> Record
    requires { i < 4294967296 }
{
    Record {
        bytes: record.bytes.get(4 * i..).unwrap_or(&[]),
    }
}

// A list of a case. Of its middle only what repeats is stored, between its head and the rest.
#[derive(Clone, Copy)]
struct List<'a> {
    length: u32,
    head: u32,
    middle: u32,
    stored: Record<'a>,
}

impl<'a> List<'a> {
    // The list whose place is the case's word i.
    fn of(case: Record<'a>, i: usize) -> List<'a> {
        let list = from_word(case, case.number(i));
        List {
            length: list.word(0),
            head: list.word(1),
            middle: list.word(2),
            stored: from_word(list, 3),
        }
    }

    // Where item k is stored, and for what turn, if the middle repeats so many items.
    fn place(self, k: u32, period: u32) -> (usize, u32)
        requires { 0 < period }
    {
        if k < self.head {
            return (k as usize, 0);
        }
        let past_head = k - self.head;
        if past_head < self.middle {
            let i = self.head as usize + (past_head % period) as usize;
            return (i, past_head / period);
        }
        let rest = (past_head - self.middle) as usize;
        (self.head as usize + period as usize + rest, 0)
    }

    // Word k: the first of the two that a middle repeats counts up.
    fn word(self, k: u32) -> u32 {
        let (i, turn) = self.place(k, 2);
        let stored = self.stored.word(i);
        if i == self.head as usize {
            stored.wrapping_add(turn)
        } else {
            stored
        }
    }

    // The bits of value k.
    fn bits(self, k: u32) -> u64 {
        self.stored.bits(self.place(k, 1).0)
    }

    // Its length, or 0 where that is above the most.
    fn length_within(self, most: u32) -> u32 {
        if self.length > most { 0 } else { self.length }
    }

    fn words(self, alloc: Global) -> Result<Vec<u32>, AllocError> {
        (0..self.length_within(WORDS))
            .map(|k| self.word(k))
            .collect(alloc)
    }

    fn values(self, alloc: Global) -> Result<Vec<f64>, AllocError> {
        (0..self.length_within(NUMBERS))
            .map(|k| float::from_bits(self.bits(k)))
            .collect(alloc)
    }

    // Whether the list has its values in front, as far as it reaches, and is as it was lent behind them.
    fn in_front(self, alloc: Global, list: &[f64]) -> Result<bool, AllocError> {
        let stored: Vec<u64> = (0..self.length)
            .take(list.len())
            .map(|k| self.bits(k))
            .collect(alloc)?;
        Ok(has_front(list, &stored, LENT))
    }
}

// The objective's bits, if the case says them: its word 8 adds up which of objective, shared parts and rows it says.
fn objective(case: Record) -> Option<u64> {
    (case.word(8) & 1 != 0).then(|| case.bits(3))
}

// The list of shared parts, if the case says it.
fn shared(case: Record) -> Option<List> {
    (case.word(8) & 2 != 0).then(|| List::of(case, 14))
}

// The list of rows, if the case says it.
fn rows(case: Record) -> Option<List> {
    (case.word(8) & 4 != 0).then(|| List::of(case, 15))
}

// Both lists, whole, where the case says them: what was lent, and what lies behind it.
fn lists_right(
    alloc: Global,
    case: Record,
    shared_list: &[f64],
    row_list: &[f64],
) -> Result<bool, AllocError> {
    Ok(
        shared(case).map_or(Ok(true), |list| list.in_front(alloc, shared_list))?
            && rows(case).map_or(Ok(true), |list| list.in_front(alloc, row_list))?,
    )
}

// The objective, where the case says it, 0 after a refusal.
fn objective_right(case: Record, answer: Result<RowValues, Refusal>) -> bool {
    let worked_out = answer.map_or(0.0, |values| values.objective);
    objective(case).map_or(true, |bits| float::to_bits(worked_out) == bits)
}

// The counts of what is written.
fn written_right(case: Record, values: RowValues) -> bool {
    values.shared == case.number(9) && values.rows == case.number(10)
}

fn answer_right(case: Record, answer: Result<RowValues, Refusal>) -> bool {
    base::shown(answer) == (case.word(4), case.number(5))
        && objective_right(case, answer)
        && answer.map_or(true, |values| written_right(case, values))
}

// The counts of a file: 17 and 2 alone refuse them.
fn counts_right(case: Record, answer: Result<Counts, Refusal>) -> bool {
    let number = case.word(4);
    let refused = number == Reason::Model.number() || number == Reason::Size.number();
    let shown = if refused {
        (number, case.number(5))
    } else {
        (0, 0)
    };
    let counts = answer.unwrap_or_default();
    base::shown(answer) == shown
        && counts.shared == case.number(9)
        && counts.rows == case.number(10)
}

// Row values into two lists of which a front part is lent. There is no room for a longer one: it is none of data/cases, and is wrong.
fn values_right(
    alloc: Global,
    case: Record,
    words: &[u32],
    constants: &[f64],
    point: &[f64],
) -> Result<bool, AllocError> {
    let lent_shared = case.number(2);
    let lent_rows = case.number(3);
    if lent_shared > ROOM || lent_rows > ROOM {
        return Ok(false);
    }
    let mut shared_list = vec![in alloc; LENT; ROOM]?;
    let mut row_list = vec![in alloc; LENT; ROOM]?;
    let answer = row_values(
        words,
        constants,
        case.number(1),
        point,
        &mut shared_list[..lent_shared],
        &mut row_list[..lent_rows],
    );
    Ok(answer_right(case, answer) && lists_right(alloc, case, &shared_list, &row_list)?)
}

fn right(alloc: Global, case: Record) -> Result<bool, AllocError> {
    let words = List::of(case, 11).words(alloc)?;
    let constants = List::of(case, 12).values(alloc)?;
    let point = List::of(case, 13).values(alloc)?;
    let file = ModelFile {
        words: &words,
        constants: constants.len(),
        columns: case.number(1),
    };
    Ok(
        counts_right(case, row_counts(&file))
            && values_right(alloc, case, &words, &constants, &point)?,
    )
}

fn main(rt: HostRuntime) -> io::Result<()> {
    let mut bytes = Vec::new(rt.alloc());
    fs::open(&rt, "cases")?
        .take(LARGEST)
        .read_to_end(&mut bytes)?;
    // Three programs end in these lines: little_endian, which they share, has no heap.
    let answers: Vec<bool> = Records {
        bytes: bytes.as_slice(),
        size: |case: Record| NonZeroUsize::new(4 * case.number(0)),
    }
    .map(|case| right(rt.alloc(), case))
    .try_collect(rt.alloc())?;
    let wrong = answers.iter().filter(|right| !**right).count();
    println!(rt; "{} cases, {wrong} wrong", answers.len())
}
