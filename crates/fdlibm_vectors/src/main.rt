// Calls sine, cosine, square root and hypotenuse on the vectors of data/vectors.bin (tests/fdlibm/README.md says how they were made)
// and prints how many there were of each, and how many answers were not the stored one to the bit.
#![tactic(auto)]

use little_endian::Record;
use std::{fmt, fs, io};

const RECORD: usize = 32;

#[derive(Clone, Copy)]
enum Function {
    Sin,
    Cos,
    Sqrt,
    Hypot,
}

impl Function {
    fn at(self, x: f64, y: f64) -> f64 {
        match self {
            Function::Sin => fdlibm::sin(x),
            Function::Cos => fdlibm::cos(x),
            Function::Sqrt => fdlibm::sqrt(x),
            Function::Hypot => fdlibm::hypot(x, y),
        }
    }
}

// That a number in the file is no function's.
#[derive(Clone, Copy, Debug, PartialEq, Eq)]
struct UnknownFunction;

impl TryFrom<u64> for Function {
    type Error = UnknownFunction;

    fn try_from(number: u64) -> Result<Function, UnknownFunction> {
        match number {
            0 => Ok(Function::Sin),
            1 => Ok(Function::Cos),
            2 => Ok(Function::Sqrt),
            3 => Ok(Function::Hypot),
            _ => Err(UnknownFunction),
        }
    }
}

// What a record of the file shows: the function, if its number is one's, and whether the answer is the stored one.
struct Tried {
    function: Option<Function>,
    right: bool,
}

impl Tried {
    // None where the record is cut short. Answers are compared by their bits: a NaN's are one pattern, in the file too. A number that is
    // no function's is compared as the hypotenuse's.
    fn of(record: Record) -> Option<Tried> {
        if record.bytes.len() < RECORD {
            return None;
        }
        let function = Function::try_from(record.bits(0)).ok();
        let called = function.unwrap_or(Function::Hypot);
        let answer = called.at(record.float(1), record.float(2));
        Some(Tried {
            function,
            right: float::to_bits(answer) == record.bits(3),
        })
    }
}

#[derive(Clone, Copy, Default)]
struct Counts {
    sin: usize,
    cos: usize,
    sqrt: usize,
    hypot: usize,
    wrong: usize,
}

impl Counts {
    // One record more: a number that is no function's is wrong, and its answer may be wrong besides. No file is so long that a count stops
    // at the largest number.
    fn count(&mut self, tried: Option<Tried>) {
        let Some(Tried { function, right }) = tried else {
            self.wrong = self.wrong.saturating_add(1);
            return;
        };
        let calls = match function {
            Some(Function::Sin) => &mut self.sin,
            Some(Function::Cos) => &mut self.cos,
            Some(Function::Sqrt) => &mut self.sqrt,
            Some(Function::Hypot) => &mut self.hypot,
            None => &mut self.wrong,
        };
        *calls = calls.saturating_add(1);
        self.wrong = self.wrong.saturating_add(usize::from(!right));
    }
}

impl fmt::Display for Counts {
    fn fmt<W: fmt::Write>(&self, f: &mut fmt::Formatter<W>) -> fmt::Result {
        write!(
            f,
            "sin {} cos {} sqrt {} hypot {} wrong {}",
            self.sin, self.cos, self.sqrt, self.hypot, self.wrong
        )
    }
}

fn main(rt: HostRuntime) -> io::Result<()> {
    let bytes = fs::read(&rt, "vectors.bin")?;
    let mut counts = Counts::default();
    for record in bytes.chunks(RECORD) {
        counts.count(Tried::of(Record { bytes: record }));
    }
    println!(rt; "{counts}")
}
