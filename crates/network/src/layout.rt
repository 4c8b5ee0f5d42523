// Where the words and numbers of each kind stand in a network file, and how many numbers a record has: form.rt and records.rt find a
// record's place by that. No other crate counts by these lengths, but for tables, which steps from point to point of a curve.
ghost use Rattle.std.specs.Prelude.{◌≡◌, ◌+◌, ◌*◌, ◌<◌, ◌≤◌};
ghost use Rattle.network.specs.Limits.{generator_numbers, point_numbers, most_buses, most_generators, most_branches};
ghost use Rattle.network.specs.Network.{generator_at};
ghost use Rattle.network.specs.Fault.{fault_words, fault_size};
ghost use Rattle.network.specs.Layout.{layout_from, layout_of};

use crate::sizes::{SizedWords, Sizes, sizes_of};
use crate::word::{generator_points, header_costs};

// The numbers of a record: of a bus, of a generator before its curve, of a point of a curve, of a branch.
pub const BUS_NUMBERS: usize = 8;

pub const GENERATOR_NUMBERS: usize = 9;

pub const POINT_NUMBERS: usize = 2;

pub const BRANCH_NUMBERS: usize = 11;

// The limits of refusal 2; the last is for each curve.
pub const MOST_BUSES: usize = 256;

pub const MOST_GENERATORS: usize = 256;

pub const MOST_BRANCHES: usize = 512;

pub const MOST_REFERENCES: usize = 256;

pub const MOST_POINTS: usize = 9;

// The counts, the place of the first word and of the first number of each kind (the buses' words start at 1, their numbers at 0), and the
// header's flag.
// Columns and rows are counted from the counts by the sums that the definitions say (`vm_column`, ..), each named by the local that holds it.
#[derive(Clone, Copy, Debug, PartialEq, Eq)]
pub struct Layout {
    pub buses: usize,
    pub generators: usize,
    pub branches: usize,
    pub references: usize,
    pub generator_words: usize,
    pub branch_words: usize,
    pub reference_words: usize,
    pub generator_numbers: usize,
    pub branch_numbers: usize,
    pub costs: bool,
}

// A generator's index and the place of its first number.
#[derive(Clone, Copy, Debug, PartialEq, Eq)]
pub struct Cursor {
    pub index: usize,
    pub at: usize,
}

// Where the numbers of a generator end that start at `at`.
pub(crate) fn record_end(at: usize, points: usize) -> usize
    requires { at + generator_numbers + point_numbers * points < 0xffff_ffff_ffff_ffff }
    ensures { result ≡ at + generator_numbers + point_numbers * points }
{
    at + GENERATOR_NUMBERS + POINT_NUMBERS * points
}

fn layout_from(sizes: Sizes, branch_numbers: usize, costs: bool) -> Layout
    requires { (sizes.buses ≤ most_buses) × (sizes.generators ≤ most_generators) × (sizes.branches ≤ most_branches) }
    ensures { result ≡ layout_from sizes.buses sizes.generators sizes.branches sizes.references
        branch_numbers costs }
{
    let n = sizes.buses;
    let k = sizes.generators;
    let m = sizes.branches;
    Layout {
        buses: n,
        generators: k,
        branches: m,
        references: sizes.references,
        generator_words: 1 + n,
        branch_words: 1 + n + k,
        reference_words: 1 + n + k + m,
        generator_numbers: BUS_NUMBERS * n,
        branch_numbers,
        costs,
    }
}

impl SizedWords<'_> {
    // Where the generators' numbers end and the branches' start.
    fn generators_end(&self) -> usize
        requires { (fault_size self.now.words.now).number ≡ 0 }
        ensures { result ≡ generator_at self.now.words.now self.now.sizes.generators }
    {
        let n = self.sizes.buses;
        let mut at = BUS_NUMBERS * n;
        for g in 0..self.sizes.generators {
            let points = generator_points(self.words[1 + n + g]);
            at = record_end(at, points);
        }
        at
    }

    // Of words that 2 does not refuse either.
    pub(crate) fn layout(&self) -> Layout
        requires { (fault_size self.now.words.now).number ≡ 0 }
        ensures { result ≡ layout_of self.now.words.now }
    {
        layout_from(
            self.sizes,
            self.generators_end(),
            header_costs(self.words[0]),
        )
    }
}

// Of words that refusals 1 and 2 do not refuse.
pub fn layout_of(words: &[u32]) -> Layout
    requires { ((fault_words words.now).number ≡ 0) × ((fault_size words.now).number ≡ 0) }
    ensures { result ≡ layout_of words.now }
{
    let sized = SizedWords {
        words,
        sizes: sizes_of(words),
    };
    sized.layout()
}
