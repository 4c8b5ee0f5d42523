// The form of a network: words that 1 and 2 do not refuse, with their layout, and where the numbers of a record start.
ghost use Rattle.network.specs.Layout.{LaidWords};

use crate::layout::{BRANCH_NUMBERS, BUS_NUMBERS, Cursor, Layout, record_end};
use crate::word::{generator_points, reference_bus};

// The words, and where things stand in them.
#[derive(Clone, Copy)]
pub struct Form<'a> {
    pub words: &'a [u32],
    pub layout: Layout,
    pub ghost laid: { LaidWords words.now layout },
}

impl Form<'_> {
    ghost use Rattle.std.specs.Prelude.{◌≡◌, not, ◌&&◌, ◌+◌, ◌<◌, eqb};
    ghost use Rattle.network.specs.Limits.{most_numbers};
    ghost use Rattle.network.specs.Network.{bus_at, branch_at, needed, referred};
    ghost use Rattle.network.specs.internal.Records.{Standing};

    // How many numbers the words ask for.
    pub fn numbers_needed(&self) -> usize
        ensures { result ≡ needed self.now.words.now }
    {
        self.layout.branch_numbers + BRANCH_NUMBERS * self.layout.branches
    }

    // The place of bus i's first number.
    pub fn bus_start(&self, i: usize) -> usize
        requires { i < self.now.layout.buses }
        ensures { result ≡ bus_at self.now.words.now i }
    {
        BUS_NUMBERS * i
    }

    // The place of branch b's first number.
    pub fn branch_start(&self, b: usize) -> usize
        requires { b < self.now.layout.branches }
        ensures { (result ≡ branch_at self.now.words.now b) × (result < most_numbers) }
    {
        self.layout.branch_numbers + BRANCH_NUMBERS * b
    }

    // The bus of reference r.
    pub fn reference(&self, r: usize) -> usize
        requires { r < self.now.layout.references }
        ensures { (result ≡ referred self.now.words.now r) × (result < self.now.layout.buses) }
    {
        reference_bus(self.words[self.layout.reference_words + r])
    }

    // The first generator, if there is one.
    pub fn first_generator(&self) -> Cursor
        ensures { (Standing self.now.words.now self.now.layout result) × (result.index ≡ 0) }
    {
        Cursor {
            index: 0,
            at: self.layout.generator_numbers,
        }
    }

    // Whether a generator with so many points has an epigraph column.
    pub(crate) fn has_epigraph(&self, points: usize) -> bool
        ensures { result ≡ (self.now.layout.costs && not (eqb points 0)) }
    {
        let some = points != 0;
        self.layout.costs & some
    }

    pub fn next_generator(&self, cursor: Cursor) -> Cursor
        requires { (Standing self.now.words.now self.now.layout cursor) × (cursor.index < self.now.layout.generators) }
        ensures { (Standing self.now.words.now self.now.layout result) × (result.index ≡ cursor.index + 1) }
    {
        let points = generator_points(self.words[self.layout.generator_words + cursor.index]);
        Cursor {
            index: cursor.index + 1,
            at: record_end(cursor.at, points),
        }
    }
}
