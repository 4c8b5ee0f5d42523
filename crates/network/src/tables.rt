// A network's tables: the two lists with their layout, and their records by name.
ghost use Rattle.network.specs.Layout.{Laid};

use crate::form::Form;
use crate::layout::{Cursor, Layout};
use crate::records::{Branch, Bus, Generator, branch_at, bus_at, generator_at};
use crate::walk::Generators;
use crate::word::{
    branch_angled, branch_from, branch_limited, branch_to, bus_bounded, generator_bounded,
    generator_bus, generator_points,
};

// Words and numbers that 1 to 3 do not refuse, and where the records stand in them. The words and layout stand here and not in a `Form`, since
// they are read everywhere as `tables.words` and `tables.layout`: that form is no plainer.
#[derive(Clone, Copy)]
pub struct Tables<'a> {
    pub words: &'a [u32],
    pub numbers: &'a [f64],
    pub layout: Layout,
    pub ghost laid: { Laid words.now numbers.now layout },
}

impl<'a> Tables<'a> {
    ghost use Rattle.std.specs.Prelude.{◌≡◌, ◌+◌, ◌*◌, ◌<◌, ◌≤◌, length};
    ghost use Rattle.network.specs.Limits.{bus_numbers, point_numbers, branch_numbers, most_points};
    ghost use Rattle.network.specs.Network.{referred, bus_at, branch_at};
    ghost use Rattle.network.specs.internal.Records.{Standing, bus_record, generator_with, BranchRead};

    // The words with their layout.
    pub fn form(&self) -> Form<'a>
        ensures { (result.words.now ≡ self.now.words.now) × (result.layout ≡ self.now.layout) }
    {
        Form {
            words: self.words,
            layout: self.layout,
        }
    }

    pub fn bus(&self, i: usize) -> Bus
        requires { i < self.now.layout.buses }
        ensures { result ≡ bus_record self.now.words.now self.now.numbers.now i }
    {
        let bounded = bus_bounded(self.words[1 + i]);
        bus_at(self.numbers, self.bus_start(i), bounded)
    }

    // The place of the bus's first number.
    pub fn bus_start(&self, i: usize) -> usize
        requires { i < self.now.layout.buses }
        ensures { (result ≡ bus_at self.now.words.now i) × (result + bus_numbers ≤ length self.now.numbers.now) }
    {
        self.form().bus_start(i)
    }

    pub fn branch(&self, b: usize) -> Branch
        requires { b < self.now.layout.branches }
        ensures { BranchRead self.now.words.now self.now.numbers.now self.now.layout b result }
    {
        let at = self.branch_start(b);
        let first = self.layout.branch_words;
        let w = self.words[first + b];
        branch_at(
            self.numbers,
            at,
            branch_from(w),
            branch_to(w),
            branch_angled(w),
            branch_limited(w),
        )
    }

    // The place of the branch's first number.
    pub fn branch_start(&self, b: usize) -> usize
        requires { b < self.now.layout.branches }
        ensures { (result ≡ branch_at self.now.words.now b) × (result + branch_numbers ≤ length self.now.numbers.now) }
    {
        self.form().branch_start(b)
    }

    // The bus of reference r.
    pub fn reference(&self, r: usize) -> usize
        requires { r < self.now.layout.references }
        ensures { (result ≡ referred self.now.words.now r) × (result < self.now.layout.buses) }
    {
        self.form().reference(r)
    }

    // The generator at the cursor. The number of its epigraph column is handed in, and used where it has one: that hangs on the curves of
    // the generators before, which a cursor does not count.
    pub fn generator_of(&self, cursor: Cursor, epigraph: usize) -> Generator
        requires { (Standing self.now.words.now self.now.layout cursor) × (cursor.index < self.now.layout.generators) }
        ensures is { result ≡ generator_with self.now.words.now self.now.numbers.now cursor.index epigraph }
        ensures bus { result.bus < self.now.layout.buses }
        ensures points { result.points ≤ most_points }
        ensures curve { result.curve + point_numbers * result.points ≤ length self.now.numbers.now }
    {
        let first = self.layout.generator_words;
        let w = self.words[first + cursor.index];
        let points = generator_points(w);
        generator_at(
            self.numbers,
            cursor.at,
            generator_bus(w),
            generator_bounded(w),
            points,
            self.form().has_epigraph(points).then_some(epigraph),
        )
    }

    // The generators with their numbers, in order.
    pub fn generators(&self) -> Generators<'a>
        ensures { (result.tables ≡ self.now) × (result.cursor.index ≡ 0) }
    {
        Generators {
            tables: *self,
            cursor: self.form().first_generator(),
            epigraph: 2 * self.layout.buses + 2 * self.layout.generators,
        }
    }
}
