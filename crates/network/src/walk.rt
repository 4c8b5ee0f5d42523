// The generators of a network, one after the other: where the numbers of one start hangs on the curves of those before it.
ghost use Rattle.std.specs.Prelude.{◌≡◌, ◌-◌};
ghost use Rattle.std.specs.Iterator.{at_most};
ghost use Rattle.network.specs.Network.{epigraph_column};
ghost use Rattle.network.specs.internal.Records.{Standing, GeneratorStep};

use crate::layout::Cursor;
use crate::records::Generator;
use crate::tables::Tables;

// The generators from the one at the cursor on, with the column of the next epigraph: that one's own, where it has one.
#[derive(Clone, Copy)]
pub struct Generators<'a> {
    pub tables: Tables<'a>,
    pub cursor: Cursor,
    pub epigraph: usize,
    pub ghost standing: { Standing tables.words.now tables.layout cursor },
    pub ghost counted: { epigraph ≡ epigraph_column tables.words.now cursor.index },
}

impl Generators<'_> {
    ghost use Rattle.std.specs.Prelude.{◌<◌};
    ghost use Rattle.network.specs.internal.Records.{GeneratorRead};

    // The generator at the cursor.
    fn here(&self) -> Generator
        requires { self.now.cursor.index < self.now.tables.layout.generators }
        ensures { GeneratorRead self.now.tables.words.now self.now.tables.numbers.now self.now.tables.layout self.now.cursor.index result }
    {
        self.tables.generator_of(self.cursor, self.epigraph)
    }
}

impl<'a> Iterator for Generators<'a> {
    // With its number, since the contract of each loop over generators speaks of the number.
    type Item = (usize, Generator);

    ghost next_gives = { λ s r t.
        GeneratorStep s.tables.words.now s.tables.numbers.now s.tables.layout s.cursor.index r t.cursor.index
        × (t.tables ≡ s.tables) };

    ghost remaining = { λ s. at_most (s.tables.layout.generators - s.cursor.index) };

    fn next(&mut self) -> Option<(usize, Generator)> {
        let index = self.cursor.index;
        if index < self.tables.layout.generators {
            let generator = self.here();
            *self = Generators {
                tables: self.tables,
                cursor: self.tables.form().next_generator(self.cursor),
                epigraph: self.epigraph + usize::from(generator.curved()),
            };
            return Some((index, generator));
        }
        None
    }
}
