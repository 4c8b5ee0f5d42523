// A model word: its kind in the top 4 bits, its load in the other 28.
ghost use Rattle.std.specs.Prelude.{◌≡◌, ◌<◌, ℕ};
ghost use Rattle.base.specs.Word.{word};
ghost use Rattle.nl.specs.Kinds.{number_of, mark_number};

use nl::{Kind, Mark};

// For any number of a kind: the files here have 14 kinds of the 16 that 4 bits can name.
pub fn model_word(kind: u32, load: usize) -> u32
    requires { (kind < 16) × (load < 268435456) }
    ensures { result ≡ word kind load }
{
    (kind << 28) | (load as u32)
}

// What a word of the file can be: a kind of an expression's words, or a mark.
pub trait WordKind {
    ghost number: { Self → ℕ };

    fn word(self, load: usize) -> u32
        requires { load < 268435456 }
        ensures { result ≡ word (number self) load };
}

// Not provided by the trait: it would ask for the kind's number, a method that both would write in its place.
impl WordKind for Kind {
    ghost number = { number_of };

    fn word(self, load: usize) -> u32 {
        model_word(self.number(), load)
    }
}

impl WordKind for Mark {
    ghost number = { mark_number };

    fn word(self, load: usize) -> u32 {
        model_word(self.number(), load)
    }
}
