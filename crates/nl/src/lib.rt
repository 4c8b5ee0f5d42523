// The model file, in place of the Rust's pounce_nl: its one reading, the finder of a row, the row's part, and whether two models are
// the same.
//
// Time: each call of `read_expr` takes a word or ends the reading, and so does each turn of its loop, whose first step is such a call.
// A sum that claims 2^28 terms stops where the words stop. Each part takes its beginning word. So the finder ends after steps in
// proportion to the words, whatever they are, and the calls nest 9 deep at most.
#![tactic(auto)]

mod boundary;
mod kind;
mod reader;

ghost use Rattle.std.specs.Prelude.{◌≡◌, ◌+◌, ◌*◌, ◌≤◌, length};
ghost use Rattle.nl.specs.Finder.{find, span_of, row_start, row_words};
ghost use Rattle.nl.specs.Same.{same};

use base::{Reason, Refusal};
pub use boundary::{fervoulk_find_row, fervoulk_row_length, fervoulk_row_start, fervoulk_same};
pub use kind::{Kind, Mark, PartKind, UnknownKind};
pub use reader::{Cursor, DEPTH_LIMIT, FileParts, Head, ModelFile, Parts, Span, WrongWord};

// The functions here take a file's words and its two counts apart, as the public functions and those for C do.

// Where the expression of row r, from 0, stands in a model file, which is checked whole first: 17 and the first wrong word where the
// file does not pass reading, 18 and the number of rows where there is no row r.
#[tactic(auto, unfolding(crate::specs::Finder::find))]
pub fn find_row(words: &[u32], constants: usize, columns: usize, r: usize) -> Result<Span, Refusal>
    ensures { result ≡ find words.now constants columns r }
{
    let file = ModelFile {
        words,
        constants,
        columns,
    };
    let rows = file.read(r)?.rows;
    let absent = Refusal {
        reason: Reason::Row,
        place: rows.count,
    };
    rows.span.ok_or(absent)
}

// The same, and at the first word an empty one where it is refused.
fn row_span(words: &[u32], constants: usize, columns: usize, r: usize) -> Span
    ensures at { result ≡ span_of (find words.now constants columns r) }
    ensures inside { (result.start ≤ result.end) × (result.end ≤ length words.now) }
{
    find_row(words, constants, columns, r).unwrap_or(Span { start: 0, end: 0 })
}

// The words of row r's expression, where they stand; none where it is refused. The slice is the part of the lent words that starts
// at word `row_start`: the same memory, 4 bytes a word further on.
#[tactic(auto, unfolding(crate::specs::Finder::row_words, crate::specs::Finder::row_start))]
pub fn row(words: &[u32], constants: usize, columns: usize, r: usize) -> &[u32]
    ensures { (result.now ≡ row_words words.now constants columns r) × (result.ref_ptr.0 ≡ words.entry.ref_ptr.0)
        × (result.ref_ptr.1 ≡ row_start words.now constants columns r * 4 + words.entry.ref_ptr.1) }
{
    let span = row_span(words, constants, columns, r);
    &words[span.start..span.end]
}

// Whether words are equal, and constants equal as numbers: -0 is 0, NaN is not NaN.
#[tactic(auto, unfolding(crate::specs::Same::same))]
pub fn same(words_a: &[u32], constants_a: &[f64], words_b: &[u32], constants_b: &[f64]) -> bool
    ensures { result ≡ same words_a.now constants_a.now
        words_b.now constants_b.now }
{
    words_a == words_b && constants_a == constants_b
}
