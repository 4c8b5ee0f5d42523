// The functions for C.
ghost use Rattle.std.specs.Prelude.{◌≡◌, cond};
ghost use Rattle.base.specs.Fault.{fault_of, packed};
ghost use Rattle.nl.specs.Finder.{find, row_start, row_length};
ghost use Rattle.nl.specs.Same.{same};

use crate::{find_row, row_span, same};

// The refusal's number times 2 to the power 32, plus the place, which is capped.
#[unsafe(no_mangle)]
pub extern "C" fn fervoulk_find_row(
    words: &[u32],
    constants: usize,
    columns: usize,
    r: usize,
) -> u64
    ensures { result ≡ packed (fault_of (find words.now constants columns r)) }
{
    base::packed(find_row(words, constants, columns, r))
}

// Where the part of `row` starts in the words, 0 where it is refused.
#[unsafe(no_mangle)]
#[tactic(auto, unfolding(crate::specs::Finder::row_start))]
pub extern "C" fn fervoulk_row_start(
    words: &[u32],
    constants: usize,
    columns: usize,
    r: usize,
) -> usize
    ensures { result ≡ row_start words.now constants columns r }
{
    row_span(words, constants, columns, r).start
}

// How long it is, 0 where it is refused.
#[unsafe(no_mangle)]
#[tactic(auto, unfolding(crate::specs::Finder::row_length))]
pub extern "C" fn fervoulk_row_length(
    words: &[u32],
    constants: usize,
    columns: usize,
    r: usize,
) -> usize
    ensures { result ≡ row_length words.now constants columns r }
{
    let span = row_span(words, constants, columns, r);
    span.end - span.start
}

// 1 where two models are the same, else 0.
#[unsafe(no_mangle)]
pub extern "C" fn fervoulk_same(
    words_a: &[u32],
    constants_a: &[f64],
    words_b: &[u32],
    constants_b: &[f64],
) -> u32
    ensures { result ≡ cond (same words_a.now constants_a.now
        words_b.now constants_b.now) 1 0 }
{
    u32::from(same(words_a, constants_a, words_b, constants_b))
}
