// The functions of crate nl for C, which a static library alone exports: each calls nl's function of its name and states its clauses again.
#![tactic(auto)]

ghost use Rattle.std.specs.Prelude.{◌≡◌, cond};
ghost use Rattle.base.specs.Fault.{fault_of, packed};
ghost use Rattle.nl.specs.Finder.{find, row_start, row_length};
ghost use Rattle.nl.specs.Same.{same};

// For C: the number times 2 to the power 32, plus the place, which is capped.
#[unsafe(no_mangle)]
pub extern "C" fn fervoulk_find_row(
    words: &[u32],
    constants: usize,
    columns: usize,
    r: usize,
) -> u64
    ensures { result ≡ packed (fault_of (find words.now constants columns r)) }
{
    nl::fervoulk_find_row(words, constants, columns, r)
}

// For C: where the part of `row` starts in the words, 0 where it is refused.
#[unsafe(no_mangle)]
pub extern "C" fn fervoulk_row_start(
    words: &[u32],
    constants: usize,
    columns: usize,
    r: usize,
) -> usize
    ensures { result ≡ row_start words.now constants columns r }
{
    nl::fervoulk_row_start(words, constants, columns, r)
}

// For C: how long it is, 0 where it is refused.
#[unsafe(no_mangle)]
pub extern "C" fn fervoulk_row_length(
    words: &[u32],
    constants: usize,
    columns: usize,
    r: usize,
) -> usize
    ensures { result ≡ row_length words.now constants columns r }
{
    nl::fervoulk_row_length(words, constants, columns, r)
}

// For C: 1 where two models are the same, else 0.
#[unsafe(no_mangle)]
pub extern "C" fn fervoulk_same(
    words_a: &[u32],
    constants_a: &[f64],
    words_b: &[u32],
    constants_b: &[f64],
) -> u32
    ensures { result ≡ cond (same words_a.now constants_a.now
        words_b.now constants_b.now) 1 0 }
{
    nl::fervoulk_same(words_a, constants_a, words_b, constants_b)
}
