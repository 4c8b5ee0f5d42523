// compile across the C boundary: each function returns one number of the answer.
ghost use Rattle.std.specs.Prelude.{◌≡◌};
ghost use Rattle.base.specs.Fault.{packed};
ghost use Rattle.float.specs.Doubles.{Doubles};
ghost use Rattle.compile.specs.Compile.{compiled, sized};
ghost use Rattle.compile.specs.Lists.{lists, lent, Held};

use crate::decide::sized;
use crate::model::compile;

// The refusal's number times 2 to the power 32 plus its place; the lists are left as by compile.
#[unsafe(no_mangle)]
pub extern "C" fn fervoulk_compile(
    words: &[u32],
    numbers: &[f64],
    model_words: &mut [u32],
    constants: &mut [f64],
    column_lower: &mut [f64],
    column_upper: &mut [f64],
    start: &mut [f64],
    row_lower: &mut [f64],
    row_upper: &mut [f64],
) -> u64
    ensures { let ws = words.now in
        let xs = numbers.now in
        let before = lists model_words.old constants.old column_lower.old column_upper.old
        start.old row_lower.old row_upper.old in
        let after = lists model_words.new constants.new column_lower.new column_upper.new
        start.new row_lower.new row_upper.new in
        (result ≡ packed (compiled ws xs (lent before)).fault) × Held ws xs before after × Doubles xs }
{
    let answer = compile(
        words,
        numbers,
        model_words,
        constants,
        column_lower,
        column_upper,
        start,
        row_lower,
        row_upper,
    );
    base::packed(answer)
}

// The numbers of the answer that a host needs before it lends lists: those of lists exactly as long as their results, and 0 where the
// network is refused.
#[unsafe(no_mangle)]
#[tactic(auto, unfolding(crate::specs::Compile::refused))]
pub extern "C" fn fervoulk_words(words: &[u32], numbers: &[f64]) -> usize
    ensures { result ≡ (sized words.now numbers.now).words }
{
    sized(words, numbers).map_or(0, |answer| answer.words)
}

#[unsafe(no_mangle)]
#[tactic(auto, unfolding(crate::specs::Compile::refused))]
pub extern "C" fn fervoulk_constants(words: &[u32], numbers: &[f64]) -> usize
    ensures { result ≡ (sized words.now numbers.now).constants }
{
    sized(words, numbers).map_or(0, |answer| answer.constants)
}

#[unsafe(no_mangle)]
#[tactic(auto, unfolding(crate::specs::Compile::refused))]
pub extern "C" fn fervoulk_columns(words: &[u32], numbers: &[f64]) -> usize
    ensures { result ≡ (sized words.now numbers.now).columns }
{
    sized(words, numbers).map_or(0, |answer| answer.columns)
}

#[unsafe(no_mangle)]
#[tactic(auto, unfolding(crate::specs::Compile::refused))]
pub extern "C" fn fervoulk_rows(words: &[u32], numbers: &[f64]) -> usize
    ensures { result ≡ (sized words.now numbers.now).rows }
{
    sized(words, numbers).map_or(0, |answer| answer.rows)
}

#[unsafe(no_mangle)]
#[tactic(auto, unfolding(crate::specs::Compile::refused))]
pub extern "C" fn fervoulk_shared(words: &[u32], numbers: &[f64]) -> usize
    ensures { result ≡ (sized words.now numbers.now).shared }
{
    sized(words, numbers).map_or(0, |answer| answer.shared)
}

#[unsafe(no_mangle)]
#[tactic(auto, unfolding(crate::specs::Compile::refused))]
pub extern "C" fn fervoulk_objective_constant(words: &[u32], numbers: &[f64]) -> f64
    ensures { result ≡ (sized words.now numbers.now).objective }
{
    sized(words, numbers).map_or(0.0, |answer| answer.objective)
}
