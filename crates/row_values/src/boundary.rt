// Row values across the C boundary: each function answers one number of the answer and leaves the lent lists as `row_values` does.
ghost use Rattle.std.specs.Prelude.{◌≡◌, length};
ghost use Rattle.base.specs.Fault.{packed};
ghost use Rattle.model_reading.specs.Counts.{row_counts, counts_or_none};
ghost use Rattle.row_values.specs.Answer.{row_values, shared_after, rows_after};

use crate::row_values;
use model_reading::{Counts, row_counts};
use nl::ModelFile;

// The refusal's number times 2 to the power 32, plus its place, which is capped.
#[unsafe(no_mangle)]
pub extern "C" fn fervoulk_row_values(
    words: &[u32],
    constants: &[f64],
    columns: usize,
    point: &[f64],
    shared: &mut [f64],
    rows: &mut [f64],
) -> u64
    ensures { let ws = words.now in let xs = constants.now in let x = point.now in
        let before = shared.old in let before_rows = rows.old in
        (result ≡ packed (row_values ws xs columns x (length before) (length before_rows)).fault)
        × (shared.new ≡ shared_after ws xs columns x before before_rows)
        × (rows.new ≡ rows_after ws xs columns x before before_rows) }
{
    let answer = row_values(words, constants, columns, point, shared, rows);
    base::packed(answer)
}

// The objective's value, without the objective constant.
#[unsafe(no_mangle)]
pub extern "C" fn fervoulk_row_values_objective(
    words: &[u32],
    constants: &[f64],
    columns: usize,
    point: &[f64],
    shared: &mut [f64],
    rows: &mut [f64],
) -> f64
    ensures { let ws = words.now in let xs = constants.now in let x = point.now in
        let before = shared.old in let before_rows = rows.old in
        (result ≡ (row_values ws xs columns x (length before) (length before_rows)).objective)
        × (shared.new ≡ shared_after ws xs columns x before before_rows)
        × (rows.new ≡ rows_after ws xs columns x before before_rows) }
{
    let answer = row_values(words, constants, columns, point, shared, rows);
    answer.map_or(0.0, |values| values.objective)
}

// How many shared parts and rows a model file has; none where 17 or 2 refuses it.
fn counts_of(words: &[u32], constants: usize, columns: usize) -> Counts
    ensures { result ≡ counts_or_none (row_counts words.now constants columns) }
{
    let file = ModelFile {
        words,
        constants,
        columns,
    };
    row_counts(&file).unwrap_or_default()
}

// How many shared parts a model file has; 0 where 17 or 2 refuses it.
#[unsafe(no_mangle)]
pub extern "C" fn fervoulk_shared_count(words: &[u32], constants: usize, columns: usize) -> usize
    ensures { result ≡ (counts_or_none (row_counts words.now constants columns)).shared }
{
    counts_of(words, constants, columns).shared
}

// How many rows it has; 0 likewise.
#[unsafe(no_mangle)]
pub extern "C" fn fervoulk_row_count(words: &[u32], constants: usize, columns: usize) -> usize
    ensures { result ≡ (counts_or_none (row_counts words.now constants columns)).rows }
{
    counts_of(words, constants, columns).rows
}
