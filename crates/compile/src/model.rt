// The model file and its six lists of bounds, starts and constants, each by the writer that has its definition.
ghost use Rattle.std.specs.Prelude.{◌≡◌, ◌++◌, ◌≤◌, length, drop};
ghost use Rattle.float.specs.Doubles.{Doubles};
ghost use Rattle.network.specs.Network.{columns};
ghost use Rattle.acopf.specs.Columns.{column_lower, column_upper, column_start};
ghost use Rattle.acopf.specs.Rows.{rows, row_lower, row_upper};
ghost use Rattle.compile.specs.Compile.{answer_of, compiled};
ghost use Rattle.compile.specs.Lists.{lists, lent, Held};

use crate::Compiled;
use crate::decide::decided;
use acopf::Case;
use base::Refusal;
use columns::{write_column_lower, write_column_start, write_column_upper};
use emit::write_model;
use rows::{write_row_lower, write_row_upper};

// The columns' three lists.
fn write_columns(case: &Case, lower: &mut [f64], upper: &mut [f64], start: &mut [f64])
    requires { let ws = case.now.tables.words.now in
        (columns ws ≤ length lower.old) × (columns ws ≤ length upper.old) × (columns ws ≤ length start.old) }
    ensures { let ws = case.now.tables.words.now in
        let xs = case.now.tables.numbers.now in
        (lower.new ≡ column_lower ws xs ++ drop (length (column_lower ws xs)) lower.old)
        × (upper.new ≡ column_upper ws xs ++ drop (length (column_upper ws xs)) upper.old)
        × (start.new ≡ column_start ws xs ++ drop (length (column_start ws xs)) start.old) }
{
    write_column_lower(case, lower);
    write_column_upper(case, upper);
    write_column_start(&case.tables, start);
}

// The rows' two lists.
fn write_rows(case: &Case, lower: &mut [f64], upper: &mut [f64])
    requires { let count = length (rows case.now.tables.words.now case.now.tables.numbers.now) in
        (count ≤ length lower.old) × (count ≤ length upper.old) }
    ensures { let ws = case.now.tables.words.now in
        let xs = case.now.tables.numbers.now in
        (lower.new ≡ row_lower ws xs ++ drop (length (row_lower ws xs)) lower.old)
        × (upper.new ≡ row_upper ws xs ++ drop (length (row_upper ws xs)) upper.old) }
{
    write_row_lower(case, lower);
    write_row_upper(case, upper);
}

// compile_ac_opf_model, before augmentation. All refusals come before the first write.
pub fn compile(
    words: &[u32],
    numbers: &[f64],
    model_words: &mut [u32],
    constants: &mut [f64],
    column_lower: &mut [f64],
    column_upper: &mut [f64],
    start: &mut [f64],
    row_lower: &mut [f64],
    row_upper: &mut [f64],
) -> Result<Compiled, Refusal>
    ensures { let ws = words.now in
        let xs = numbers.now in
        let before = lists model_words.old constants.old column_lower.old column_upper.old
        start.old row_lower.old row_upper.old in
        let after = lists model_words.new constants.new column_lower.new column_upper.new
        start.new row_lower.new row_upper.new in
        (answer_of result ≡ compiled ws xs (lent before)) × Held ws xs before after × Doubles xs }
{
    let lengths = [
        model_words.len(),
        constants.len(),
        column_lower.len(),
        column_upper.len(),
        start.len(),
        row_lower.len(),
        row_upper.len(),
    ];
    let (answer, case) = decided(words, numbers, lengths)?;
    write_model(&case.tables, model_words, constants);
    write_columns(&case, column_lower, column_upper, start);
    write_rows(&case, row_lower, row_upper);
    Ok(answer)
}
