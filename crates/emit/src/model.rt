// The whole file: shared parts, rows, objective and end.
ghost use Rattle.std.specs.Prelude.{◌≡◌, ◌++◌, ◌≤◌, length, drop};
ghost use Rattle.acopf.specs.Factor.{constants64};
ghost use Rattle.acopf.specs.Model.{file_words};
ghost use Rattle.writer.specs.internal.Tokens.{Written, Room};
ghost use Rattle.emit.specs.internal.Whole.{bus_rows, branch_rows, objective_and_end, row_tokens};

use crate::curves::curve_rows;
use crate::objective::objective;
use crate::rows::{angle_rows, reference_rows, thermal_rows};
use balance::balances;
use network::Tables;
use nl::Mark;
use parts::shared_parts;
use writer::{ModelWriter, WordKind};

// p balances, q balances, references.
fn bus_rows(writer: &mut ModelWriter, tables: &Tables)
    requires { Room writer.old (bus_rows tables.now.words.now tables.now.numbers.now tables.now.layout) }
    ensures { Written writer.old (bus_rows tables.now.words.now tables.now.numbers.now tables.now.layout) writer.new }
{
    balances(writer, tables);
    reference_rows(writer, tables);
}

// Active angle differences, thermal limits, curve segments.
fn branch_rows(writer: &mut ModelWriter, tables: &Tables)
    requires { Room writer.old (branch_rows tables.now.words.now tables.now.numbers.now tables.now.layout) }
    ensures { Written writer.old (branch_rows tables.now.words.now tables.now.numbers.now tables.now.layout) writer.new }
{
    angle_rows(writer, tables);
    thermal_rows(writer, tables);
    curve_rows(writer, tables);
}

fn objective_and_end(writer: &mut ModelWriter, tables: &Tables)
    requires { Room writer.old (objective_and_end tables.now.words.now tables.now.numbers.now tables.now.layout) }
    ensures { Written writer.old
        (objective_and_end tables.now.words.now tables.now.numbers.now tables.now.layout)
        writer.new }
{
    objective(writer, tables);
    writer.put(&[Mark::End.word(0)], &[], 0);
}

// Writes all that follows the shared parts.
fn after_parts(writer: &mut ModelWriter, tables: &Tables)
    requires { Room writer.old (row_tokens tables.now.words.now tables.now.numbers.now tables.now.layout) }
    ensures { Written writer.old (row_tokens tables.now.words.now tables.now.numbers.now tables.now.layout) writer.new }
{
    bus_rows(writer, tables);
    branch_rows(writer, tables);
    objective_and_end(writer, tables);
}

// Writes the model file of a network that 1 to 3 do not refuse, into lists that have room for it.
pub fn write_model(tables: &Tables, model_words: &mut [u32], constants: &mut [f64])
    requires words { length (file_words tables.now.words.now tables.now.numbers.now) ≤ length model_words.old }
    requires constants { length (constants64 tables.now.words.now tables.now.numbers.now) ≤ length constants.old }
    ensures words { let file = file_words tables.now.words.now tables.now.numbers.now in
        model_words.new ≡ file ++ drop (length file) model_words.old }
    ensures constants { let numbers = constants64 tables.now.words.now tables.now.numbers.now in
        constants.new ≡ numbers ++ drop (length numbers) constants.old }
{
    let mut writer = ModelWriter {
        words: model_words,
        constants,
        word: 0,
        constant: 0,
        part: 0,
    };
    shared_parts(&mut writer, tables);
    // Rows are numbered from 0 too.
    writer.part = 0;
    after_parts(&mut writer, tables);
}
