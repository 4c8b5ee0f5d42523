// Request (a) of document 02: the values of a model file's shared parts, rows and objective at a point.
//
// The file is gone through once: each expression is read under the reading rules and worked out at the same time (crate expression), the
// first refusal of a value is kept, and reading goes on to the end, where every refusal is known (scan.rt). A point of a wrong length and
// a file with too many shared parts are refused by reading alone (crate model_reading). Both lent lists are written once nothing can be
// refused any more: the rows from an array of as many as compile ever writes, or, where a foreign file has more, by going through its
// rows again. The time is in proportion to the words.
#![tactic(auto)]

mod boundary;
mod scan;

ghost use Rattle.std.specs.Prelude.{◌≡◌, ◌++◌, length, drop};
ghost use Rattle.base.specs.Fault.{fault_of};
ghost use Rattle.model_reading.specs.Reading.{shared_limit};
ghost use Rattle.row_values.specs.Answer.{answer_of, row_values, shared_after, rows_after, room_of};
ghost use Rattle.row_values.specs.internal.Run.{Settled, Writable, rows_of};

use base::{Reason, Refusal};
pub use boundary::{
    fervoulk_row_count, fervoulk_row_values, fervoulk_row_values_objective, fervoulk_shared_count,
};
use expression::Evaluation;
use lists::{copy_front, point_fault};
use model_reading::{Counts, SHARED_LIMIT, row_counts};
use nl::ModelFile;
use scan::{File, ScanError, scan_file, scan_rows};

// How many row values are kept before they are written: as many rows as compile ever writes.
const ROWS_KEPT: usize = 4352;

// 12: the list for shared values, else that for row values.
fn room_fault(needed: Counts, lent: Counts) -> Result<(), Refusal>
    ensures { fault_of result ≡ room_of needed.shared needed.rows lent.shared lent.rows }
{
    base::unless(needed.shared <= lent.shared, Reason::Short, 1)?;
    base::unless(needed.rows <= lent.rows, Reason::Short, 2)
}

// Goes through the file: its first refusal, or else all that is to be written. Of a point of another length than there are columns, the
// file's own refusals go before 13.
fn settled(
    inputs: &Evaluation,
    columns: usize,
    lent: Counts,
    shared: &mut [f64],
    rows: &mut [f64],
) -> Result<File, Refusal>
    requires { length shared.old ≡ shared_limit }
    ensures { let e = inputs.now in
        Settled e.words.now e.constants.now columns e.point.now lent shared.new rows.new result }
{
    let unread = ModelFile {
        columns,
        ..inputs.file()
    };
    if inputs.point.len() != columns {
        let counts = row_counts(&unread)?;
        room_fault(counts, lent)?;
        return Err(Refusal {
            reason: Reason::Point,
            place: columns,
        });
    }
    match scan_file(inputs, shared, rows) {
        Ok(file) => {
            room_fault(file.counts, lent)?;
            point_fault(inputs.point, columns)?;
            file.verdict?;
            Ok(file)
        }
        Err(ScanError::Wrong(word)) => Err(Refusal::from(word)),
        Err(ScanError::Full) => Err(row_counts(&unread).unwrap_err()),
    }
}

// The objective's value, and how many shared parts and rows have theirs in the lists.
#[derive(Clone, Copy, Debug)]
pub struct RowValues {
    pub objective: f64,
    pub shared: usize,
    pub rows: usize,
}

// The row values, written: from those kept, or, where there are more, by going through the rows again.
fn write_rows(inputs: &Evaluation, file: &File, kept: &[f64], out: &mut [f64])
    requires { let e = inputs.now in
        Writable e.words.now e.constants.now e.point.now e.shared.now file.now kept.now (length out.old) }
    ensures { let e = inputs.now in
        out.new ≡ rows_of e.words.now e.constants.now e.point.now e.shared.now file.now
        ++ drop file.now.counts.rows out.old }
{
    let rows = file.counts.rows;
    if rows <= kept.len() {
        copy_front(&kept[..rows], out);
        return;
    }
    let _again = scan_rows(inputs, file.rows_from, out);
}

// Every shared part's, row's and the objective's value of a model file at a point.
pub fn row_values(
    words: &[u32],
    constants: &[f64],
    columns: usize,
    point: &[f64],
    shared_out: &mut [f64],
    rows_out: &mut [f64],
) -> Result<RowValues, Refusal>
    ensures { let ws = words.now in let xs = constants.now in let x = point.now in
        let shared = shared_out.old in let rows = rows_out.old in
        (answer_of result ≡ row_values ws xs columns x (length shared) (length rows))
        × (shared_out.new ≡ shared_after ws xs columns x shared rows)
        × (rows_out.new ≡ rows_after ws xs columns x shared rows) }
{
    let mut shared = [0.0; SHARED_LIMIT];
    let mut rows = [0.0; ROWS_KEPT];
    let lent = Counts {
        shared: shared_out.len(),
        rows: rows_out.len(),
    };
    let inputs = Evaluation {
        words,
        constants,
        point,
        shared: &[],
    };
    let file = settled(&inputs, columns, lent, &mut shared, &mut rows)?;
    let shared = &shared[..file.counts.shared];
    copy_front(shared, shared_out);
    write_rows(&Evaluation { shared, ..inputs }, &file, &rows, rows_out);
    Ok(RowValues {
        objective: file.objective,
        shared: file.counts.shared,
        rows: file.counts.rows,
    })
}
