// Shared parts, rows and objective in the order of the file, each read and worked out in one go. The first refusal of a value is kept, and
// reading goes on, because a wrong word further on is refused before it.
ghost use Rattle.std.specs.Prelude.{◌≡◌, ◌+◌, ◌<◌, length, set, Ok};
ghost use Rattle.base.specs.Fault.{or_else, fault_of};
ghost use Rattle.model_reading.specs.Reading.{shared_limit};
ghost use Rattle.row_values.specs.declared.scan.ScanError.TheVariants.{Wrong};
ghost use Rattle.row_values.specs.internal.Run.{scanned_fault, SharedScanned, RowsScanned, EndScanned, FileScanned};

use base::{Reason, Refusal};
use expression::{Evaluation, Scanned};
use model_reading::Counts;
use nl::{Cursor, Mark, WrongWord};

// What leaves a file without values: a wrong word, or more shared parts than may be worked out.
#[derive(Clone, Copy, Debug, PartialEq, Eq)]
pub enum ScanError {
    Wrong(WrongWord),
    Full,
}

impl From<WrongWord> for ScanError {
    ghost from_gives = { λ word error. error ≡ Wrong word };

    fn from(word: WrongWord) -> ScanError {
        ScanError::Wrong(word)
    }
}

// 14 before 19, with the part's beginning word as the place; an earlier refusal goes first.
fn first_fault(earlier: Result<(), Refusal>, part: Scanned, at: usize) -> Result<(), Refusal>
    ensures { fault_of result ≡ or_else (fault_of earlier) (scanned_fault part at) }
{
    earlier?;
    base::unless(part.in_range, Reason::Swing, at)?;
    base::unless(float::is_finite(part.value), Reason::Value, at)
}

// Parts of one kind: how many, where they end, and the first refusal of their values.
#[derive(Clone, Copy, Debug)]
pub struct Run {
    pub count: usize,
    pub end: Cursor,
    pub verdict: Result<(), Refusal>,
}

impl Run {
    // None yet, from there on.
    fn none(from: Cursor) -> Run
        ensures { result ≡ record { count = 0; end = from; verdict = Ok tt } }
    {
        Run {
            count: 0,
            end: from,
            verdict: Ok(()),
        }
    }

    // One part more, whose beginning word stands where those before end.
    fn add(self, part: Scanned) -> Run
        requires { self.count < part.end.at }
        ensures { (result.count ≡ self.count + 1) × (result.end ≡ part.end)
            × (fault_of result.verdict ≡ or_else (fault_of self.verdict) (scanned_fault part self.end.at)) }
    {
        Run {
            count: self.count + 1,
            end: part.end,
            verdict: first_fault(self.verdict, part, self.end.at),
        }
    }
}

// The shared parts, from the first word on; their values go into the array.
//
// A shared part reads what those before have written, and a full array ends the reading, where a row for which there is no room is read
// all the same: one loop for both would ask at each part which it is.
fn scan_shared(inputs: &Evaluation, array: &mut [f64]) -> Result<Run, ScanError>
    requires { length array.old ≡ shared_limit }
    ensures { let e = inputs.now in
        SharedScanned e.words.now e.constants.now e.point.now array.new result }
{
    let file = inputs.file();
    let mut run = Run::none(Cursor::default());
    // As in nl's read_run, the first word that begins no such part is the only exit.
    while file.is_mark(Mark::Shared, run.count, run.end.at) {
        if array.len() <= run.count {
            return Err(ScanError::Full);
        }
        let inputs = Evaluation {
            shared: &array[..run.count],
            ..*inputs
        };
        let part = inputs.scan(file.past(run.end))?;
        array[run.count] = part.value;
        run = run.add(part);
    }
    Ok(run)
}

// Keeps row i's value where there is room for it.
// By its place after a test: a `get_mut` would be no shorter, and its proof would need what is written through the borrow.
fn keep(rows: &mut [f64], i: usize, value: f64)
    ensures { rows.new ≡ set rows.old i value }
{
    if i < rows.len() {
        rows[i] = value;
    }
}

// The rows from there on; their values go to the list, as far as it reaches.
pub(crate) fn scan_rows(
    inputs: &Evaluation,
    from: Cursor,
    rows: &mut [f64],
) -> Result<Run, WrongWord>
    ensures { let e = inputs.now in
        RowsScanned e.words.now e.constants.now e.point.now e.shared.now from.at from.next
        rows.old rows.new result }
{
    let file = inputs.file();
    let mut run = Run::none(from);
    while file.is_mark(Mark::Row, run.count, run.end.at) {
        let row = inputs.scan(file.past(run.end))?;
        keep(rows, run.count, row.value);
        run = run.add(row);
    }
    Ok(run)
}

// The objective there, and the end word.
fn scan_end(inputs: &Evaluation, from: Cursor) -> Result<Scanned, WrongWord>
    ensures { let e = inputs.now in
        EndScanned e.words.now e.constants.now e.point.now e.shared.now from.at from.next result }
{
    let file = inputs.file();
    if !file.is_mark(Mark::Objective, 0, from.at) {
        return Err(WrongWord { place: from.at });
    }
    let objective = inputs.scan(file.past(from))?;
    file.read_last(objective.end)?;
    Ok(objective)
}

// A file that passes reading: how many shared parts and rows it has, where its rows start, the objective's value, and the first refusal
// of a value.
#[derive(Clone, Copy, Debug)]
pub struct File {
    pub counts: Counts,
    pub rows_from: Cursor,
    pub objective: f64,
    pub verdict: Result<(), Refusal>,
}

// The whole file: the shared parts' values go into the array, the rows' to the list, as far as it reaches.
pub(crate) fn scan_file(
    inputs: &Evaluation,
    array: &mut [f64],
    rows: &mut [f64],
) -> Result<File, ScanError>
    requires { length array.old ≡ shared_limit }
    ensures { let e = inputs.now in
        FileScanned e.words.now e.constants.now e.point.now array.new
        rows.old rows.new result }
{
    let shared_run = scan_shared(inputs, array)?;
    let inputs = Evaluation {
        shared: &array[..shared_run.count],
        ..*inputs
    };
    let row_run = scan_rows(&inputs, shared_run.end, rows)?;
    let objective = scan_end(&inputs, row_run.end)?;
    let earlier = shared_run.verdict.and(row_run.verdict);
    Ok(File {
        counts: Counts {
            shared: shared_run.count,
            rows: row_run.count,
        },
        rows_from: shared_run.end,
        objective: objective.value,
        verdict: first_fault(earlier, objective, row_run.end.at),
    })
}
