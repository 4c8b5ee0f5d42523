// A model file read without a point: where its parts stand, how many shared parts and rows it has, and its refusals 17 and 2.
#![tactic(auto)]

ghost use Rattle.std.specs.Prelude.{◌≡◌};
ghost use Rattle.model_reading.specs.Reading.{file_layout};
ghost use Rattle.model_reading.specs.Counts.{row_counts};

use base::{Reason, Refusal};
use nl::{FileParts, ModelFile, Span, WrongWord};

// The most shared parts that are worked out.
pub const SHARED_LIMIT: usize = 4352;

// A file that passes reading: its numbers of shared parts and rows, the first row's and the objective's beginning words, and the
// expression of the first shared part too many, where there is one.
// The definitions of specs/Reading go by these names, and `FileParts` keeps a row's expression and the numbers of constants too.
#[derive(Clone, Copy, Debug, PartialEq, Eq)]
pub struct FileLayout {
    pub shared: usize,
    pub rows: usize,
    pub rows_at: usize,
    pub objective_at: usize,
    pub extra: Option<Span>,
}

// Reads the whole file.
#[tactic(auto, unfolding(crate::specs::Reading::file_layout))]
fn read_file(file: &ModelFile) -> Result<FileLayout, WrongWord>
    ensures { let f = file.now in result ≡ file_layout f.words.now f.constants f.columns }
{
    let FileParts { shared, rows } = file.read(SHARED_LIMIT)?;
    Ok(FileLayout {
        shared: shared.count,
        rows: rows.count,
        rows_at: shared.end.at,
        objective_at: rows.end.at,
        extra: shared.span,
    })
}

// How many shared parts and rows a file has.
#[derive(Clone, Copy, Debug, Default, PartialEq, Eq)]
pub struct Counts {
    pub shared: usize,
    pub rows: usize,
}

// The two counts of a model file, without its constants' values: a host sizes its lists by them. 17 where it does not pass reading, 2
// where it has more than 4,352 shared parts.
#[tactic(auto, unfolding(crate::specs::Counts::counts_of))]
pub fn row_counts(file: &ModelFile) -> Result<Counts, Refusal>
    ensures { let f = file.now in result ≡ row_counts f.words.now f.constants f.columns }
{
    let layout = read_file(file)?;
    match layout.extra {
        Some(extra) => Err(Refusal {
            reason: Reason::Size,
            place: extra.start.saturating_sub(1),
        }),
        None => Ok(Counts {
            shared: layout.shared,
            rows: layout.rows,
        }),
    }
}
