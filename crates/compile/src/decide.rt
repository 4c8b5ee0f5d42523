// The counts of the answer, from the network file, and refusal 12, short. Nothing is written.
ghost use Rattle.std.specs.Prelude.{◌≡◌, cond, not, ◌&&◌, ◌+◌, ◌-◌, ◌*◌, ◌≤◌, eqb, leb, ltb, length, get_or, IfOk};
ghost use Rattle.base.specs.Fault.{fault, fault_of, unless, first};
ghost use Rattle.base.specs.Refusal.{SHORT};
ghost use Rattle.acopf.specs.Model.{file_words};
ghost use Rattle.acopf.specs.Parts.{shared_parts};
ghost use Rattle.acopf.specs.Rows.{rows};
ghost use Rattle.compile.specs.Compile.{answer_of, counted, accepted, compiled, sized};
ghost use Rattle.compile.specs.internal.Decision.{decision_of};

use crate::Compiled;
use acopf::{Case, objective_constant};
use base::{Reason, Refusal, unless_found};
use factor::{Clear, judge};

// A cost's words: one an epigraph column, eight a quadratic cost, and a sum's own from two terms on.
fn cost_words(case: &Case) -> usize
    ensures { let k = case.now.tables.layout.generators in let epigraphs = case.now.tallies.epigraphs in
        (result ≡ cond (ltb 1 k) 1 0 + (epigraphs + 8 * (k - epigraphs))) × (result ≤ 2049) }
{
    let k = case.tables.layout.generators;
    let epigraphs = case.tallies.epigraphs;
    usize::from(1 < k) + (epigraphs + 8 * (k - epigraphs))
}

// Counts the objective's words; without a term it is one constant.
fn objective_words(case: &Case) -> usize
    ensures { let layout = case.now.tables.layout in let k = layout.generators in let epigraphs = case.now.tallies.epigraphs in
        (result ≡ cond (layout.costs && not (eqb k 0)) (cond (ltb 1 k) 1 0 + (epigraphs + 8 * (k - epigraphs))) 1) × (result ≤ 2049) }
{
    let layout = case.tables.layout;
    let some = layout.generators != 0;
    if layout.costs & some {
        return cost_words(case);
    }
    1
}

// The lengths of the results, each a sum over what the network has.
fn words_needed(clear: &Clear) -> usize
    ensures { result ≡ length (file_words clear.now.case.tables.words.now clear.now.case.tables.numbers.now) }
{
    let layout = clear.case.tables.layout;
    let tallies = clear.case.tallies;
    let objective = objective_words(&clear.case);
    15 * layout.buses
        + 2 * layout.generators
        + 74 * layout.branches
        + 2 * layout.references
        + 4 * tallies.angles
        + 16 * tallies.rated
        + 8 * tallies.segments
        + 2
        + objective
}

fn rows_needed(case: &Case) -> usize
    ensures { result ≡ length (rows case.now.tables.words.now case.now.tables.numbers.now) }
{
    let layout = case.tables.layout;
    let tallies = case.tallies;
    2 * layout.buses + layout.references + tallies.angles + 2 * tallies.rated + tallies.segments
}

fn shared_needed(case: &Case) -> usize
    ensures { result ≡ length (shared_parts case.now.tables.words.now case.now.tables.numbers.now) }
{
    case.tables.layout.buses + 8 * case.tables.layout.branches
}

// The answer for a network that is not refused.
fn accepted(clear: &Clear) -> Compiled
    ensures { counted result ≡ accepted clear.now.case.tables.words.now clear.now.case.tables.numbers.now }
{
    let case = &clear.case;
    Compiled {
        words: words_needed(clear),
        constants: clear.constants(),
        columns: case.columns(),
        rows: rows_needed(case),
        shared: shared_needed(case),
        objective: objective_constant(&case.tables),
    }
}

// The answer where each list is exactly as long as its result.
pub fn sized(words: &[u32], numbers: &[f64]) -> Result<Compiled, Refusal>
    ensures { answer_of result ≡ sized words.now numbers.now }
{
    let clear = judge(words, numbers)?;
    Ok(accepted(&clear))
}

// 12: the first list that is shorter than what it needs.
fn short_fault(needs: [usize; 7], lent: [usize; 7]) -> Result<(), Refusal>
    ensures { fault_of result ≡ first 7 (λ i. unless (leb (get_or needs i 0) (get_or lent i 0)) (fault SHORT (i + 1))) }
{
    let short = needs
        .iter()
        .zip(&lent)
        .position(|(need, room)| *room < *need);
    unless_found(short, Reason::Short, 1)
}

// The answer, and the network's case for those who write. Every refusal is decided here, before anything is written.
pub(crate) fn decided<'a>(
    words: &'a [u32],
    numbers: &'a [f64],
    lent: [usize; 7],
) -> Result<(Compiled, Case<'a>), Refusal>
    ensures answer { decision_of result ≡ compiled words.now numbers.now lent }
    ensures words { IfOk result (λ d. d.1.tables.words.now ≡ words.now) }
    ensures numbers { IfOk result (λ d. d.1.tables.numbers.now ≡ numbers.now) }
{
    let clear = judge(words, numbers)?;
    let answer = accepted(&clear);
    let columns = answer.columns;
    let rows = answer.rows;
    let needs = [
        answer.words,
        answer.constants,
        columns,
        columns,
        columns,
        rows,
        rows,
    ];
    short_fault(needs, lent)?;
    Ok((answer, clear.case))
}
