// Residual 3, variable bounds: the columns by section, va, vm, pg, qg, epigraphs. Each section goes on from the largest before it.
ghost use Rattle.std.specs.Prelude.{◌≡◌, ◌≤◌, length, Float};
ghost use Rattle.std.specs.Float.Ieee.{neg};
ghost use Rattle.bounds.specs.Bounds.{huge64};
ghost use Rattle.network.specs.declared.records.Generator.{Generator};
ghost use Rattle.network.specs.internal.Records.{generator_record};
ghost use Rattle.acopf.specs.Columns.{vm_lower, vm_upper};
ghost use Rattle.residuals.specs.Residuals.{variable_bounds};
ghost use Rattle.residuals.specs.internal.Section.{largest_with, outside, held_lower, held_upper};

use acopf::{lower_bound, upper_bound, vm_lower, vm_upper};
use bounds::positive_violation;
use derived::Candidate;
use network::{Generator, Tables};

// Columns with no bounds but -1e19 to 1e19.
fn free_bounds(columns: &[f64], start: f64) -> f64
    ensures { result ≡ largest_with start (length columns.now) (outside columns.now (λ j. neg huge64) (λ j. huge64)) }
{
    let mut most = start;
    for x in columns {
        most = float::maximum(most, positive_violation(*x, -1e19, 1e19));
    }
    most
}

// The column of each bus.
fn vm_bounds(tables: &Tables, columns: &[f64], start: f64) -> f64
    requires { tables.now.layout.buses ≤ length columns.now }
    ensures { let ws = tables.now.words.now in let xs = tables.now.numbers.now in
        result ≡ largest_with start tables.now.layout.buses (outside columns.now (vm_lower ws xs) (vm_upper ws xs)) }
{
    let mut most = start;
    for i in 0..tables.layout.buses {
        let bus = tables.bus(i);
        let off = positive_violation(columns[i], vm_lower(bus), vm_upper(bus));
        most = float::maximum(most, off);
    }
    most
}

// The column of each generator, by its two bounds in the table.
fn generator_bounds<F: Fn(Generator) -> (f64, f64)>(
    tables: &Tables,
    columns: &[f64],
    bounds: F,
    start: f64,
) -> f64
    requires callable { F.IsAlwaysCallable bounds }
    requires room { tables.now.layout.generators ≤ length columns.now }
    ensures { let ws = tables.now.words.now in let xs = tables.now.numbers.now in
        (f : Generator → Float × Float) → ((generator : Generator) (b : Float × Float) → F.post bounds generator b → b ≡ f generator)
        → result ≡ largest_with start tables.now.layout.generators (outside columns.now
        (λ g. held_lower f (generator_record ws xs g)) (λ g. held_upper f (generator_record ws xs g))) }
{
    let mut most = start;
    for (g, generator) in tables.generators() {
        let (low, high) = bounds(generator);
        let lower = lower_bound(generator.bounded, low);
        let upper = upper_bound(generator.bounded, high);
        most = float::maximum(most, positive_violation(columns[g], lower, upper));
    }
    most
}

pub(crate) fn variable_bounds(candidate: &Candidate) -> f64
    ensures { result ≡ variable_bounds candidate.now.tables.words.now candidate.now.tables.numbers.now candidate.now.point.now }
{
    let tables = &candidate.tables;
    let n = tables.layout.buses;
    let k = tables.layout.generators;
    let point = candidate.point;
    let va = free_bounds(&point[..n], 0.0);
    let vm = vm_bounds(tables, &point[n..2 * n], va);
    let pg_columns = &point[2 * n..2 * n + k];
    let pg = generator_bounds(tables, pg_columns, |g| (g.p_min, g.p_max), vm);
    let qg_columns = &point[2 * n + k..2 * n + 2 * k];
    let qg = generator_bounds(tables, qg_columns, |g| (g.q_min, g.q_max), pg);
    free_bounds(&point[2 * n + 2 * k..], qg)
}
