// Two of compile's lists, row lower and row upper: 0 and 0 for balances and references, the branches' bounds for angle differences, and 0
// and 1e19 for every later row, which is a margin.
#![tactic(auto)]

ghost use Rattle.std.specs.Prelude.{◌≡◌, ◌++◌, ◌+◌, ◌≤◌, length, drop, Float};
ghost use Rattle.base.specs.Loop.{tally};
ghost use Rattle.base.specs.internal.Section.{Added, Ends};
ghost use Rattle.network.specs.declared.records.Branch.{Branch};
ghost use Rattle.network.specs.Network.{angled};
ghost use Rattle.acopf.specs.Rows.{rows, row_lower, row_upper};
ghost use Rattle.rows.specs.internal.Bounds.{angle_bounds, row_bounds};

use acopf::Case;
use base::ListWriter;
use network::{Branch, Tables};

// The bounds of the angle differences, of the branches where they are active.
fn write_angles<F: Fn(Branch) -> f64>(out: &mut ListWriter<f64>, tables: &Tables, angle: F)
    requires callable { F.IsAlwaysCallable angle }
    requires room { out.old.at + tally tables.now.layout.branches (angled tables.now.words.now) ≤ length out.old.out.now }
    ensures bounds { (f : Branch → Float) → ((branch : Branch) (v : Float) → F.post angle branch v → v ≡ f branch)
        → Added out.old (angle_bounds tables.now.words.now tables.now.numbers.now f tables.now.layout.branches) out.new }
    ensures next { Ends out.old (tally tables.now.layout.branches (angled tables.now.words.now)) out.new }
{
    for b in 0..tables.layout.branches {
        let branch = tables.branch(b);
        out.push_if(branch.angled, angle(branch));
    }
}

// One of a row's two bounds: the branches' by `angle`, the margins' are `free`.
fn write_bounds<F: Fn(Branch) -> f64>(case: &Case, angle: F, free: f64, out: &mut [f64])
    requires callable { F.IsAlwaysCallable angle }
    requires room { length (rows case.now.tables.words.now case.now.tables.numbers.now) ≤ length out.old }
    ensures { let ws = case.now.tables.words.now in let xs = case.now.tables.numbers.now in
        (f : Branch → Float) → ((branch : Branch) (v : Float) → F.post angle branch v → v ≡ f branch)
        → let bounds = row_bounds ws xs f case.now.tables.layout case.now.tallies free in
        out.new ≡ bounds ++ drop (length bounds) out.old }
{
    let Case { tables, tallies } = case;
    let mut bounds = ListWriter { out, at: 0 };
    // The balances and the references.
    bounds.fill(2 * tables.layout.buses + tables.layout.references, 0.0);
    write_angles(&mut bounds, tables, angle);
    // The margins: two a rated branch, and one a curve's segment.
    bounds.fill(2 * tallies.rated + tallies.segments, free);
}

// Row lower, into the list's front part; the rest stays as it was.
pub fn write_row_lower(case: &Case, out: &mut [f64])
    requires { length (rows case.now.tables.words.now case.now.tables.numbers.now) ≤ length out.old }
    ensures { let bounds = row_lower case.now.tables.words.now case.now.tables.numbers.now in
        out.new ≡ bounds ++ drop (length bounds) out.old }
{
    write_bounds(case, |branch| branch.angle_min, 0.0, out);
}

// Row upper, likewise.
pub fn write_row_upper(case: &Case, out: &mut [f64])
    requires { length (rows case.now.tables.words.now case.now.tables.numbers.now) ≤ length out.old }
    ensures { let bounds = row_upper case.now.tables.words.now case.now.tables.numbers.now in
        out.new ≡ bounds ++ drop (length bounds) out.old }
{
    write_bounds(case, |branch| branch.angle_max, 1e19, out);
}
