// The flows of every branch, at both ends: they are written among the outputs, and read there.
ghost use Rattle.std.specs.Prelude.{◌+◌, ◌*◌, ◌<◌, ◌≤◌, List, Float, length};
ghost use Rattle.derived.specs.Outputs.{flows};
ghost use Rattle.derived.specs.internal.Scratch.{VoltagesAre, FlowIs, FlowsAre};

use crate::candidate::Candidate;
use network::Tables;
use pi_model::{Complex, Flows, numeric_branch_flow};

// Writes the flows between the voltages where they stand among the outputs.
pub(crate) fn flows(candidate: &Candidate, voltages: &[Complex], list: &mut [f64])
    requires { let layout = candidate.now.tables.layout in (layout.buses ≤ length voltages.now)
        × (VoltagesAre candidate.now.tables.words.now candidate.now.point.now layout voltages.now)
        × (2 * layout.buses + 4 * layout.branches ≤ length list.old) }
    ensures { let ws = candidate.now.tables.words.now in let xs = candidate.now.tables.numbers.now in
        let layout = candidate.now.tables.layout in
        FlowsAre (flows ws xs candidate.now.point.now) layout.buses layout.branches layout.branches list.new }
{
    let tables = &candidate.tables;
    let first = 2 * tables.layout.buses;
    let m = tables.layout.branches;
    for b in 0..m {
        let branch = tables.branch(b);
        let flow = numeric_branch_flow(branch, voltages[branch.from], voltages[branch.to]);
        list[first + b] = flow.p_from;
        list[first + m + b] = flow.q_from;
        list[first + 2 * m + b] = flow.p_to;
        list[first + 3 * m + b] = flow.q_to;
    }
}

// The flows of branch b, of outputs.
pub(crate) fn flows_at(tables: &Tables, outputs: &[f64], b: usize) -> Flows
    requires { let layout = tables.now.layout in
        (b < layout.branches) × (2 * layout.buses + 4 * layout.branches ≤ length outputs.now) }
    ensures { let n = tables.now.layout.buses in let m = tables.now.layout.branches in
        (fs : List (List Float)) → FlowsAre fs n m m outputs.now → FlowIs fs b result }
{
    let first = 2 * tables.layout.buses;
    let m = tables.layout.branches;
    Flows {
        p_from: outputs[first + b],
        q_from: outputs[first + m + b],
        p_to: outputs[first + 2 * m + b],
        q_to: outputs[first + 3 * m + b],
    }
}
