// What is worked out from a candidate: its outputs, and from them the flows and balances; refusal 15.
ghost use Rattle.std.specs.Prelude.{◌≡◌, ◌+◌, ◌*◌, ◌≤◌, ◌++◌, [], ◌∷◌, List, ℕ, Float, length};
ghost use Rattle.base.specs.Fault.{fault_of};
ghost use Rattle.base.specs.Refusal.{DERIVED};
ghost use Rattle.lists.specs.Finite.{first_non_finite};
ghost use Rattle.derived.specs.Outputs.{flows, outputs, withdrawn, p_from, q_from, p_to, q_to};
ghost use Rattle.derived.specs.internal.Agree.{PerBus};
ghost use Rattle.derived.specs.internal.Scratch.{FlowsAre, Filled};

use crate::bus::{injections, voltages};
use crate::candidate::Candidate;
use crate::flow::{flows, flows_at};
use base::{Reason, Refusal};
use lists::{copy_front, first_non_finite};
use network::{MOST_BUSES, Tables};
use pi_model::{Complex, Flows};

// How many outputs a point of the network has.
pub fn output_count(tables: &Tables) -> usize
    ensures { result ≡ 2 * tables.now.layout.buses + 4 * tables.now.layout.branches }
{
    2 * tables.layout.buses + 4 * tables.layout.branches
}

// 15, of outputs, then of the two objectives.
pub fn derived_fault(outputs: &[f64], solver: f64, own: f64) -> Result<(), Refusal>
    requires { length outputs.now ≤ 2560 }
    ensures { fault_of result ≡ first_non_finite DERIVED (outputs.now ++ (solver ∷ own ∷ [])) }
{
    first_non_finite(outputs, Reason::Derived, 0)?;
    first_non_finite(&[solver, own], Reason::Derived, outputs.len())
}

// Takes each branch's flows from its buses, at its from end, then at its to end: all p, then all q. The flows stand behind 2 n numbers.
pub fn balances(tables: &Tables, outputs: &[f64], list: &mut [f64])
    requires { let layout = tables.now.layout in
        (2 * layout.buses + 4 * layout.branches ≤ length outputs.now) × (2 * layout.buses ≤ length list.old) }
    ensures { let ws = tables.now.words.now in let n = tables.now.layout.buses in let m = tables.now.layout.branches in
        ((fs : List (List Float)) (p q : ℕ → Float) → FlowsAre fs n m m outputs.now → PerBus n n p q list.old
        → PerBus n n (λ i. withdrawn ws i (p_from fs) (p_to fs) (p i)) (λ i. withdrawn ws i (q_from fs) (q_to fs) (q i)) list.new) }
{
    let n = tables.layout.buses;
    for b in 0..tables.layout.branches {
        let branch = tables.branch(b);
        let f = branch.from;
        let t = branch.to;
        let flow = flows_at(tables, outputs, b);
        list[f] -= flow.p_from;
        list[t] -= flow.p_to;
        list[n + f] -= flow.q_from;
        list[n + t] -= flow.q_to;
    }
}

// Fills the list's front with the outputs. The voltages are in an array of their own.
pub fn fill_outputs(candidate: &Candidate, list: &mut [f64])
    requires { let layout = candidate.now.tables.layout in 2 * layout.buses + 4 * layout.branches ≤ length list.old }
    ensures { let tables = candidate.now.tables in
        Filled tables.words.now tables.numbers.now candidate.now.point.now tables.layout list.new }
{
    let mut voltage = [Complex::new(0.0, 0.0); MOST_BUSES];
    voltages(candidate, &mut voltage);
    flows(candidate, &voltage, list);
    injections(candidate, list);
}

// The list is all p injections, all q injections, then all p_from, q_from, p_to and q_to.
#[derive(Clone, Copy)]
pub struct Derived<'a, 'b> {
    pub candidate: Candidate<'a>,
    pub list: &'b [f64],
    pub ghost sized: { length list.now ≡ 2 * candidate.tables.layout.buses + 4 * candidate.tables.layout.branches },
    pub ghost filled: { let ws = candidate.tables.words.now in let xs = candidate.tables.numbers.now in
        let x = candidate.point.now in list.now ≡ outputs ws xs x (flows ws xs x) },
}

impl<'a, 'b> Derived<'a, 'b> {
    ghost use Rattle.std.specs.Prelude.{[], ◌∷◌, ◌++◌, ◌<◌, ◌≤◌};
    ghost use Rattle.base.specs.Fault.{fault_of};
    ghost use Rattle.base.specs.Refusal.{DERIVED};
    ghost use Rattle.lists.specs.Finite.{first_non_finite};
    ghost use Rattle.derived.specs.Outputs.{p_injection, q_injection, withdrawn, p_from, q_from, p_to, q_to};
    ghost use Rattle.derived.specs.internal.Agree.{PerBus};
    ghost use Rattle.derived.specs.internal.Scratch.{FlowIs, Filled};

    // Of a list whose front holds the outputs, however long it is.
    pub fn of(candidate: &Candidate<'a>, filled: &'b [f64]) -> Derived<'a, 'b>
        requires { let tables = candidate.now.tables in
            Filled tables.words.now tables.numbers.now candidate.now.point.now tables.layout filled.now }
        ensures { result.candidate ≡ candidate.now }
    {
        Derived {
            candidate: *candidate,
            list: &filled[..output_count(&candidate.tables)],
        }
    }

    // The outputs fill the front of the list that is lent.
    pub fn new(candidate: &Candidate<'a>, lent: &'b mut [f64]) -> Derived<'a, 'b>
        requires { let layout = candidate.now.tables.layout in 2 * layout.buses + 4 * layout.branches ≤ length lent.now }
        ensures { result.candidate ≡ candidate.now }
    {
        fill_outputs(candidate, lent);
        Derived::of(candidate, lent)
    }

    // The flows of branch b.
    pub fn flows(&self, b: usize) -> Flows
        requires { b < self.now.candidate.tables.layout.branches }
        ensures { let tables = self.now.candidate.tables in
            FlowIs (flows tables.words.now tables.numbers.now self.now.candidate.point.now) b result }
    {
        flows_at(&self.candidate.tables, self.list, b)
    }

    // 15, of the outputs, then of the two objectives.
    pub fn fault(&self, solver: f64, own: f64) -> Result<(), Refusal>
        ensures { fault_of result ≡ first_non_finite DERIVED (self.now.list.now ++ (solver ∷ own ∷ [])) }
    {
        derived_fault(self.list, solver, own)
    }

    // Each bus's injections, less the flows of its branches, at their from end, then at their to end: all p, then all q.
    pub fn balances(&self, list: &mut [f64])
        requires { 2 * self.now.candidate.tables.layout.buses ≤ length list.old }
        ensures { let ws = self.now.candidate.tables.words.now in let xs = self.now.candidate.tables.numbers.now in
            let x = self.now.candidate.point.now in let n = self.now.candidate.tables.layout.buses in let fs = flows ws xs x in
            PerBus n n (λ i. withdrawn ws i (p_from fs) (p_to fs) (p_injection ws xs x i))
            (λ i. withdrawn ws i (q_from fs) (q_to fs) (q_injection ws xs x i)) list.new }
    {
        let n = self.candidate.tables.layout.buses;
        copy_front(&self.list[..2 * n], list);
        balances(&self.candidate.tables, self.list, list);
    }
}
