// The voltages of the buses, and their injections: all p, then all q.
ghost use Rattle.std.specs.Prelude.{◌*◌, ◌≤◌, length};
ghost use Rattle.derived.specs.internal.Agree.{PerBus, Untouched};
ghost use Rattle.derived.specs.internal.Scratch.{VoltagesAre, p_demand, q_demand, InjectionsAre};

use crate::candidate::Candidate;
use pi_model::Complex;

pub(crate) fn voltages(candidate: &Candidate, list: &mut [Complex])
    requires { candidate.now.tables.layout.buses ≤ length list.old }
    ensures { VoltagesAre candidate.now.tables.words.now candidate.now.point.now candidate.now.tables.layout list.new }
{
    for i in 0..candidate.tables.layout.buses {
        list[i] = Complex::from_polar(candidate.vm(i), candidate.va(i));
    }
}

// What each bus takes: its demand, and its shunt at the voltage's square. p, then q.
fn demands(candidate: &Candidate, list: &mut [f64])
    requires { 2 * candidate.now.tables.layout.buses ≤ length list.old }
    ensures { let ws = candidate.now.tables.words.now in let xs = candidate.now.tables.numbers.now in
        let x = candidate.now.point.now in let n = candidate.now.tables.layout.buses in
        PerBus n n (p_demand ws xs x) (q_demand ws xs x) list.new × Untouched (2 * n) list.old list.new }
{
    let n = candidate.tables.layout.buses;
    for i in 0..n {
        let bus = candidate.tables.bus(i);
        let vm = candidate.vm(i);
        list[i] = -bus.p_d - bus.g_s * (vm * vm);
        list[n + i] = -bus.q_d + bus.b_s * (vm * vm);
    }
}

// Adds each generator's output to its bus: pg, and qg.
fn generation(candidate: &Candidate, list: &mut [f64])
    requires { let ws = candidate.now.tables.words.now in let xs = candidate.now.tables.numbers.now in
        let x = candidate.now.point.now in let n = candidate.now.tables.layout.buses in
        (2 * n ≤ length list.old) × (PerBus n n (p_demand ws xs x) (q_demand ws xs x) list.old) }
    ensures { let layout = candidate.now.tables.layout in
        (InjectionsAre candidate.now.tables.words.now candidate.now.tables.numbers.now candidate.now.point.now layout list.new)
        × (Untouched (2 * layout.buses) list.old list.new) }
{
    let n = candidate.tables.layout.buses;
    for (g, generator) in candidate.tables.generators() {
        let bus = generator.bus;
        list[bus] += candidate.pg(g);
        list[n + bus] += candidate.qg(g);
    }
}

pub(crate) fn injections(candidate: &Candidate, list: &mut [f64])
    requires { 2 * candidate.now.tables.layout.buses ≤ length list.old }
    ensures { let layout = candidate.now.tables.layout in
        (InjectionsAre candidate.now.tables.words.now candidate.now.tables.numbers.now candidate.now.point.now layout list.new)
        × (Untouched (2 * layout.buses) list.old list.new) }
{
    demands(candidate, list);
    generation(candidate, list);
}
