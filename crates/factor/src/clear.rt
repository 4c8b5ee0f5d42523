// A network that 1 to 10 do not refuse.
ghost use Rattle.std.specs.Prelude.{◌≡◌};
ghost use Rattle.tables.specs.Fault.{fault_tables};

use acopf::{Case, objective_constants};

// The case of a network that 1 to 10 do not refuse: its numbers are finite and in range, so that the model can be built.
#[derive(Clone, Copy)]
pub struct Clear<'a> {
    pub case: Case<'a>,
    pub ghost clear: { (fault_tables case.tables.words.now case.tables.numbers.now).number ≡ 0 },
}

impl Clear<'_> {
    ghost use Rattle.std.specs.Prelude.{◌<◌, length};
    ghost use Rattle.acopf.specs.Factor.{constants64};

    // How many constants the model has.
    pub fn constants(&self) -> usize
        ensures count { result ≡ length (constants64 self.now.case.tables.words.now self.now.case.tables.numbers.now) }
        ensures few { result < 0x4000 }
    {
        let layout = self.case.tables.layout;
        let tallies = self.case.tallies;
        let objective = objective_constants(layout.costs, layout.generators, tallies.epigraphs);
        4 * layout.buses
            + 16 * layout.branches
            + 2 * tallies.rated
            + 2 * tallies.segments
            + objective
    }
}
