// A network's tables with what is counted of them.
ghost use Rattle.std.specs.Prelude.{◌≡◌};
ghost use Rattle.acopf.specs.Tallies.{Tallied, Few};

use crate::tallies::{Tallies, tallies_of};
use network::Tables;

// The tables and their counts, so that no later function counts again.
#[derive(Clone, Copy)]
pub struct Case<'a> {
    pub tables: Tables<'a>,
    pub tallies: Tallies,
    pub ghost tallied: { Tallied tables.words.now tables.numbers.now tallies },
    pub ghost few: { Few tables.layout tallies },
}

impl<'a> Case<'a> {
    ghost use Rattle.network.specs.Network.{columns};

    #[tactic(auto, using(crate::proofs::Tallied::few))]
    pub fn new(tables: &Tables<'a>) -> Case<'a>
        ensures { result.tables ≡ tables.now }
    {
        Case {
            tables: *tables,
            tallies: tallies_of(tables),
        }
    }

    // How many columns the model has: va, vm, pg, qg, then the epigraphs.
    pub fn columns(&self) -> usize
        ensures { result ≡ columns self.now.tables.words.now }
    {
        let layout = self.tables.layout;
        2 * layout.buses + 2 * layout.generators + self.tallies.epigraphs
    }
}
