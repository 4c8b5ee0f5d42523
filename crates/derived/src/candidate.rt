// What the check measures: a network's tables with a point for the columns of its model; refusal 13.
ghost use Rattle.std.specs.Prelude.{◌≡◌, ◌+◌, ◌*◌, length};
ghost use Rattle.network.specs.Network.{epigraphs_before};

use acopf::Case;
use base::Refusal;
use lists::point_fault;
use network::Tables;

// The point has a number for each column: va, vm, pg, qg, then the epigraphs.
#[derive(Clone, Copy)]
pub struct Candidate<'a> {
    pub tables: Tables<'a>,
    pub point: &'a [f64],
    pub ghost given: { let layout = tables.layout in
        length point.now ≡ 2 * layout.buses + 2 * layout.generators + epigraphs_before tables.words.now layout.generators },
}

impl<'a> Candidate<'a> {
    ghost use Rattle.std.specs.Prelude.{◌<◌, IfOk};
    ghost use Rattle.base.specs.Fault.{fault_of};
    ghost use Rattle.lists.specs.Finite.{point_fault};
    ghost use Rattle.network.specs.Network.{columns};
    ghost use Rattle.derived.specs.Outputs.{va, vm, pg, qg};

    // 13, unless the point is one of the case.
    pub fn new(case: &Case<'a>, point: &'a [f64]) -> Result<Candidate<'a>, Refusal>
        ensures fault { fault_of result ≡ point_fault point.now (columns case.now.tables.words.now) }
        ensures tables { IfOk result (λ candidate. candidate.tables ≡ case.now.tables) }
        ensures point { IfOk result (λ candidate. candidate.point.now ≡ point.now) }
    {
        point_fault(point, case.columns())?;
        Ok(Candidate {
            tables: case.tables,
            point,
        })
    }

    // The voltage angle at bus i.
    pub fn va(&self, i: usize) -> f64
        requires { i < self.now.tables.layout.buses }
        ensures { result ≡ va self.now.tables.words.now self.now.point.now i }
    {
        self.point[i]
    }

    // The voltage magnitude at bus i.
    pub fn vm(&self, i: usize) -> f64
        requires { i < self.now.tables.layout.buses }
        ensures { result ≡ vm self.now.tables.words.now self.now.point.now i }
    {
        self.point[self.tables.layout.buses + i]
    }

    // The active power of generator g.
    pub fn pg(&self, g: usize) -> f64
        requires { g < self.now.tables.layout.generators }
        ensures { result ≡ pg self.now.tables.words.now self.now.point.now g }
    {
        self.point[2 * self.tables.layout.buses + g]
    }

    // The reactive power of generator g.
    pub fn qg(&self, g: usize) -> f64
        requires { g < self.now.tables.layout.generators }
        ensures { result ≡ qg self.now.tables.words.now self.now.point.now g }
    {
        self.point[2 * self.tables.layout.buses + self.tables.layout.generators + g]
    }
}
