// What the lengths of compile's lists are sums of, beside the layout's own counts: one pass over the generators and one over the branches.
ghost use Rattle.std.specs.Prelude.{◌≡◌, cond, ◌-◌, ◌*◌, ◌≤◌};
ghost use Rattle.base.specs.Loop.{tally};
ghost use Rattle.network.specs.Limits.{most_points};
ghost use Rattle.network.specs.Network.{angled, rated, epigraphs_before};
ghost use Rattle.acopf.specs.Tallies.{segments_before, Tallied};

use network::Tables;

#[derive(Clone, Copy, Debug, PartialEq, Eq)]
pub struct Tallies {
    pub angles: usize,
    pub rated: usize,
    pub segments: usize,
    pub epigraphs: usize,
}

// How many of a curve's segments have rows. Of any flag and number, and so of no Generator.
pub fn row_segments(curved: bool, points: usize) -> usize
    ensures { (result ≡ cond curved (points - 1) 0) × (result ≤ points) }
{
    if curved { points.saturating_sub(1) } else { 0 }
}

// The epigraph columns and the segments with rows.
#[derive(Clone, Copy)]
struct Curves {
    epigraphs: usize,
    segments: usize,
}

fn curve_tallies(tables: &Tables) -> Curves
    ensures { let ws = tables.now.words.now in let k = tables.now.layout.generators in
        (result.epigraphs ≡ epigraphs_before ws k) × (result.epigraphs ≤ k)
        × (result.segments ≡ segments_before ws k) × (result.segments ≤ most_points * k) }
{
    let mut epigraphs = 0usize;
    let mut segments = 0usize;
    for (_, generator) in tables.generators() {
        let curved = generator.curved();
        epigraphs += usize::from(curved);
        segments += row_segments(curved, generator.points);
    }
    Curves {
        epigraphs,
        segments,
    }
}

// The active angle bounds and the active limits above 0.
#[derive(Clone, Copy)]
struct Limits {
    angles: usize,
    rated: usize,
}

fn branch_tallies(tables: &Tables) -> Limits
    ensures { let ws = tables.now.words.now in let m = tables.now.layout.branches in
        (result.angles ≡ tally m (angled ws)) × (result.angles ≤ m)
        × (result.rated ≡ tally m (rated ws tables.now.numbers.now)) × (result.rated ≤ m) }
{
    let mut angles = 0usize;
    let mut ratings = 0usize;
    for b in 0..tables.layout.branches {
        let branch = tables.branch(b);
        angles += usize::from(branch.angled);
        ratings += usize::from(branch.rated());
    }
    Limits {
        angles,
        rated: ratings,
    }
}

pub fn tallies_of(tables: &Tables) -> Tallies
    ensures { Tallied tables.now.words.now tables.now.numbers.now result }
{
    let curves = curve_tallies(tables);
    let limits = branch_tallies(tables);
    Tallies {
        angles: limits.angles,
        rated: limits.rated,
        segments: curves.segments,
        epigraphs: curves.epigraphs,
    }
}
