// How many words of each kind there are.
ghost use Rattle.std.specs.Prelude.{◌≡◌, ◌+◌, length};
ghost use Rattle.network.specs.Fault.{fault_words};
ghost use Rattle.network.specs.Network.{buses, generators, branches, references};
ghost use Rattle.network.specs.internal.Records.{SizesOf};

use crate::word::Kind;

#[derive(Clone, Copy, Debug, PartialEq, Eq)]
pub struct Sizes {
    pub buses: usize,
    pub generators: usize,
    pub branches: usize,
    pub references: usize,
}

// Words that 1 does not refuse, with how many of each kind there are.
#[derive(Clone, Copy)]
pub(crate) struct SizedWords<'a> {
    pub words: &'a [u32],
    pub sizes: Sizes,
    pub ghost right: { (fault_words words.now).number ≡ 0 },
    pub ghost sized: { SizesOf words.now sizes },
    pub ghost long: { length words.now ≡ 1 + sizes.buses + sizes.generators + sizes.branches + sizes.references },
}

// One pass for the four kinds.
pub fn sizes_of(words: &[u32]) -> Sizes
    ensures { (result.buses ≡ buses words.now) × (result.generators ≡ generators words.now)
        × (result.branches ≡ branches words.now) × (result.references ≡ references words.now) }
{
    let mut buses = 0usize;
    let mut generators = 0usize;
    let mut branches = 0usize;
    let mut references = 0usize;
    for w in words {
        // By number, each kind for itself: four comparisons count without a jump, in whatever order the words stand.
        let kind = base::kind_of(*w);
        buses += usize::from(kind == Kind::Bus.number());
        generators += usize::from(kind == Kind::Generator.number());
        branches += usize::from(kind == Kind::Branch.number());
        references += usize::from(kind == Kind::Reference.number());
    }
    Sizes {
        buses,
        generators,
        branches,
        references,
    }
}
