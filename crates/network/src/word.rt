// The fields of a network word, by shifts and masks, and whether its load is right.
ghost use Rattle.std.specs.Prelude.{◌≡◌, ◌⊎◌, ◌<◌, ◌≤◌, MatchResult};
ghost use Rattle.network.specs.Kinds.{kind_number};
ghost use Rattle.base.specs.Word.{field, flag};
ghost use Rattle.network.specs.Word.{header_costs, bus_bounded, generator_bus, generator_bounded, generator_points};
ghost use Rattle.network.specs.Word.{branch_from, branch_to, branch_angled, branch_limited, reference_bus, load_right};

// What a word is about.
#[derive(Clone, Copy, Debug, PartialEq, Eq)]
pub enum Kind {
    Header,
    Bus,
    Generator,
    Branch,
    Reference,
}

impl Kind {
    // The number in a word's top bits.
    pub fn number(self) -> u32
        ensures { result ≡ kind_number self }
    {
        self as u32 + 1
    }
}

// That a number is no kind's of a network's words: 0 and those from 6 on.
#[derive(Clone, Copy, Debug, PartialEq, Eq)]
pub struct UnknownKind;

impl TryFrom<u32> for Kind {
    type Error = UnknownKind;

    ghost try_from_gives = { λ number result. MatchResult result (λ kind. kind_number kind ≡ number) (λ _. (number ≡ 0) ⊎ (6 ≤ number)) };

    fn try_from(number: u32) -> Result<Kind, UnknownKind> {
        match number {
            1 => Ok(Kind::Header),
            2 => Ok(Kind::Bus),
            3 => Ok(Kind::Generator),
            4 => Ok(Kind::Branch),
            5 => Ok(Kind::Reference),
            _ => Err(UnknownKind),
        }
    }
}

// `width` bits from bit `low` on.
fn field(w: u32, low: u32, width: u32) -> u32
    requires { (low < 32) × (width < 32) }
    ensures { result ≡ field low width w }
{
    (w >> low) & ((1 << width) - 1)
}

fn flag(w: u32, bit: u32) -> bool
    requires { bit < 32 }
    ensures { result ≡ flag bit w }
{
    field(w, bit, 1) == 1
}

// 1 header: bit 0 costs of the network's generators.
pub fn header_costs(w: u32) -> bool
    ensures { result ≡ header_costs w }
{
    flag(w, 0)
}

// 2 bus: bit 0 voltage bound active.
pub fn bus_bounded(w: u32) -> bool
    ensures { result ≡ bus_bounded w }
{
    flag(w, 0)
}

// 3 generator: bits 0-11 bus, bit 12 capability active, bits 13-17 curve points.
pub fn generator_bus(w: u32) -> usize
    ensures { result ≡ generator_bus w }
{
    field(w, 0, 12) as usize
}

pub fn generator_bounded(w: u32) -> bool
    ensures { result ≡ generator_bounded w }
{
    flag(w, 12)
}

pub fn generator_points(w: u32) -> usize
    ensures { result ≡ generator_points w }
{
    field(w, 13, 5) as usize
}

// 4 branch: bits 0-11 from bus, 12-23 to bus, bit 24 angle bound active, bit 25 thermal limit active.
pub fn branch_from(w: u32) -> usize
    ensures { result ≡ branch_from w }
{
    field(w, 0, 12) as usize
}

pub fn branch_to(w: u32) -> usize
    ensures { result ≡ branch_to w }
{
    field(w, 12, 12) as usize
}

pub fn branch_angled(w: u32) -> bool
    ensures { result ≡ branch_angled w }
{
    flag(w, 24)
}

pub fn branch_limited(w: u32) -> bool
    ensures { result ≡ branch_limited w }
{
    flag(w, 25)
}

// 5 reference: bits 0-11 bus.
pub fn reference_bus(w: u32) -> usize
    ensures { result ≡ reference_bus w }
{
    field(w, 0, 12) as usize
}

// Unnamed load bits are 0, no curve has one point, and each bus number is below the count of bus words before.
pub fn load_right(before: usize, w: u32) -> bool
    ensures { result ≡ load_right before w }
{
    let load = base::load_of(w);
    match Kind::try_from(base::kind_of(w)) {
        Ok(Kind::Header) => load < 0x2,
        Ok(Kind::Bus) => load < 0x2,
        Ok(Kind::Generator) => {
            let named = load < 0x4_0000;
            let there = generator_bus(w) < before;
            let curve = generator_points(w) != 1;
            named & there & curve
        }
        Ok(Kind::Branch) => {
            let named = load < 0x400_0000;
            let from = branch_from(w) < before;
            let to = branch_to(w) < before;
            named & from & to
        }
        Ok(Kind::Reference) => {
            let named = load < 0x1000;
            let there = reference_bus(w) < before;
            named & there
        }
        Err(UnknownKind) => false,
    }
}
