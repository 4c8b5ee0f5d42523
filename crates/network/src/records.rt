// The records of buses, generators and branches by value.
ghost use Rattle.std.specs.Prelude.{◌≡◌, ◌+◌, ◌<◌, ◌≤◌, length};
ghost use Rattle.network.specs.Limits.{bus_numbers, generator_numbers, branch_numbers};
ghost use Rattle.network.specs.Layout.{branch_at_place};
ghost use Rattle.network.specs.internal.Records.{bus_at_place, generator_at_place};

use crate::layout::GENERATOR_NUMBERS;

// A flag stands beside its numbers, here and in `Generator` and `Branch`, as in the Rust's tables (`voltage_bound_active`,
// `capability_active`, `angle_bound_active`, `thermal_limit_active`): the definitions read each number whether its flag is set or not.
#[derive(Clone, Copy, Debug)]
pub struct Bus {
    pub bounded: bool,
    pub p_d: f64,
    pub q_d: f64,
    pub g_s: f64,
    pub b_s: f64,
    pub vm_min: f64,
    pub vm_max: f64,
    pub va: f64,
    pub vm: f64,
}

// `curve` is the place of the curve's first number, of as many `points` as its word says, 0 for none (a loop over no points does nothing, so an
// Option is no plainer); `epigraph` is the number of its epigraph column, where it has one.
#[derive(Clone, Copy, Debug)]
pub struct Generator {
    pub bus: usize,
    pub bounded: bool,
    pub points: usize,
    pub epigraph: Option<usize>,
    pub curve: usize,
    pub p_min: f64,
    pub p_max: f64,
    pub q_min: f64,
    pub q_max: f64,
    pub cost_q: f64,
    pub cost_c: f64,
    pub cost_0: f64,
    pub pg: f64,
    pub qg: f64,
}

impl Generator {
    ghost use Rattle.std.specs.Prelude.{◌≡◌, ◌-◌, ◌≤◌, is_some};
    ghost use Rattle.network.specs.Limits.{generator_numbers};

    // Whether it has an epigraph column.
    pub fn curved(&self) -> bool
        ensures { result ≡ is_some self.now.epigraph }
    {
        self.epigraph.is_some()
    }

    // The place of its first number: its own numbers stand before its curve's.
    pub fn start(&self) -> usize
        requires { generator_numbers ≤ self.now.curve }
        ensures { result ≡ self.now.curve - generator_numbers }
    {
        self.curve - GENERATOR_NUMBERS
    }
}

#[derive(Clone, Copy, Debug)]
pub struct Branch {
    pub from: usize,
    pub to: usize,
    pub angled: bool,
    pub limited: bool,
    pub g: f64,
    pub b: f64,
    pub g_fr: f64,
    pub b_fr: f64,
    pub g_to: f64,
    pub b_to: f64,
    pub tap: f64,
    pub shift: f64,
    pub angle_min: f64,
    pub angle_max: f64,
    pub s_max: f64,
}

impl Branch {
    ghost use Rattle.std.specs.Prelude.{◌≡◌, ◌&&◌};
    ghost use Rattle.std.specs.Float.Ieee.{lt};
    ghost use Rattle.float.specs.Number.{zero64};

    // Whether it has thermal rows.
    pub fn rated(&self) -> bool
        ensures { result ≡ (self.now.limited && lt zero64 self.now.s_max) }
    {
        let above = 0.0 < self.s_max;
        self.limited & above
    }
}

// A bus, by what its word says and the place of its first number.
pub(crate) fn bus_at(numbers: &[f64], at: usize, bounded: bool) -> Bus
    requires { at + bus_numbers ≤ length numbers.now }
    ensures { result ≡ bus_at_place numbers.now at bounded }
{
    Bus {
        bounded,
        p_d: numbers[at],
        q_d: numbers[at + 1],
        g_s: numbers[at + 2],
        b_s: numbers[at + 3],
        vm_min: numbers[at + 4],
        vm_max: numbers[at + 5],
        va: numbers[at + 6],
        vm: numbers[at + 7],
    }
}

// A generator, by what its word says and the place of its first number.
pub(crate) fn generator_at(
    numbers: &[f64],
    at: usize,
    bus: usize,
    bounded: bool,
    points: usize,
    epigraph: Option<usize>,
) -> Generator
    requires { at + generator_numbers ≤ length numbers.now }
    ensures { result ≡ generator_at_place numbers.now at bus bounded points epigraph }
{
    Generator {
        bus,
        bounded,
        points,
        epigraph,
        curve: at + GENERATOR_NUMBERS,
        p_min: numbers[at],
        p_max: numbers[at + 1],
        q_min: numbers[at + 2],
        q_max: numbers[at + 3],
        cost_q: numbers[at + 4],
        cost_c: numbers[at + 5],
        cost_0: numbers[at + 6],
        pg: numbers[at + 7],
        qg: numbers[at + 8],
    }
}

// A branch, by what its word says and the place of its first number.
pub(crate) fn branch_at(
    numbers: &[f64],
    at: usize,
    from: usize,
    to: usize,
    angled: bool,
    limited: bool,
) -> Branch
    requires { at + branch_numbers ≤ length numbers.now }
    ensures { result ≡ branch_at_place numbers.now at from to angled limited }
{
    Branch {
        from,
        to,
        angled,
        limited,
        g: numbers[at],
        b: numbers[at + 1],
        g_fr: numbers[at + 2],
        b_fr: numbers[at + 3],
        g_to: numbers[at + 4],
        b_to: numbers[at + 5],
        tap: numbers[at + 6],
        shift: numbers[at + 7],
        angle_min: numbers[at + 8],
        angle_max: numbers[at + 9],
        s_max: numbers[at + 10],
    }
}
