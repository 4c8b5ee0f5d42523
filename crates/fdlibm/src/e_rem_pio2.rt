// fdlibm's __ieee754_rem_pio2 up to 2^19*pi/2: x less a multiple of pi/2, in two parts, with the multiple's last two bits.
ghost use Rattle.std.specs.Prelude.{◌≡◌, cond, ◌<◌, ◌-◌, get_or};
ghost use Rattle.fdlibm.specs.RemPio2.{two_parts, third_iteration, exponent_field, second_iteration, npio2_hw, no_cancellation};
ghost use Rattle.fdlibm.specs.RemPio2.{first_iteration, medium, near_positive, near_negative, signed, rem_pio2};

// The high words of n*pi/2, n from 1 to 32.
const NPIO2_HW: [u64; 32] = [
    0x3FF921FB, 0x400921FB, 0x4012D97C, 0x401921FB, 0x401F6A7A, 0x4022D97C, 0x4025FDBB, 0x402921FB,
    0x402C463A, 0x402F6A7A, 0x4031475C, 0x4032D97C, 0x40346B9C, 0x4035FDBB, 0x40378FDB, 0x403921FB,
    0x403AB41B, 0x403C463A, 0x403DD85A, 0x403F6A7A, 0x40407E4C, 0x4041475C, 0x4042106C, 0x4042D97C,
    0x4043A28C, 0x40446B9C, 0x404534AC, 0x4045FDBB, 0x4046C6CB, 0x40478FDB, 0x404858EB, 0x404921FB,
];

const INVPIO2: f64 = 6.36619772367581382433e-01;

const PIO2_1: f64 = 1.57079632673412561417e+00;

const PIO2_1T: f64 = 6.07710050650619224932e-11;

const PIO2_2: f64 = 6.07710050630396597660e-11;

const PIO2_2T: f64 = 2.02226624879595063154e-21;

const PIO2_3: f64 = 2.02226624871116645580e-21;

const PIO2_3T: f64 = 8.47842766036889956997e-32;

#[derive(Clone, Copy)]
pub struct Reduced {
    pub q: u64,
    pub y0: f64,
    pub y1: f64,
}

fn two_parts(n: u64, r: f64, w: f64) -> Reduced
    ensures { result ≡ two_parts n r w }
{
    let y0 = r - w;
    let y1 = (r - y0) - w;
    Reduced { q: n, y0, y1 }
}

fn third_iteration(n: u64, f: f64, t: f64) -> Reduced
    ensures { result ≡ third_iteration n f t }
{
    let w = f * PIO2_3;
    let r = t - w;
    two_parts(n, r, f * PIO2_3T - ((t - r) - w))
}

fn exponent_field(y: f64) -> u64
    ensures { result ≡ exponent_field y }
{
    (float::high_word(y) >> 20) % 2048
}

#[tactic(auto, unfolding(crate::specs::RemPio2::second_iteration))]
fn second_iteration(j: u64, n: u64, f: f64, t: f64) -> Reduced
    ensures { result ≡ second_iteration j n f t }
{
    let w = f * PIO2_2;
    let r = t - w;
    let v = f * PIO2_2T - ((t - r) - w);
    if exponent_field(r - v) + 49 < j {
        third_iteration(n, f, r)
    } else {
        two_parts(n, r, v)
    }
}

fn multiple_hw(n: u64) -> u64
    requires { n < 32 }
    ensures { result ≡ get_or npio2_hw (n - 1) 0 }
{
    NPIO2_HW[n.saturating_sub(1) as usize]
}

#[tactic(auto, unfolding(crate::specs::RemPio2::no_cancellation))]
fn no_cancellation(n: u64, ix: u64) -> bool
    ensures { result ≡ no_cancellation n ix }
{
    n < 32 && ix != multiple_hw(n)
}

#[tactic(auto, unfolding(crate::specs::RemPio2::first_iteration))]
fn first_iteration(ix: u64, t: f64, n: u64) -> Reduced
    ensures { result ≡ first_iteration ix t n }
{
    let f = float::from_whole(n);
    let r = t - f * PIO2_1;
    let w = f * PIO2_1T;
    let j = ix >> 20;
    if !no_cancellation(n, ix) && exponent_field(r - w) + 16 < j {
        second_iteration(j, n, f, r)
    } else {
        two_parts(n, r, w)
    }
}

pub fn medium(x: f64) -> Reduced
    ensures { result ≡ medium x }
{
    let ix = float::high_word(x) % 0x8000_0000;
    let t = float::absolute(x);
    let n = float::truncate(t * INVPIO2 + 0.5);
    first_iteration(ix, t, n)
}

// |x| below 3pi/4: n is 1, or -1, whose last two bits are 3. A factor of 1 or -1 rounds nothing.
fn near<const NEGATIVE: bool>(ix: u64, x: f64) -> Reduced
    ensures { result ≡ cond NEGATIVE (near_negative ix x) (near_positive ix x) }
{
    let (n, sign) = if NEGATIVE { (3, -1.0) } else { (1, 1.0) };
    let z = x - sign * PIO2_1;
    if ix == 0x3ff9_21fb {
        two_parts(n, z - sign * PIO2_2, sign * PIO2_2T)
    } else {
        two_parts(n, z, sign * PIO2_1T)
    }
}

#[tactic(auto, unfolding(crate::specs::RemPio2::signed))]
fn with_sign(negative: bool, v: Reduced) -> Reduced
    ensures { result ≡ signed negative v }
{
    let q = v.q % 4;
    if negative {
        Reduced {
            q: (4 - q) % 4,
            y0: -v.y0,
            y1: -v.y1,
        }
    } else {
        Reduced { q, ..v }
    }
}

#[tactic(auto, unfolding(crate::specs::RemPio2::rem_pio2))]
pub fn rem_pio2(x: f64) -> Reduced
    ensures { result ≡ rem_pio2 x }
{
    let hx = float::high_word(x);
    let ix = hx % 0x8000_0000;
    let negative = hx >= 0x8000_0000;
    match (ix < 0x4002_d97c, negative) {
        (true, true) => near::<true>(ix, x),
        (true, false) => near::<false>(ix, x),
        (false, _) => with_sign(negative, medium(x)),
    }
}
