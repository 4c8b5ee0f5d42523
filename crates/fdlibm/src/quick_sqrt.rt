// The square root from a guess by float arithmetic that whole numbers correct and check; the bitwise root answers where they can not.
ghost use Rattle.std.specs.Prelude.{◌≡◌, ℕ, ◌+◌, ◌*◌, ◌<◌, ◌≤◌, ◌/◌, ◌%◌, ◌^◌, pos, ◌-ℤ◌, IfSome};
ghost use Rattle.fdlibm.specs.Sqrt.{square_root};
ghost use Rattle.fdlibm.specs.internal.Near.{Near};

use crate::e_sqrt;

// A guess of the root of the number from 1 below 4 whose pattern is 1.0's and n. Nothing is claimed of it: settled() checks it.
// A first guess of 1/sqrt(z) from the halved pattern, three of Newton's steps, and one for the root itself bring it mostly within an ulp.
fn guess(n: u64) -> f64
    requires { n < 2 ^ 53 }
{
    let b = n + 0x3ff0_0000_0000_0000;
    let z = f64::from_bits(b);
    let h = 0.5 * z;
    let y0 = f64::from_bits(0x5fe6_eb50_c7b5_37a9 - b / 2);
    let y1 = y0 * (1.5 - h * y0 * y0);
    let y2 = y1 * (1.5 - h * y1 * y1);
    let y = y2 * (1.5 - h * y2 * y2);
    let s = z * y;
    s + 0.5 * y * (z - s * s)
}

// What the square of p lacks of d * 2^52, where that fits.
fn rest(d: u64, p: u64) -> Option<i64>
    requires { (d < 2 ^ 54) × (p < 2 ^ 54) }
    ensures { IfSome result (λ r. r ≡ pos (d * 2 ^ 52) -ℤ pos (p * p)) }
{
    let square = i128::from(p) * i128::from(p);
    i64::try_from(i128::from(d) * 0x10_0000_0000_0000 - square).ok()
}

// The number nearest to the root of d * 2^52, where that is p or a neighbour of p: p itself where the rest is above -p and at most p.
fn settled(d: u64, p: u64) -> Option<u64>
    requires { (d < 2 ^ 54) × (p < 2 ^ 54) }
    ensures { IfSome result (λ w. Near (d * 2 ^ 52) w × (w ≤ 2 ^ 54)) }
{
    let rest = rest(d, p)?;
    let margin = p as i64;
    if rest <= 2 - margin * 3 || rest > margin * 3 + 2 {
        None
    } else if rest > margin {
        Some(p + 1)
    } else if rest <= -margin {
        Some(p - 1)
    } else {
        Some(p)
    }
}

// The root, where a guess settles it.
fn quick(x: f64) -> Option<f64>
    ensures { IfSome result (λ r. r ≡ square_root x) }
{
    let b = float::to_bits(x);
    if !(0x10_0000_0000_0000..0x7ff0_0000_0000_0000).contains(&b) {
        return None;
    }
    let s = guess((b - 0x10_0000_0000_0000) % 0x20_0000_0000_0000);
    // the significand, where s is from 1/2 below 4: 2^52 at 1
    let p = (float::to_bits(s) % 0x40_0000_0000_0000 + 0x20_0000_0000_0000) % 0x40_0000_0000_0000;
    let e = b / 0x10_0000_0000_0000 + 1021;
    let m = b % 0x10_0000_0000_0000 + 0x10_0000_0000_0000;
    let w = settled(e_sqrt::even_exponent(m, e), p)?;
    Some(f64::from_bits(w + e / 2 * 0x10_0000_0000_0000))
}

// The definition again. Where a guess could not be checked, the bitwise root answers.
pub fn sqrt(x: f64) -> f64
    ensures { result ≡ square_root x }
{
    quick(x).unwrap_or_else(|| e_sqrt::sqrt(x))
}
