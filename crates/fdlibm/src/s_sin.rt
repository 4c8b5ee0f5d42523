ghost use Rattle.std.specs.Prelude.{◌≡◌};
ghost use Rattle.fdlibm.specs.Trig.{sin_reduced, sine};

use crate::e_rem_pio2::{Reduced, rem_pio2};
use crate::k_cos::kernel_cos;
use crate::k_sin::kernel_sin;

#[tactic(auto, unfolding(crate::specs::Trig::sin_reduced))]
fn sin_reduced(v: Reduced) -> f64
    ensures { result ≡ sin_reduced v }
{
    match v.q {
        0 => kernel_sin(v.y0, Some(v.y1)),
        1 => kernel_cos(v.y0, v.y1),
        2 => -kernel_sin(v.y0, Some(v.y1)),
        _ => -kernel_cos(v.y0, v.y1),
    }
}

#[tactic(auto, unfolding(crate::specs::Trig::sine))]
pub fn sin(x: f64) -> f64
    ensures { result ≡ sine x }
{
    let ix = float::high_word(x) % 0x8000_0000;
    if ix <= 0x3fe9_21fb {
        kernel_sin(x, None)
    } else if ix >= 0x7ff0_0000 {
        x - x
    } else {
        sin_reduced(rem_pio2(x))
    }
}
