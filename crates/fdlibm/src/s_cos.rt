ghost use Rattle.std.specs.Prelude.{◌≡◌};
ghost use Rattle.fdlibm.specs.Trig.{cos_reduced, cosine};

use crate::e_rem_pio2::{Reduced, rem_pio2};
use crate::k_cos::kernel_cos;
use crate::k_sin::kernel_sin;

#[tactic(auto, unfolding(crate::specs::Trig::cos_reduced))]
fn cos_reduced(v: Reduced) -> f64
    ensures { result ≡ cos_reduced v }
{
    match v.q {
        0 => kernel_cos(v.y0, v.y1),
        1 => -kernel_sin(v.y0, Some(v.y1)),
        2 => -kernel_cos(v.y0, v.y1),
        _ => kernel_sin(v.y0, Some(v.y1)),
    }
}

#[tactic(auto, unfolding(crate::specs::Trig::cosine))]
pub fn cos(x: f64) -> f64
    ensures { result ≡ cosine x }
{
    let ix = float::high_word(x) % 0x8000_0000;
    if ix <= 0x3fe9_21fb {
        kernel_cos(x, 0.0)
    } else if ix >= 0x7ff0_0000 {
        x - x
    } else {
        cos_reduced(rem_pio2(x))
    }
}
