// How far a branch is above its rating, with no hypotenuse worked out where a quick test shows that it is not.
#![tactic(auto)]

ghost use Rattle.std.specs.Prelude.{◌≡◌};
ghost use Rattle.float.specs.Number.{◌⊖◌, zero64, maximum};
ghost use Rattle.fdlibm.specs.Hypot.{hypotenuse};
ghost use Rattle.hypot_error.specs.internal.Quick.{far_below};

// 1 - 2^-40.
const NEARLY: f64 = f64::from_bits(0x3FEF_FFFF_FFFF_E000);

// 2^-960.
const FLOOR: f64 = f64::from_bits(0x03F0_0000_0000_0000);

// 2^960.
const CEILING: f64 = f64::from_bits(0x7BF0_0000_0000_0000);

// Whether p and q are far below a rating s: then their hypotenuse is at most s.
fn far_below(p: f64, q: f64, s: f64) -> bool
    ensures { result ≡ far_below p q s }
{
    let most = s * s * NEARLY;
    p * p + q * q < most && FLOOR < most && most < CEILING
}

// How far the larger of the apparent powers at a branch's ends is above s_max, and 0 where it is not. The four flows come as floats, since
// `Flows` is pi_model's, which stands above the network, and this crate needs no network.
pub fn violation(p_from: f64, q_from: f64, p_to: f64, q_to: f64, s_max: f64) -> f64
    ensures { result ≡ maximum (maximum (hypotenuse p_from q_from) (hypotenuse p_to q_to) ⊖ s_max) zero64 }
{
    if 0.0 < s_max && far_below(p_from, q_from, s_max) && far_below(p_to, q_to, s_max) {
        return 0.0;
    }
    let at_from = fdlibm::hypot(p_from, q_from);
    let at_to = fdlibm::hypot(p_to, q_to);
    float::maximum(float::maximum(at_from, at_to) - s_max, 0.0)
}
