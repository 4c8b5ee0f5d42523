// The Rust's small functions on bounds and starts, with its names and its parameters `lower` and `upper`, and document 01's range of angles.
#![tactic(auto)]

ghost use Rattle.std.specs.Prelude.{◌≡◌, not, ◌||◌};
ghost use Rattle.bounds.specs.Bounds.{finite_or, clamp_start, bounds_right, angle_right, positive_violation};

#[tactic(auto, unfolding(crate::specs::Bounds::finite_or))]
pub fn finite_or(value: f64, fallback: f64) -> f64
    ensures { result ≡ finite_or value fallback }
{
    if float::is_finite(value) {
        value
    } else {
        fallback
    }
}

// A start equal to a bound keeps its own zero's sign. Bounds may cross, as f64::clamp does not allow.
#[tactic(auto, unfolding(crate::specs::Bounds::clamp_start))]
pub fn clamp_start(value: f64, lower: f64, upper: f64) -> f64
    ensures { result ≡ clamp_start value lower upper }
{
    let start = finite_or(value, 0.0);
    let raised = if start < lower { lower } else { start };
    if upper < raised { upper } else { raised }
}

// Whether both are finite and lower is not above upper.
pub fn validate_bounds(lower: f64, upper: f64) -> bool
    ensures { result ≡ bounds_right lower upper }
{
    float::is_finite(lower) && float::is_finite(upper) && lower <= upper
}

// Bounds that are not active are right.
pub fn validate_active(active: bool, lower: f64, upper: f64) -> bool
    ensures { result ≡ (not active || bounds_right lower upper) }
{
    !active || validate_bounds(lower, upper)
}

// Whether an angle lies from -1,024 to 1,024. A NaN does not.
pub fn angle_right(x: f64) -> bool
    ensures { result ≡ angle_right x }
{
    (-1024.0..=1024.0).contains(&x)
}

#[tactic(auto, unfolding(crate::specs::Bounds::positive_violation))]
pub fn positive_violation(value: f64, lower: f64, upper: f64) -> f64
    ensures { result ≡ positive_violation value lower upper }
{
    let below = float::maximum(lower - value, 0.0);
    let above = float::maximum(value - upper, 0.0);
    float::maximum(below, above)
}
