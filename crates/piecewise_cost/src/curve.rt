// PiecewiseCost: a generator's curve by its segments, each a slope and an intercept. Callers use Curve, or curve_value, slope_of and
// intercept_of, and none names a table.
ghost use Rattle.std.specs.Prelude.{◌≡◌, List, ℕ, ◌+◌, ◌-◌, ◌*◌, ◌≤◌, ◌<◌, length, Float};
ghost use Rattle.network.specs.Limits.{point_numbers, most_points};
ghost use Rattle.piecewise_cost.specs.Curve.{slope, intercept, evaluate};
ghost use Rattle.piecewise_cost.specs.internal.Prepared.{Prepared};

use network::{Generator, MOST_POINTS};

// A curve has one segment fewer than it has points.
const MOST_SEGMENTS: usize = MOST_POINTS - 1;

// The line from a point of the curve to the next.
#[derive(Clone, Copy, Debug, PartialEq)]
pub struct Segment {
    pub slope: f64,
    pub intercept: f64,
}

// The curve's points, power and value each, stand in a network's numbers from `at` on: the definitions read them by their place in that list
// (`slope xs at s`), so that an exact slice would need a law for each.
#[derive(Clone, Copy)]
pub struct Curve<'a> {
    pub numbers: &'a [f64],
    pub at: usize,
    pub points: usize,
    pub ghost listed: { at + point_numbers * points ≤ length numbers.now },
    pub ghost few: { points ≤ most_points },
}

// The table's first `count` entries are the curve's segments.
#[derive(Clone, Copy, Debug)]
pub struct PiecewiseCost {
    segments: [Segment; MOST_SEGMENTS],
    count: usize,
}

// The segment's slope, from its point to the next; the curve's numbers start at `at`.
// It takes no Curve, and neither do the next one and curve_value: document 02 (d) keeps their contracts word for word.
#[tactic(auto, unfolding(crate::specs::Curve::slope))]
pub fn slope_of(numbers: &[f64], at: usize, segment: usize) -> f64
    requires { at + 2 * segment + 4 ≤ length numbers.now }
    ensures { result ≡ slope numbers.now at segment }
{
    let power = at + 2 * segment;
    let next = at + 2 * (segment + 1);
    (numbers[next + 1] - numbers[power + 1]) / (numbers[next] - numbers[power])
}

#[tactic(auto, unfolding(crate::specs::Curve::intercept))]
pub fn intercept_of(numbers: &[f64], at: usize, segment: usize) -> f64
    requires { at + 2 * segment + 4 ≤ length numbers.now }
    ensures { result ≡ intercept numbers.now at segment }
{
    let slope = slope_of(numbers, at, segment);
    let power = at + 2 * segment;
    numbers[power + 1] - slope * numbers[power]
}

impl<'a> Curve<'a> {
    // Of a generator that is read from these numbers.
    pub fn new(numbers: &'a [f64], generator: &Generator) -> Curve<'a>
        requires { (generator.now.curve + point_numbers * generator.now.points ≤ length numbers.now)
            × (generator.now.points ≤ most_points) }
        ensures { (result.numbers.now ≡ numbers.now) × (result.at ≡ generator.now.curve) × (result.points ≡ generator.now.points) }
    {
        Curve {
            numbers,
            at: generator.curve,
            points: generator.points,
        }
    }

    // How many segments it has.
    pub fn segments(&self) -> usize
        ensures { result ≡ self.now.points - 1 }
    {
        self.points.saturating_sub(1)
    }

    // From point s to the next.
    pub fn segment(&self, s: usize) -> Segment
        requires { s + 1 < self.now.points }
        ensures { (result.slope ≡ slope self.now.numbers.now self.now.at s)
            × (result.intercept ≡ intercept self.now.numbers.now self.now.at s) }
    {
        Segment {
            slope: slope_of(self.numbers, self.at, s),
            intercept: intercept_of(self.numbers, self.at, s),
        }
    }

    // The curve's value at the power.
    pub fn value(&self, power: f64) -> f64
        ensures { result ≡ evaluate self.now.numbers.now self.now.at (self.now.points - 1) power }
    {
        PiecewiseCost::from_prepared(self).evaluate(power)
    }
}

impl PiecewiseCost {
    pub fn from_prepared(curve: &Curve) -> Self
        ensures { (result.count ≡ curve.now.points - 1) × Prepared curve.now.numbers.now curve.now.at result.count result.segments }
    {
        let count = curve.segments();
        let none = Segment {
            slope: 0.0,
            intercept: 0.0,
        };
        let mut segments = [none; MOST_SEGMENTS];
        for s in 0..count {
            segments[s] = curve.segment(s);
        }
        PiecewiseCost { segments, count }
    }

    // The largest over the segments, whichever curve they were made from.
    pub fn evaluate(self, power: f64) -> f64
        requires { self.count < most_points }
        ensures { (xs : List Float) (at : ℕ) → Prepared xs at self.count self.segments → result ≡ evaluate xs at self.count power }
    {
        let mut most = f64::NEG_INFINITY;
        for segment in &self.segments[..self.count] {
            most = float::maximum(most, segment.slope * power + segment.intercept);
        }
        most
    }
}

// The value of the curve of so many points at the power; see slope_of.
pub fn curve_value(numbers: &[f64], at: usize, points: usize, power: f64) -> f64
    requires { (at + 2 * points ≤ length numbers.now) × (points ≤ most_points) }
    ensures { result ≡ evaluate numbers.now at (points - 1) power }
{
    Curve {
        numbers,
        at,
        points,
    }
    .value(power)
}
