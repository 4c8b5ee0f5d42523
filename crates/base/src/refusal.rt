// The refusals: why, and where.
ghost use Rattle.std.specs.Prelude.{◌≡◌, ◌+◌, ◌<◌, ◌≤◌, IfSome};
ghost use Rattle.base.specs.Fault.{fault, fault_of, fault_at, unless};
ghost use Rattle.base.specs.Refusal.{number_of};

// Each refusal's word.
#[derive(Clone, Copy, Debug, PartialEq, Eq)]
pub enum Reason {
    Words,
    Size,
    Count,
    Blank,
    Curve,
    Shift,
    Bounds,
    Spread,
    Rating,
    Square,
    Factor,
    Short,
    Point,
    Swing,
    Derived,
    Residual,
    Model,
    Row,
    Value,
    Tolerance,
}

impl Reason {
    // The refusals' numbers start at 1, in the order of the words above.
    pub fn number(self) -> u32
        ensures { result ≡ number_of self }
    {
        self as u32 + 1
    }
}

// A refusal: its word, and the place that it names.
#[derive(Clone, Copy, Debug, PartialEq, Eq)]
pub struct Refusal {
    pub reason: Reason,
    pub place: usize,
}

// Refused unless the test holds.
pub fn unless(right: bool, reason: Reason, place: usize) -> Result<(), Refusal>
    ensures { fault_of result ≡ unless right (fault (number_of reason) place) }
{
    if right {
        return Ok(());
    }
    Err(Refusal { reason, place })
}

// Refused where a search has found something, at the place that it has where the search's first place is `from`.
pub fn unless_found(found: Option<usize>, reason: Reason, from: usize) -> Result<(), Refusal>
    requires { IfSome found (λ i. from + i ≤ 0xffff_ffff_ffff_ffff) }
    ensures { fault_of result ≡ fault_at (number_of reason) from found }
{
    match found {
        None => Ok(()),
        Some(i) => Err(Refusal {
            reason,
            place: from + i,
        }),
    }
}
