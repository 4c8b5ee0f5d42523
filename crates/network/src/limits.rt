// Refusals 2, size, and 3, count: the limits, and the needed length of the number list.
ghost use Rattle.std.specs.Prelude.{◌≡◌, leb};
ghost use Rattle.base.specs.Fault.{fault, fault_of, unless, first};
ghost use Rattle.base.specs.Refusal.{SIZE};
ghost use Rattle.network.specs.Limits.{most_points};
ghost use Rattle.network.specs.Network.{generator_place, points};
ghost use Rattle.network.specs.Fault.{fault_size, count_fault};

use crate::form::Form;
use crate::layout::{MOST_BRANCHES, MOST_BUSES, MOST_GENERATORS, MOST_POINTS, MOST_REFERENCES};
use crate::sizes::SizedWords;
use crate::word::generator_points;
use base::{Reason, Refusal, unless};

impl SizedWords<'_> {
    // The first generator whose curve has more than nine points.
    fn points_fault(&self) -> Result<(), Refusal>
        ensures { fault_of result ≡ first self.now.sizes.generators (λ g. unless (leb (points self.now.words.now g) most_points)
            (fault SIZE (generator_place self.now.words.now g))) }
    {
        let n = self.sizes.buses;
        for g in 0..self.sizes.generators {
            let points = generator_points(self.words[1 + n + g]);
            unless(points <= MOST_POINTS, Reason::Size, 1 + n + g)?;
        }
        Ok(())
    }

    // 2.
    pub(crate) fn size_fault(&self) -> Result<(), Refusal>
        ensures { fault_of result ≡ fault_size self.now.words.now }
    {
        let n = self.sizes.buses;
        let k = self.sizes.generators;
        let m = self.sizes.branches;
        let r = self.sizes.references;
        unless(1 <= n, Reason::Size, 0)?;
        unless(n <= MOST_BUSES, Reason::Size, 1 + MOST_BUSES)?;
        unless(k <= MOST_GENERATORS, Reason::Size, 1 + n + MOST_GENERATORS)?;
        unless(m <= MOST_BRANCHES, Reason::Size, 1 + n + k + MOST_BRANCHES)?;
        unless(
            r <= MOST_REFERENCES,
            Reason::Size,
            1 + n + k + m + MOST_REFERENCES,
        )?;
        self.points_fault()
    }
}

impl Form<'_> {
    // 3, where `count` is the length of the number list.
    pub(crate) fn count_fault(&self, count: usize) -> Result<(), Refusal>
        ensures { fault_of result ≡ count_fault self.now.words.now count }
    {
        let needed = self.numbers_needed();
        unless(count == needed, Reason::Count, needed)
    }
}
