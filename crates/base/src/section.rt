// A lent list that is written section by section, each from the place on where the one before it ended.
ghost use Rattle.base.specs.internal.Section.{Added};

// The list, and where the next section starts.
#[derive(Drop)]
pub struct ListWriter<'a, T> {
    pub out: &'a mut [T],
    pub at: usize,
}

impl<T: Copy> ListWriter<'_, T> {
    ghost use Rattle.std.specs.Prelude.{cond, ◌∷◌, [], ◌+◌, ◌<◌, ◌≤◌, length, replicate};
    ghost use Rattle.base.specs.Loop.{keep};

    // One value.
    pub fn push(&mut self, value: T)
        requires { self.old.at < length self.old.out.now }
        ensures { Added self.old (value ∷ []) self.new }
    {
        self.out[self.at] = value;
        self.at += 1;
    }

    // The value, where the test holds.
    pub fn push_if(&mut self, test: bool, value: T)
        requires { self.old.at + cond test 1 0 ≤ length self.old.out.now }
        ensures { Added self.old (keep test value) self.new }
    {
        if test {
            self.push(value);
        }
    }

    // The value, `count` times.
    pub fn fill(&mut self, count: usize, value: T)
        requires { self.old.at + count ≤ length self.old.out.now }
        ensures { Added self.old (replicate count value) self.new }
    {
        // Not std's `fill`: it asks for a `clone` that cannot fail, which `T: Copy` does not say.
        for _ in 0..count {
            self.push(value);
        }
    }

    // The values of a list.
    pub fn put(&mut self, part: &[T])
        requires { self.old.at + length part.now ≤ length self.old.out.now }
        ensures { Added self.old part.now self.new }
    {
        let end = self.at + part.len();
        self.out[self.at..end].copy_from_slice(part);
        self.at = end;
    }
}
