//! Counts of what a call did, for contracts alone.

ghost use Rattle.std.specs.Prelude.{◌≡◌, ◌+◌, ℕ};
ghost use base.Fml.{ftrue};

use std::marker::{Model, PhantomData};

/// A count of steps, such as comparisons or reads, which contracts bound. It has no bytes at run
/// time, and its calls do nothing then. Safe code changes the count by [`Steps::tick`] alone.
#[derive(Drop)]
pub struct Steps {
    marker: PhantomData<()>,
    pub ghost count: { ℕ },
}

impl Model for Steps {
    ghost also_owns = { λ _. ftrue };
}

impl Steps {
    /// No steps.
    pub fn new() -> Self
        ensures { result.count ≡ 0 }
    {
        Steps {
            marker: PhantomData,
        }
    }

    /// One step more.
    pub fn tick(&mut self)
        ensures { self.new.count ≡ self.old.count + 1 }
    {}
}

const _: () = prove!(size_of::<Steps>() == 0);
