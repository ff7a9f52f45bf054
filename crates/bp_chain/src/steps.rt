ghost use Rattle.std.specs.Prelude.{◌≡◌, ◌<◌, List, Some, length, slice_get};
ghost use Rattle.bp_base.specs.declared.path.Step.{Step as AnyStep};

use bp_base::{Path, Step};

/// A path whose steps can be looked at, wherever they are kept.
pub trait Steps {
    /// The steps, in order.
    ghost steps: { Self → List AnyStep };

    fn len(&self) -> u64
        ensures { result ≡ length (steps self.now) };

    /// The step of number k, from 0 on.
    fn at(&self, k: u64) -> Step
        requires { k < length (steps self.now) }
        ensures { slice_get (steps self.now) k ≡ Some result };
}

impl Steps for Path {
    ghost steps = { λ path. path };

    #[inline]
    fn len(&self) -> u64 {
        Path::len(self)
    }

    #[inline]
    fn at(&self, k: u64) -> Step {
        Path::at(self, k)
    }
}
