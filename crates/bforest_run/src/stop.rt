//! Why a run ends before the last line.

use std::alloc::AllocError;

/// Why a run ends before the last line.
#[derive(Clone, Copy, Debug, PartialEq, Eq)]
pub(crate) enum Stop {
    BadLine,
    Memory,
    InputOutput,
}

impl From<AllocError> for Stop {
    ghost use Rattle.bforest_run.specs.declared.stop.Stop.TheVariants.{Memory};
    ghost use Rattle.std.specs.Prelude.{◌≡◌};

    ghost from_gives = { λ _ stop. stop ≡ Memory };

    fn from(_error: AllocError) -> Stop {
        Stop::Memory
    }
}
