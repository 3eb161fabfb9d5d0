//! Why an event was not applied.
use std::alloc::AllocError;
use thiserror::Error;

/// Why an event was not applied to a state, which is as it was then.
#[derive(Debug, Drop, Error)]
pub enum CoreFault {
    /// The event is no step of the machine from this state.
    #[error("the event is no step from this state")]
    NotEnabled,
    /// There was no memory for it.
    #[error("out of memory")]
    Memory,
}

impl From<AllocError> for CoreFault {
    ghost use Rattle.std.specs.Prelude.{◌≡◌};
    ghost use Rattle.plain_core.specs.declared.fault.CoreFault.TheVariants.{Memory};

    ghost from_gives = { λ _ fault. fault ≡ Memory };

    fn from(_: AllocError) -> Self {
        CoreFault::Memory
    }
}
