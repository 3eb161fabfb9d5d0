//! Why a line was not added.
use decl_text::Reason;
use std::alloc::AllocError;
use thiserror::Error;

/// Why a line was not added to those before it.
#[derive(Clone, Copy, Debug, PartialEq, Eq, Error)]
pub(crate) enum AddFault {
    #[error("the line is refused")]
    Wrong(Reason),
    #[error("out of memory")]
    Memory,
}

impl From<AllocError> for AddFault {
    ghost use Rattle.std.specs.Prelude.{◌≡◌};
    ghost use Rattle.stack_check.specs.declared.fault.AddFault.TheVariants.{Memory};

    ghost from_gives = { λ _ fault. fault ≡ Memory };

    fn from(_: AllocError) -> Self {
        AddFault::Memory
    }
}
