//! Bodies that can be made empty.
ghost use Rattle.std.specs.Prelude.{◌≡◌};

/// What an element can hold: a body that can be made empty without memory.
///
/// The kernel's pools hand out memory as it is, and each taker clears it (`bio_init` in `block/bio.c`). A pool here makes a body empty when it
/// is given back, and hands out clear ones: a take does nothing that can be left out.
pub trait Fresh {
    ghost is_clear: { Self → Type 0 };

    /// An empty body.
    fn fresh() -> Self
        ensures { is_clear result };
}
