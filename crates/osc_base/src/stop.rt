use std::alloc::AllocError;

/// Why there is no answer: a fault at `T`, or out of memory.
#[derive(Debug, Clone, Copy, PartialEq, Eq)]
pub enum Stop<T> {
    /// The fault that ended the call.
    At(T),
    /// Out of memory.
    Memory,
}

impl<T> From<AllocError> for Stop<T> {
    ghost use Rattle.osc_base.specs.declared.stop.Stop.TheVariants.{Memory};
    ghost use Rattle.std.specs.Prelude.{◌≡◌};

    ghost from_gives = { λ _ e. e ≡ Memory };

    fn from(_error: AllocError) -> Stop<T> {
        Stop::Memory
    }
}
