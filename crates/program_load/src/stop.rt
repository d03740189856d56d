use osc_base::{Fault, Text};
use std::alloc::AllocError;

/// Why files hold no program.
#[derive(Drop)]
pub enum Refusal {
    /// The main file isn't there.
    Missing,
    /// The file of this name has more than 1,048,576 bytes.
    Long(Text),
    /// A file has a fault; `file` is the name by which the file of the fault's place was fetched.
    Faulty { file: Text, fault: Fault },
}

/// Why no program was loaded.
#[derive(Drop)]
pub enum LoadStop {
    /// The files hold no program.
    At(Refusal),
    /// The shelf failed when it was the turn of the file of this name.
    Shelf(Text),
    /// Out of memory.
    Memory,
}

impl From<AllocError> for LoadStop {
    ghost use Rattle.program_load.specs.declared.stop.LoadStop.TheVariants.{Memory};
    ghost use Rattle.std.specs.Prelude.{◌≡◌};

    ghost from_gives = { λ _ e. e ≡ Memory };

    fn from(_error: AllocError) -> LoadStop {
        LoadStop::Memory
    }
}
