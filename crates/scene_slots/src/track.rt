//! The slots of a vehicle.

ghost use Rattle.std.specs.Prelude.{◌≡◌, ◌+◌, ◌*◌, ◌<◌, ◌^◌};
ghost use Rattle.scene_slots.specs.Tracks.{track_slot, track_slots};

use osc_base::SampleSlots;

/// Where the slots of a vehicle begin.
#[derive(Debug, Clone, Copy)]
pub enum Track {
    /// Its first slot.
    Found { first: u32 },
    /// It isn't there. `past` is the number after those of all slots.
    Missing { past: u32 },
}

impl Track {
    /// The slots of its sample at a tick.
    pub fn at(self, tick: u32) -> SampleSlots
        requires { track_slot self (tick * 3 + 2) < 2 ^ 32 }
        ensures { result ≡ track_slots self tick }
    {
        match self {
            Track::Found { first } => SampleSlots {
                lane: first + tick * 3,
                position: first + tick * 3 + 1,
                speed: first + tick * 3 + 2,
            },
            Track::Missing { past } => SampleSlots {
                lane: past,
                position: past,
                speed: past,
            },
        }
    }
}
