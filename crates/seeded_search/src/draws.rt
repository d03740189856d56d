ghost use Rattle.std.specs.Prelude.{◌≡◌, ◌+◌, ◌-◌, ◌<◌, ◌≤◌, ◌^◌};
ghost use Rattle.seeded_search.specs.Draws.{number_of, seed_bytes, word_of};

use rand_chacha::ChaCha8Rng;
use rand_core::SeedableRng;
use rand_core::utils::NextWord;
use std::marker::Model;

/// The numbers of a seed, one for each decision.
#[derive(Drop)]
pub struct Draws {
    seed: u64,
    /// How many numbers were taken.
    count: u32,
    words: ChaCha8Rng,
}

impl Model for Draws {
    ghost use Rattle.std.specs.Prelude.{◌≡◌, ◌*◌};
    ghost use Rattle.seeded_search.specs.Rooms.{Drawing};
    ghost use Rattle.seeded_search.specs.Draws.{stream_at};

    ghost Value = { Drawing };

    ghost view = { λ d. record { seed = d.seed; count = d.count } };

    ghost invariant = { λ d. d.words ≡ stream_at d.seed (2 * d.count) };
}

impl Draws {
    /// The numbers of a seed, of which none is taken.
    pub(crate) fn new(seed: u64) -> Draws
        ensures { result ≡ record { seed = seed; count = 0 } }
    {
        Draws {
            seed,
            count: 0,
            words: ChaCha8Rng::from_seed(key_of(seed)),
        }
    }

    /// The next number, of two words, the low one first.
    pub(crate) fn next(&mut self) -> u64
        requires { self.old.count + 1 < 2 ^ 32 }
        ensures number { result ≡ number_of self.old.seed self.old.count }
        ensures count { self.new ≡ record self.old { count = self.old.count + 1 } }
    {
        let low = self.words.next_word();
        let high = self.words.next_word();
        self.count += 1;
        u64::from(low) + u64::from(high) * 4_294_967_296
    }
}

/// The key of a seed: its eight bytes, the low one first, then zeros.
fn key_of(seed: u64) -> [u8; 32]
    ensures { result ≡ seed_bytes seed }
{
    let [a, b, c, d, e, f, g, h] = seed.to_le_bytes();
    [
        a, b, c, d, e, f, g, h, 0, 0, 0, 0, 0, 0, 0, 0, 0, 0, 0, 0, 0, 0, 0, 0, 0, 0, 0, 0, 0, 0,
        0, 0,
    ]
}
