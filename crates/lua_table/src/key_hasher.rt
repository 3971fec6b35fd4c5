//! How keys are hashed.

ghost use Rattle.std.specs.Prelude.{◌≡◌, length};
ghost use Rattle.lua_table.specs.KeyHash.{stepped, word};

use std::hash::Hasher;

// An odd number whose multiples by 0, 1, 2 and so on lie evenly in the bits from 32 on, however
// many of these bits a map takes.
const MULTIPLIER: u64 = 0xc7a2_ea20_b2f1_4c95;

// A hasher that keeps neighbours together: 64 numbers in a row fall into eight groups in a row of
// the map's index, and the rows themselves are scattered evenly. So the fields 1, 2, 3 and so on of
// a large table are found in memory that is read in a row.
//
// Its answers matter for speed alone, and no contract of the table speaks of them.
#[derive(Clone, Copy)]
pub(crate) struct KeyHasher {
    state: u64,
}

impl Default for KeyHasher {
    fn default() -> KeyHasher {
        KeyHasher { state: 0 }
    }
}

// The state after a word: the row's place scattered over 26 bits, the group in the row below them,
// and above them what tells the numbers of one group apart.
#[tactic(auto, unfolding(crate::specs::KeyHash::stepped))]
fn step(state: u64, word: u64) -> u64
    ensures { result ≡ stepped state word }
{
    let row = (word / 64).wrapping_add(state);
    let scattered = row.wrapping_mul(MULTIPLIER) / (1 << 32) % (1 << 26);
    scattered * 8 + word / 8 % 8 + word % 8 * (1 << 29)
}

// Up to eight bytes as one number, the lowest first.
fn word_of(bytes: &[u8]) -> u64
    ensures { result ≡ word bytes.now }
{
    bytes.iter().rev().fold(0u64, |word, byte| {
        word.wrapping_mul(256).wrapping_add(*byte as u64)
    })
}

impl Hasher for KeyHasher {
    ghost use Rattle.lua_table.specs.KeyHash.{written};

    ghost write = { λ hasher bytes. record { state = written hasher.state bytes } };

    ghost finish = { λ hasher. hasher.state };

    fn finish(&self) -> u64 {
        self.state
    }

    fn write(&mut self, bytes: &[u8]) {
        self.state = if bytes.len() <= 8 {
            step(self.state, word_of(bytes))
        } else {
            bytes
                .iter()
                .fold(self.state, |state, byte| step(state, *byte as u64))
        };
    }
}
