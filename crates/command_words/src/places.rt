//! Some words, by their positions.

ghost use Rattle.std.specs.Prelude.{◌≡◌, ◌<◌, ◌≤◌, ◌++◌, ◌∷◌, [], length};

use std::marker::Model;

/// How many words there is room for: a command, a file, and sixteen profiles.
pub const MAX_PLACES: usize = 18;

/// The positions of at most eighteen words, from 0. Contracts see their list.
#[derive(Drop)]
pub struct Places {
    at: [u32; MAX_PLACES],
    len: usize,
}

impl Model for Places {
    ghost use Rattle.std.specs.Prelude.{ℕ, ◌≤◌, List, take};

    ghost Value = { List ℕ };

    ghost view = { λ a. take a.len a.at };

    ghost invariant = { λ a. a.len ≤ 18 };
}

impl Places {
    /// No words.
    pub fn new() -> Places
        ensures { result ≡ [] }
    {
        Places {
            at: [0; MAX_PLACES],
            len: 0,
        }
    }

    /// These words.
    pub fn of(places: &[u32]) -> Places
        requires { length places.now ≤ 18 }
        ensures { result ≡ places.now }
    {
        let mut at = [0; MAX_PLACES];
        at[..places.len()].copy_from_slice(places);
        Places {
            at,
            len: places.len(),
        }
    }

    /// One word more.
    pub fn push(&mut self, place: u32)
        requires { length self.old < 18 }
        ensures { self.new ≡ self.old ++ place ∷ [] }
    {
        self.at[self.len] = place;
        self.len += 1;
    }

    pub fn as_slice(&self) -> &[u32]
        ensures { result.now ≡ self.now }
    {
        &self.at[..self.len]
    }
}
