//! The shares of all symbols.

ghost use Rattle.std.specs.Prelude.{◌≡◌, ◌+◌, ◌^◌, ◌<◌, length, sum, slice_index};
ghost use Rattle.symbol_shares.specs.Shares.{attributed_of};

use std::marker::Model;

/// The grains of each symbol, and of none.
#[derive(Drop)]
pub struct Shares {
    function_count: u32,
    of: Vec<u128>,
    attributed: u128,
    outside: u128,
}

impl Model for Shares {
    ghost use Rattle.std.specs.Prelude.{◌≡◌, ◌+◌, ◌^◌, ◌<◌, length, sum};
    ghost use Rattle.symbol_shares.specs.Shares.{ShareTable};

    ghost Value = { ShareTable };

    ghost view = { λ a. record { of = a.of.items; outside = a.outside } };

    ghost invariant = { λ a. (a.function_count ≡ length a.of.items) × (a.attributed ≡ sum a.of.items) × (a.attributed + a.outside < 2 ^ 65) };
}

impl Shares {
    /// The shares of so many symbols, which have `attributed` together.
    pub(crate) fn new(function_count: u32, of: Vec<u128>, attributed: u128, outside: u128) -> Shares
        requires count { function_count ≡ length of.items }
        requires sum { attributed ≡ sum of.items }
        requires within { attributed + outside < 2 ^ 65 }
        ensures { result ≡ record { of = of.items; outside = outside } }
    {
        Shares {
            function_count,
            of,
            attributed,
            outside,
        }
    }

    /// What is true of each table: all grains are few. Does nothing.
    pub fn holds(&self)
        ensures { attributed_of self.now < 2 ^ 65 }
    {
        let _ = &self.function_count;
    }

    /// The number of symbols.
    pub fn function_count(&self) -> u32
        ensures { result ≡ length self.now.of }
    {
        self.function_count
    }

    /// The grains of symbol `f`.
    pub fn of(&self, f: u32) -> u128
        requires { f < length self.now.of }
        ensures value { result ≡ slice_index self.now.of f }
        ensures within { result < 2 ^ 65 }
    {
        self.of[f as usize]
    }

    /// The grains of all symbols.
    pub fn attributed(&self) -> u128
        ensures value { result ≡ attributed_of self.now }
        ensures within { result < 2 ^ 65 }
    {
        self.attributed
    }

    /// The grains of no symbol.
    pub fn outside(&self) -> u128
        ensures value { result ≡ self.now.outside }
        ensures within { result < 2 ^ 65 }
    {
        self.outside
    }
}
