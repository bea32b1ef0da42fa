//! What the choice of symbols says, in other words.

ghost use Rattle.std.specs.Prelude.{◌≡◌, ℕ, List, All, Contains, MatchOption, false};
ghost use Rattle.elf32_syms.specs.declared.symbols.Entry.{Entry as AnyEntry};
ghost use Rattle.elf32_syms.specs.Laws.{AcceptedImagesAreWithinLimits};
ghost use Rattle.elf32_syms.specs.Symbols.{ranks_before, kept_at};

/// Of the candidates at an address one is kept, before which no other of them comes, and none only
/// where there is none.
pub fn first_at_an_address()
    ensures { (strings : List ℕ) (cs : List AnyEntry) (addr : ℕ)
        → MatchOption (kept_at strings cs addr)
        (All (λ d. ¬ (d.addr ≡ addr)) cs)
        (λ c. Contains cs c × (c.addr ≡ addr)
        × All (λ d. d.addr ≡ addr → ranks_before strings d c ≡ false) cs) }
{}

/// The image of a file that isn't refused is within the limits: its text isn't empty and no larger than may be, its
/// segments lie in the file, and its symbols are in the order of their addresses and apart.
#[tactic(auto, using(crate::proofs::OrderLemmas::accepted_within))]
pub fn accepted_within_limits()
    ensures { AcceptedImagesAreWithinLimits }
{}
