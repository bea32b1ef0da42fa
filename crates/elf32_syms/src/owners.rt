//! The symbol that an address lies in.

ghost use Rattle.std.specs.Prelude.{◌≡◌, ◌≤◌, true, false, length, nat_le};
ghost use Rattle.std.specs.List.Sorted.{IsPartitionPoint};
ghost use Rattle.elf32_syms.specs.Owners.{IsAscending, owner_of};

use crate::image::Symbol;

/// How many symbols end at or below an address, which are the first ones.
fn count_ended(symbols: &[Symbol], pc: u32) -> usize
    requires { IsAscending symbols.now }
    ensures inside { result ≤ length symbols.now }
    ensures point { IsPartitionPoint
        (λ s. nat_le s.end pc ≡ true) (λ s. nat_le s.end pc ≡ false) symbols.now result }
{
    symbols.partition_point(|symbol| symbol.end <= pc)
}

/// The index of the symbol with `addr <= pc < end`, and None where there is none. The symbols are
/// in order, as those of an image are. Takes no memory.
pub fn owner(symbols: &[Symbol], pc: u32) -> Option<u32>
    requires { IsAscending symbols.now }
    ensures { result ≡ owner_of symbols.now pc }
{
    let index = count_ended(symbols, pc);
    if index >= symbols.len() || pc < symbols[index].addr {
        return None;
    }
    Some(index as u32)
}

/// How many symbols there are. Each has an address of its own, so that their number has 32 bits. The
/// symbols are in order, as those of an image are. Takes no memory.
#[tactic(auto, using(crate::proofs::Owning::place_le_addr))]
pub fn symbol_count(symbols: &[Symbol]) -> u32
    requires { IsAscending symbols.now }
    ensures { result ≡ length symbols.now }
{
    if symbols.is_empty() {
        return 0;
    }
    let _last_end = symbols[symbols.len() - 1].end;
    symbols.len() as u32
}
