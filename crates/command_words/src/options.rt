//! The table of options.

ghost use Rattle.std.specs.Prelude.{◌≡◌};
ghost use Rattle.command_words.specs.Options.{group_of, is_flag, is_taken, key_named, key_number, kind_of, most_times, option_of, value_said};

use crate::numbers::{fraction_in, number_in};
use crate::verbs::Verb;
use gp_base::limits::{MAX_HARTS, MAX_NUMBER, MAX_RAM_MIB, MIN_RAM_MIB};

/// An option.
#[derive(Clone, Copy)]
pub enum Key {
    /// `--every N`
    Every,
    /// `--budget N`
    Budget,
    /// `--rate N`
    Rate,
    /// `--ram MIB`
    Ram,
    /// `--harts N`
    Harts,
    /// `--quantum N`
    Quantum,
    /// `--seed N`
    Seed,
    /// `--image FILE`
    Image,
    /// `--gnu`
    Gnu,
    /// `--flat`
    Flat,
    /// `--graph`
    Graph,
    /// `--elf FILE`
    Elf,
    /// `--hist N`
    Hist,
    /// `--hash N`
    Hash,
    /// `--blocks`
    Blocks,
    /// `--exact`
    Exact,
    /// `-k FROM/TO`
    Cut,
    /// `--hide NAME`
    Hide,
    /// `--inclusive`
    Inclusive,
}

/// What an option takes.
#[derive(Clone, Copy)]
pub enum Kind {
    Number { least: u32, most: u32 },
    /// 2, 4, 8 or 16.
    Fraction,
    /// Any word.
    Word,
    /// Nothing: the option stands alone.
    Flag,
}

/// What an option speaks of.
#[derive(Clone, Copy)]
pub enum Group {
    /// The machine and its clock.
    Machine,
    /// The profiling runtime, and the rate that its file tells.
    Runtime,
    /// The files that a run writes.
    Files,
    /// The reports that are printed.
    Reports,
    /// The demo's program.
    Program,
    /// Folded stacks.
    Stacks,
}

/// All options, in the order of the table.
pub const KEYS: [Key; 19] = [
    Key::Every,
    Key::Budget,
    Key::Rate,
    Key::Ram,
    Key::Harts,
    Key::Quantum,
    Key::Seed,
    Key::Image,
    Key::Gnu,
    Key::Flat,
    Key::Graph,
    Key::Elf,
    Key::Hist,
    Key::Hash,
    Key::Blocks,
    Key::Exact,
    Key::Cut,
    Key::Hide,
    Key::Inclusive,
];

/// The option that a word names.
fn key_named(word: &str) -> Option<Key>
    ensures { result ≡ key_named word.now }
{
    match word {
        "--every" => Some(Key::Every),
        "--budget" => Some(Key::Budget),
        "--rate" => Some(Key::Rate),
        "--ram" => Some(Key::Ram),
        "--harts" => Some(Key::Harts),
        "--quantum" => Some(Key::Quantum),
        "--seed" => Some(Key::Seed),
        "--image" => Some(Key::Image),
        "--gnu" => Some(Key::Gnu),
        "--flat" => Some(Key::Flat),
        "--graph" => Some(Key::Graph),
        "--elf" => Some(Key::Elf),
        "--hist" => Some(Key::Hist),
        "--hash" => Some(Key::Hash),
        "--blocks" => Some(Key::Blocks),
        "--exact" => Some(Key::Exact),
        "-k" => Some(Key::Cut),
        "--hide" => Some(Key::Hide),
        "--inclusive" => Some(Key::Inclusive),
        _ => None,
    }
}

/// What an option takes.
pub fn kind_of(key: Key) -> Kind
    ensures { result ≡ kind_of key }
{
    let (least, most) = match key {
        Key::Every | Key::Budget | Key::Rate | Key::Quantum | Key::Seed => (1, MAX_NUMBER),
        Key::Ram => (MIN_RAM_MIB, MAX_RAM_MIB),
        Key::Harts => (1, MAX_HARTS),
        Key::Hist | Key::Hash => return Kind::Fraction,
        Key::Image | Key::Elf | Key::Cut | Key::Hide => return Kind::Word,
        Key::Gnu | Key::Flat | Key::Graph | Key::Blocks | Key::Exact | Key::Inclusive => {
            return Kind::Flag;
        }
    };
    Kind::Number { least, most }
}

/// How often an option may be given.
pub fn most_times(key: Key) -> usize
    ensures { result ≡ most_times key }
{
    match key {
        Key::Cut | Key::Hide => 16,
        _ => 1,
    }
}

/// The place of an option in the table.
pub fn key_number(key: Key) -> u8
    ensures { result ≡ key_number key }
{
    match key {
        Key::Every => 0,
        Key::Budget => 1,
        Key::Rate => 2,
        Key::Ram => 3,
        Key::Harts => 4,
        Key::Quantum => 5,
        Key::Seed => 6,
        Key::Image => 7,
        Key::Gnu => 8,
        Key::Flat => 9,
        Key::Graph => 10,
        Key::Elf => 11,
        Key::Hist => 12,
        Key::Hash => 13,
        Key::Blocks => 14,
        Key::Exact => 15,
        Key::Cut => 16,
        Key::Hide => 17,
        Key::Inclusive => 18,
    }
}

/// What an option speaks of.
fn group_of(key: Key) -> Group
    ensures { result ≡ group_of key }
{
    match key {
        Key::Every | Key::Budget | Key::Ram => Group::Machine,
        Key::Harts | Key::Quantum | Key::Seed => Group::Machine,
        Key::Rate | Key::Hist | Key::Hash => Group::Runtime,
        Key::Image | Key::Gnu | Key::Blocks => Group::Files,
        Key::Flat | Key::Graph | Key::Exact | Key::Cut | Key::Hide => Group::Reports,
        Key::Elf => Group::Program,
        Key::Inclusive => Group::Stacks,
    }
}

/// Whether a command takes the options of a group.
fn is_taken(verb: Verb, group: Group) -> bool
    ensures { result ≡ is_taken verb group }
{
    match verb {
        Verb::Run => matches!(group, Group::Machine | Group::Runtime | Group::Files),
        Verb::Report => matches!(group, Group::Reports),
        Verb::Profile => {
            matches!(
                group,
                Group::Machine | Group::Runtime | Group::Files | Group::Reports
            )
        }
        Verb::Demo => matches!(group, Group::Machine | Group::Runtime | Group::Program),
        Verb::Folded => matches!(group, Group::Machine | Group::Stacks),
        Verb::Show | Verb::Syms | Verb::Sum | Verb::Annotate | Verb::Help | Verb::Version => false,
    }
}

/// The option of a command that a word names.
pub fn option_of(verb: Verb, word: &str) -> Option<Key>
    ensures { result ≡ option_of verb word.now }
{
    let key = key_named(word)?;
    if is_taken(verb, group_of(key)) {
        return Some(key);
    }
    None
}

/// Whether an option stands alone.
pub fn is_flag(kind: Kind) -> bool
    ensures { result ≡ is_flag kind }
{
    match kind {
        Kind::Number { .. } | Kind::Fraction | Kind::Word => false,
        Kind::Flag => true,
    }
}

/// What the word at a position says as the value of an option of this kind: a number, where it is one that
/// the option may have, or its position.
pub fn value_said(kind: Kind, place: u32, word: &str) -> Option<u32>
    ensures { result ≡ value_said kind place word.now }
{
    match kind {
        Kind::Number { least, most } => number_in(word, least, most),
        Kind::Fraction => fraction_in(word),
        Kind::Word | Kind::Flag => Some(place),
    }
}
