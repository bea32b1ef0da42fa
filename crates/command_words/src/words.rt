//! The reading of the words.

ghost use Rattle.std.specs.Prelude.{◌≡◌, ◌≤◌, ℕ, List, length, map, string_bytes, true, IfSome};
ghost use Rattle.settings.specs.Setup.{IsSetup};
ghost use Rattle.command_words.specs.declared.items.Item.{Item};
ghost use Rattle.command_words.specs.Items.{are_few};
ghost use Rattle.command_words.specs.Words.{are_cuts, command_by, command_of, few, form_asked, may_count, plan_asked, selection_of, setup_of, shown_asked, written_setup, IsCommandOf};

use crate::items::{Items, MAX_WORDS, read_items};
use crate::names::name_at;
use crate::numbers::number_in;
use crate::options::Key;
use crate::places::Places;
use crate::verbs::{Verb, verb_named};
use gp_base::Form;
use gp_base::limits::{MAX_DEMO, MAX_PROFILE_FILES};
use settings::{Plan, Setup, is_cut_word};

/// What the words ask for. A file is named by its position among the words, from 0.
#[derive(Drop)]
pub enum Command {
    /// Print the records of one profile file.
    Show {
        gmon: u32,
    },
    /// Print the text, the hooks and the symbols of a program.
    Syms {
        elf: u32,
    },
    /// Run a program, and write its profile in a form, and the memory of its runtime to `memory` where that
    /// is given.
    Run {
        elf: u32,
        gmon: u32,
        form: Form,
        memory: Option<u32>,
        setup: Setup,
    },
    /// Add up profile files, and write their sum to `out`.
    Sum {
        out: u32,
        gmons: Places,
    },
    /// Add up profile files, and print reports of their sum for a program.
    Report {
        elf: u32,
        gmons: Places,
        selection: Selection,
    },
    /// Do what `Run` does, and print reports of the run.
    Profile {
        elf: u32,
        gmon: u32,
        form: Form,
        memory: Option<u32>,
        setup: Setup,
        selection: Selection,
    },
    /// Make the demo program of so many functions, write it to `elf` where that is given, run it, and
    /// print a summary.
    Demo {
        functions: u32,
        elf: Option<u32>,
        setup: Setup,
    },
    /// Add up profile files, and print a program's instructions with their executions and times.
    Annotate {
        elf: u32,
        gmons: Places,
    },
    /// Run a program, and print the stacks that it was sampled in, or with `inclusive` for each function
    /// the samples in whose stacks it stands.
    Folded {
        elf: u32,
        inclusive: bool,
        setup: Setup,
    },
    /// Print what the commands and options are.
    Help,
    /// Print the program's name and version.
    Version,
}

/// Which reports are printed, and what they leave out, by the positions of the words that say so.
#[derive(Drop)]
pub struct Selection {
    pub shown: Shown,
    /// Whether the times follow with nothing rounded.
    pub exact: bool,
    /// Words FROM/TO, whose calls are left out.
    pub cuts: Places,
    /// Names of functions that have no line or entry of their own.
    pub hidden: Places,
}

/// The reports that are printed.
#[derive(Clone, Copy)]
pub enum Shown {
    /// The flat profile.
    Flat,
    /// The call graph.
    Graph,
    /// The flat profile, an empty line, and the call graph.
    Both,
}

/// The command that the words say, `None` exactly where they have no reading: no line of more than 200 words
/// has one. Takes no memory.
pub fn read_command(words: &[String]) -> Option<Command>
    ensures reading { result ≡ command_of (map string_bytes words.now) }
    ensures within { IfSome result (IsCommandOf (map string_bytes words.now)) }
{
    let [name, rest @ ..] = words else {
        return None;
    };
    if words.len() > MAX_WORDS {
        return None;
    }
    let verb = verb_named(name.as_str())?;
    let items = read_items(verb, rest)?;
    let operands = items.operands();
    command_by(verb, words, &items, operands.as_slice())
}

/// What a command says of its operands and options.
fn command_by(verb: Verb, words: &[String], items: &Items, operands: &[u32]) -> Option<Command>
    requires { are_few items.now ≡ true }
    ensures { result ≡ command_by verb (map string_bytes words.now) items.now operands.now }
{
    match verb {
        Verb::Show => show(operands),
        Verb::Syms => syms(operands),
        Verb::Run => run(items, operands),
        Verb::Sum => sum(operands),
        Verb::Report => report(words, items, operands),
        Verb::Profile => profile(words, items, operands),
        Verb::Demo => demo(words, items, operands),
        Verb::Annotate => annotate(operands),
        Verb::Folded => folded(items, operands),
        Verb::Help => help(operands),
        Verb::Version => version(operands),
    }
}

fn show(operands: &[u32]) -> Option<Command>
    ensures { (words : List (List ℕ)) (items : List Item)
        → result ≡ command_by Verb.Show words items operands.now }
{
    match operands {
        [gmon] => Some(Command::Show { gmon: *gmon }),
        _ => None,
    }
}

fn syms(operands: &[u32]) -> Option<Command>
    ensures { (words : List (List ℕ)) (items : List Item)
        → result ≡ command_by Verb.Syms words items operands.now }
{
    match operands {
        [elf] => Some(Command::Syms { elf: *elf }),
        _ => None,
    }
}

fn run(items: &Items, operands: &[u32]) -> Option<Command>
    ensures { (words : List (List ℕ)) → result ≡ command_by Verb.Run words items.now operands.now }
{
    let [elf, gmon] = operands else {
        return None;
    };
    Some(Command::Run {
        elf: *elf,
        gmon: *gmon,
        form: form_asked(items),
        memory: items.given(Key::Image),
        setup: written_setup(items)?,
    })
}

fn sum(operands: &[u32]) -> Option<Command>
    ensures { (words : List (List ℕ)) (items : List Item)
        → result ≡ command_by Verb.Sum words items operands.now }
{
    let [out, gmons @ ..] = operands else {
        return None;
    };
    Some(Command::Sum {
        out: *out,
        gmons: few(gmons)?,
    })
}

fn report(words: &[String], items: &Items, operands: &[u32]) -> Option<Command>
    requires { are_few items.now ≡ true }
    ensures { result ≡ command_by Verb.Report (map string_bytes words.now) items.now operands.now }
{
    let [elf, gmons @ ..] = operands else {
        return None;
    };
    Some(Command::Report {
        elf: *elf,
        gmons: few(gmons)?,
        selection: selection_of(words, items)?,
    })
}

fn profile(words: &[String], items: &Items, operands: &[u32]) -> Option<Command>
    requires { are_few items.now ≡ true }
    ensures { result ≡ command_by Verb.Profile (map string_bytes words.now) items.now operands.now }
{
    let [elf, gmon] = operands else {
        return None;
    };
    Some(Command::Profile {
        elf: *elf,
        gmon: *gmon,
        form: form_asked(items),
        memory: items.given(Key::Image),
        setup: written_setup(items)?,
        selection: selection_of(words, items)?,
    })
}

fn demo(words: &[String], items: &Items, operands: &[u32]) -> Option<Command>
    ensures { result ≡ command_by Verb.Demo (map string_bytes words.now) items.now operands.now }
{
    let [functions] = operands else {
        return None;
    };
    Some(Command::Demo {
        functions: number_in(name_at(words, *functions), 1, MAX_DEMO)?,
        elf: items.given(Key::Elf),
        setup: setup_of(items)?,
    })
}

fn annotate(operands: &[u32]) -> Option<Command>
    ensures { (words : List (List ℕ)) (items : List Item)
        → result ≡ command_by Verb.Annotate words items operands.now }
{
    let [elf, gmons @ ..] = operands else {
        return None;
    };
    Some(Command::Annotate {
        elf: *elf,
        gmons: few(gmons)?,
    })
}

fn folded(items: &Items, operands: &[u32]) -> Option<Command>
    ensures { (words : List (List ℕ))
        → result ≡ command_by Verb.Folded words items.now operands.now }
{
    let [elf] = operands else {
        return None;
    };
    Some(Command::Folded {
        elf: *elf,
        inclusive: items.is_given(Key::Inclusive),
        setup: setup_of(items)?,
    })
}

fn help(operands: &[u32]) -> Option<Command>
    ensures { (words : List (List ℕ)) (items : List Item)
        → result ≡ command_by Verb.Help words items operands.now }
{
    match operands {
        [] => Some(Command::Help),
        _ => None,
    }
}

fn version(operands: &[u32]) -> Option<Command>
    ensures { (words : List (List ℕ)) (items : List Item)
        → result ≡ command_by Verb.Version words items operands.now }
{
    match operands {
        [] => Some(Command::Version),
        _ => None,
    }
}

/// One to sixteen files.
fn few(files: &[u32]) -> Option<Places>
    ensures { result ≡ few files.now }
{
    if files.is_empty() || files.len() > MAX_PROFILE_FILES {
        return None;
    }
    Some(Places::of(files))
}

/// What the options say of a run.
fn setup_of(items: &Items) -> Option<Setup>
    ensures { result ≡ setup_of items.now }
{
    Some(Setup {
        every: items.setting(Key::Every, 1_000),
        budget: items.setting(Key::Budget, 100_000_000),
        rate: items.setting(Key::Rate, 100),
        ram_mib: items.setting(Key::Ram, 64),
        harts: items.setting(Key::Harts, 1),
        plan: plan_asked(items.given(Key::Quantum), items.given(Key::Seed))?,
        hist: items.setting(Key::Hist, 2),
        hash: items.setting(Key::Hash, 2),
        blocks: items.is_given(Key::Blocks),
    })
}

/// A schedule with a quantum or a seed, and not both.
fn plan_asked(quantum: Option<u32>, seed: Option<u32>) -> Option<Plan>
    ensures { result ≡ plan_asked quantum seed }
{
    match (quantum, seed) {
        (None, None) => Some(Plan::RoundRobin { quantum: 1 }),
        (Some(quantum), None) => Some(Plan::RoundRobin { quantum }),
        (None, Some(seed)) => Some(Plan::Seeded { seed }),
        (Some(_), Some(_)) => None,
    }
}

/// The same of a run whose profile is written, in a form that holds what the run counts.
fn written_setup(items: &Items) -> Option<Setup>
    ensures { result ≡ written_setup items.now }
{
    let setup = setup_of(items)?;
    if !may_count(form_asked(items), setup.blocks) {
        return None;
    }
    Some(setup)
}

/// The form in which a profile is written.
fn form_asked(items: &Items) -> Form
    ensures { result ≡ form_asked items.now }
{
    if items.is_given(Key::Gnu) {
        Form::Gnu
    } else {
        Form::Bsd
    }
}

/// Whether a file of this form can hold execution counts, where they are asked for.
fn may_count(form: Form, blocks: bool) -> bool
    ensures { result ≡ may_count form blocks }
{
    match form {
        Form::Bsd => !blocks,
        Form::Gnu => true,
    }
}

/// The reports that the options ask for, and what these leave out.
fn selection_of(words: &[String], items: &Items) -> Option<Selection>
    requires { are_few items.now ≡ true }
    ensures { result ≡ selection_of (map string_bytes words.now) items.now }
{
    let cuts = items.values(Key::Cut);
    if !are_cuts(words, cuts.as_slice()) {
        return None;
    }
    Some(Selection {
        shown: shown_asked(items),
        exact: items.is_given(Key::Exact),
        cuts,
        hidden: items.values(Key::Hide),
    })
}

/// Whether words have the form FROM/TO.
fn are_cuts(words: &[String], cuts: &[u32]) -> bool
    ensures { result ≡ are_cuts (map string_bytes words.now) cuts.now }
{
    cuts.iter().all(|place| is_cut_word(name_at(words, *place)))
}

/// The reports, by whether each is asked for.
fn shown_asked(items: &Items) -> Shown
    ensures { result ≡ shown_asked items.now }
{
    match (items.is_given(Key::Flat), items.is_given(Key::Graph)) {
        (true, false) => Shown::Flat,
        (false, true) => Shown::Graph,
        (false, false) | (true, true) => Shown::Both,
    }
}
