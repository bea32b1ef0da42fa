//! The text that lines begin with.

ghost use Rattle.std.specs.Prelude.{◌≡◌, ◌+◌, ◌<◌, ◌≤◌, ◌++◌, List, None, codes, length, slice_index_or, take, true};
ghost use Rattle.elf32_syms.specs.declared.image.Symbol.{Symbol as AnySymbol};
ghost use Rattle.std.specs.List.{flat_map};
ghost use Rattle.folded.specs.Nodes.{stack_of_node};
ghost use Rattle.folded.specs.Paths.{IsPath, IsPrefix, caller_text, first_path, functions_of};
ghost use Rattle.folded.specs.Text.{name_in};

use crate::path::{MOST, Path};
use crate::tree::Tree;
use elf32_syms::Symbol;

/// How many bytes of text are kept.
const ROOM: usize = 8_192;

/// The stack of a line, and the text of its first callers as far as there is room, each with a `;` behind its name. By
/// number of callers it has the end of the text of so many. The next line mostly begins with the same text. Takes no
/// memory.
#[derive(Drop)]
pub(crate) struct Prefix {
    path: Path,
    bytes: [u8; ROOM],
    ends: [usize; MOST + 1],
    callers: usize,
}

impl Prefix {
    /// That of the empty stack.
    pub(crate) fn new() -> Prefix
        ensures path { result.path ≡ first_path }
        ensures prefix { (symbols : List AnySymbol) → IsPrefix symbols result }
    {
        Prefix {
            path: Path::new(),
            bytes: [0; ROOM],
            ends: [0; MOST + 1],
            callers: 0,
        }
    }

    /// The functions of the stack.
    pub(crate) fn functions(&self) -> &[Option<u32>]
        requires { self.now.path.len ≤ 129 }
        ensures { result.now ≡ functions_of self.now.path }
    {
        self.path.functions()
    }

    /// The text of the first callers, of no more than so many, and how many they are.
    pub(crate) fn text(&self, most: usize) -> (&[u8], usize)
        requires { (symbols : List AnySymbol) × IsPrefix symbols self.now }
        ensures most { result.1 ≤ most }
        ensures callers { result.1 ≤ self.now.path.len }
        ensures text { (symbols : List AnySymbol) → IsPrefix symbols self.now → result.0.now
            ≡ flat_map (caller_text symbols) (take result.1 self.now.path.functions) }
    {
        let callers = self.callers.min(most);
        (&self.bytes[..self.ends[callers]], callers)
    }

    /// To the stack of a node.
    pub(crate) fn go_to(&mut self, tree: &Tree, symbols: &[Symbol], node: u32)
        requires path { IsPath tree.now.nodes.items self.old.path }
        requires prefix { IsPrefix symbols.now self.old }
        requires node { node ≤ length tree.now.nodes.items }
        ensures path { IsPath tree.now.nodes.items self.new.path }
        ensures stack { functions_of self.new.path ≡ stack_of_node tree.now.nodes.items node }
        ensures prefix { IsPrefix symbols.now self.new }
    {
        let shared = self.path.shared(tree, node);
        self.path.go_to(tree, node);
        self.callers = self.callers.min(shared);
        self.extend(symbols);
    }

    /// Puts the text of further callers behind, as long as it fits.
    fn extend(&mut self, symbols: &[Symbol])
        requires { IsPrefix symbols.now self.old }
        ensures path { self.new.path ≡ self.old.path }
        ensures prefix { IsPrefix symbols.now self.new }
    {
        while self.callers + 1 < self.path.functions().len() {
            let caller = self.path.functions()[self.callers];
            if !self.put(name_of(symbols, caller)) {
                return;
            }
        }
    }

    /// Puts the text of one more caller behind, if it fits.
    fn put(&mut self, name: &[u8]) -> bool
        requires within { self.old.callers < self.old.path.len }
        requires prefix { (symbols : List AnySymbol) × IsPrefix symbols self.old }
        ensures path { self.new.path ≡ self.old.path }
        ensures more { result ≡ true → self.new.callers ≡ self.old.callers + 1 }
        ensures prefix { (symbols : List AnySymbol) → IsPrefix symbols self.old → name.now
            ≡ name_in symbols (slice_index_or self.old.path.functions self.old.callers None)
            → IsPrefix symbols self.new }
    {
        let start = self.ends[self.callers];
        if name.len() >= ROOM - start {
            return false;
        }
        write_caller(&mut self.bytes, start, name);
        self.callers += 1;
        self.ends[self.callers] = start + name.len() + 1;
        true
    }
}

/// Writes a name with a `;` behind it.
fn write_caller(bytes: &mut [u8], start: usize, name: &[u8])
    requires { start + length name.now < length bytes.old }
    ensures length { length bytes.new ≡ length bytes.old }
    ensures text { take (start + length name.now + 1) bytes.new
        ≡ take start bytes.old ++ (name.now ++ codes ";") }
{
    let end = start + name.len();
    bytes[start..end].copy_from_slice(name);
    bytes[end] = b';';
}

/// The name of a function, or that of none.
pub(crate) fn name_of(symbols: &[Symbol], function: Option<u32>) -> &[u8]
    ensures { result.now ≡ name_in symbols.now function }
{
    let Some(f) = function else {
        return b"[unknown]";
    };
    match symbols.get(f as usize) {
        Some(symbol) => symbol.name.as_slice(),
        None => b"",
    }
}
