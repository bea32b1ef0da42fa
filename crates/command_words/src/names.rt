//! The words of the command line, by their positions.

ghost use Rattle.std.specs.Prelude.{◌≡◌, map, string_bytes, IfOk, IfSome};
ghost use Rattle.command_words.specs.Items.{nth_word, words_at};
ghost use Rattle.command_words.specs.Words.{command_of, IsCommandOf};

use crate::words::{Command, read_command};
use std::alloc::{AllocError, Global};
use std::marker::Model;

/// The words of a command line. Contracts see the bytes of each.
#[derive(Drop)]
pub struct Words<'a> {
    list: &'a [String],
}

impl<'a> Model for Words<'a> {
    ghost use Rattle.std.specs.Prelude.{ℕ, List, map, string_bytes};

    ghost Value = { List (List ℕ) };

    ghost view = { λ a. map string_bytes a.list.now };
}

impl<'a> Words<'a> {
    /// These words.
    pub fn new(list: &'a [String]) -> Words<'a>
        ensures { result ≡ map string_bytes list.now }
    {
        Words { list }
    }

    /// The command that they say, as `read_command` answers it.
    pub fn command(&self) -> Option<Command>
        ensures reading { result ≡ command_of self.now }
        ensures within { IfSome result (IsCommandOf self.now) }
    {
        read_command(self.list)
    }

    /// The word at a position, and no bytes where there is none.
    pub fn name(&self, word: u32) -> &str
        ensures { result.now ≡ nth_word self.now word }
    {
        name_at(self.list, word)
    }

    /// The words at these positions.
    pub fn names(&self, alloc: Global, places: &[u32]) -> Result<Vec<String>, AllocError>
        ensures { IfOk result (λ names. map string_bytes names.items
            ≡ words_at self.now places.now) }
    {
        let mut names = Vec::new(alloc);
        for place in places {
            names.push(String::from_str(alloc, self.name(*place))?)?;
        }
        Ok(names)
    }
}

/// The word at a position, and no bytes where there is none.
pub(crate) fn name_at(words: &[String], word: u32) -> &str
    ensures { result.now ≡ nth_word (map string_bytes words.now) word }
{
    match words.get(word as usize) {
        Some(name) => name.as_str(),
        None => "",
    }
}
