//! Operands and options among the words.

ghost use Rattle.std.specs.Prelude.{◌≡◌, ◌+◌, ◌<◌, ◌≤◌, ◌++◌, ◌∷◌, [], ℕ, List, length, map, nat_le, string_bytes, true, IfSome};
ghost use Rattle.std.specs.List.{list_all};
ghost use Rattle.std.specs.Option.{option_map, option_and_then};
ghost use Rattle.command_words.specs.Items.{all_wanted, are_few, is_key, is_option, items_behind, items_from, items_of, operands, values, wanted_of};
ghost use Rattle.command_words.specs.Options.{all_keys, most_times as times_of};
ghost use Rattle.command_words.specs.Words.{given, is_given, setting};

use crate::options::{KEYS, Key, is_flag, key_number, kind_of, most_times, option_of, value_said};
use crate::places::Places;
use crate::verbs::Verb;
use std::marker::Model;

/// How many words may be read.
pub const MAX_WORDS: usize = 200;

/// How many operands a command takes at most: a file, and sixteen profiles.
const MAX_OPERANDS: usize = 17;

/// What one or two words say.
#[derive(Clone, Copy)]
pub enum Item {
    /// An operand, by its position.
    Operand(u32),
    /// An option, with what is given to it: a number, the position of a word, or a flag's own position.
    Given(Key, u32),
}

/// Which items are looked for.
#[derive(Clone, Copy)]
pub enum Wanted {
    Operands,
    /// Those of one option.
    Values(Key),
}

/// What the words behind a command say, in their order. Contracts see the list of the items.
#[derive(Drop)]
pub struct Items {
    at: [Item; MAX_WORDS],
    len: usize,
}

impl Model for Items {
    ghost use Rattle.std.specs.Prelude.{◌≤◌, List, take};
    ghost use Rattle.command_words.specs.declared.items.Item.{Item};

    ghost Value = { List Item };

    ghost view = { λ a. take a.len a.at };

    ghost invariant = { λ a. a.len ≤ 200 };
}

impl Items {
    /// No items.
    fn new() -> Items
        ensures { result ≡ [] }
    {
        Items {
            at: [Item::Operand(0); MAX_WORDS],
            len: 0,
        }
    }

    /// One item more.
    fn push(&mut self, item: Item)
        requires { length self.old < 200 }
        ensures { self.new ≡ self.old ++ item ∷ [] }
    {
        self.at[self.len] = item;
        self.len += 1;
    }

    fn as_slice(&self) -> &[Item]
        ensures { result.now ≡ self.now }
    {
        &self.at[..self.len]
    }

    /// How many items are of what is wanted.
    fn count(&self, wanted: Wanted) -> usize
        ensures { result ≡ length (all_wanted wanted self.now) }
    {
        let mut count = 0;
        for item in self.as_slice() {
            match wanted_of(wanted, *item) {
                Some(_) => count += 1,
                None => {}
            }
        }
        count
    }

    /// Whether an option is given only as often as it may be.
    fn is_few(&self, key: Key) -> bool
        ensures { result ≡ nat_le (length (values key self.now)) (times_of key) }
    {
        self.count(Wanted::Values(key)) <= most_times(key)
    }

    /// Whether each option is.
    fn options_are_few(&self) -> bool
        ensures { result ≡ list_all (λ key. nat_le (length (values key self.now)) (times_of key))
            all_keys }
    {
        KEYS.iter().all(|key| self.is_few(*key))
    }

    /// Whether there are no more operands than a command takes, and each option is given only as often as it
    /// may be.
    fn are_few(&self) -> bool
        ensures { result ≡ are_few self.now }
    {
        self.count(Wanted::Operands) <= MAX_OPERANDS && self.options_are_few()
    }

    /// What the items are of what is wanted.
    fn all_wanted(&self, wanted: Wanted) -> Places
        requires { length (all_wanted wanted self.now) ≤ 18 }
        ensures { result ≡ all_wanted wanted self.now }
    {
        let mut found = Places::new();
        for item in self.as_slice() {
            match wanted_of(wanted, *item) {
                Some(value) => found.push(value),
                None => {}
            }
        }
        found
    }

    /// Where the operands stand.
    pub fn operands(&self) -> Places
        requires { are_few self.now ≡ true }
        ensures { result ≡ operands self.now }
    {
        self.all_wanted(Wanted::Operands)
    }

    /// What is given to an option, from the first word on.
    pub fn values(&self, key: Key) -> Places
        requires { are_few self.now ≡ true }
        ensures { result ≡ values key self.now }
    {
        self.all_wanted(Wanted::Values(key))
    }

    /// What is given to an option, if it is: the first value, where it may have several.
    pub fn given(&self, key: Key) -> Option<u32>
        ensures { result ≡ given key self.now }
    {
        for item in self.as_slice() {
            match wanted_of(Wanted::Values(key), *item) {
                Some(value) => return Some(value),
                None => {}
            }
        }
        None
    }

    /// Whether an option is given.
    pub fn is_given(&self, key: Key) -> bool
        ensures { result ≡ is_given key self.now }
    {
        self.given(key).is_some()
    }

    /// The number that is given to an option, or its default.
    pub fn setting(&self, key: Key, default: u32) -> u32
        ensures { result ≡ setting key default self.now }
    {
        self.given(key).unwrap_or(default)
    }
}

/// What an item is of what is wanted.
fn wanted_of(wanted: Wanted, item: Item) -> Option<u32>
    ensures { result ≡ wanted_of wanted item }
{
    match (wanted, item) {
        (Wanted::Operands, Item::Operand(place)) => Some(place),
        (Wanted::Values(key), Item::Given(other, value)) if is_key(key, other) => Some(value),
        _ => None,
    }
}

fn is_key(key: Key, other: Key) -> bool
    ensures { result ≡ is_key key other }
{
    key_number(key) == key_number(other)
}

/// Whether a word begins with a hyphen, as options do.
fn is_hyphenated(word: &[u8]) -> bool
    ensures { result ≡ is_option word.now }
{
    match word {
        [first, ..] => *first == b'-',
        [] => false,
    }
}

/// What the words behind a command's own say; `None` where they can't be read, or say more than the command
/// takes.
pub fn read_items(verb: Verb, words: &[String]) -> Option<Items>
    requires { length words.now < 200 }
    ensures reads { result ≡ items_of verb (map string_bytes words.now) }
    ensures few { IfSome result (λ items. are_few items ≡ true) }
{
    let items = read_all(verb, words)?;
    if !items.are_few() {
        return None;
    }
    Some(items)
}

/// What the words say. The first has the position 1.
fn read_all(verb: Verb, words: &[String]) -> Option<Items>
    requires { length words.now < 200 }
    ensures { result ≡ items_from verb 1 (map string_bytes words.now) }
{
    let mut items = Items::new();
    let mut waiting = None;
    for (i, word) in words.iter().enumerate() {
        waiting = read_word(verb, &mut items, waiting, i as u32 + 1, word.as_str())?;
    }
    match waiting {
        None => Some(items),
        Some(_) => None,
    }
}

/// Reads one word, which is the value of an option where one waits for it. Answers the option that waits
/// for the next word, and `None` where the words can't be read.
fn read_word(
    verb: Verb,
    items: &mut Items,
    waiting: Option<Key>,
    place: u32,
    word: &str,
) -> Option<Option<Key>>
    requires { length items.old < 200 }
    ensures reads { (words : List (List ℕ))
        → option_map (λ more. items.old ++ more) (items_behind verb waiting place (word.now ∷ words))
        ≡ option_and_then (λ next. option_map (λ more. items.new ++ more)
        (items_behind verb next (place + 1) words)) result }
    ensures one { IfSome result (λ next. length items.new ≤ length items.old + 1) }
{
    if let Some(key) = waiting {
        items.push(Item::Given(key, value_said(kind_of(key), place, word)?));
        return Some(None);
    }
    if !is_hyphenated(word.as_bytes()) {
        items.push(Item::Operand(place));
        return Some(None);
    }
    let key = option_of(verb, word)?;
    if !is_flag(kind_of(key)) {
        return Some(Some(key));
    }
    items.push(Item::Given(key, place));
    Some(None)
}
