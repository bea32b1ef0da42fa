//! A column of cells.

ghost use Rattle.std.specs.Prelude.{◌≡◌, ℕ, List, [], ◌+◌, ◌-◌, ◌*◌, ◌/◌, ◌<◌, ◌≤◌, ◌++◌, ◌^◌, length, take, drop, vec_len, vec_capacity, OnOk, OnErr};
ghost use Rattle.gmon_cells.specs.Cells.{cells_of, torn_of, StandsFor};

use crate::cell::Cell;
use crate::remnant::Remnant;
use std::alloc::{AllocError, Global};

/// Cells that have come whole, and what has come of the next.
#[derive(Drop)]
pub struct Column<T: Cell + Drop> {
    pub cells: Vec<T>,
    pub torn: Remnant,
}

impl<T: Cell + Drop> Column<T> {
    /// Nothing has come yet. Takes no memory.
    pub fn new(alloc: Global) -> Column<T>
        ensures cells { result.cells.items ≡ [] }
        ensures torn { result.torn ≡ [] }
        ensures stands { StandsFor T.width T.cell [] result.cells.items result.torn }
    {
        Column {
            cells: Vec::new(alloc),
            torn: Remnant::new(),
        }
    }

    /// Takes room for the cells that `len` bytes more make whole. No cell changes.
    pub fn reserve(&mut self, len: usize) -> Result<(), AllocError>
        requires { len ≤ 2 ^ 32 }
        ensures cells { self.new.cells.items ≡ self.old.cells.items }
        ensures torn { self.new.torn ≡ self.old.torn }
        ensures room { OnOk result (vec_len self.new.cells + (length self.new.torn + len) / T.width
            ≤ vec_capacity self.new.cells) }
    {
        let more = (self.torn.len() + len) / T::width();
        self.cells.reserve(more)
    }

    /// Takes the next piece. There needs to be room for the cells that it makes whole.
    pub fn feed(&mut self, piece: &[u8])
        requires room { vec_len self.old.cells + (length self.old.torn + length piece.now) / T.width
            ≤ vec_capacity self.old.cells }
        requires torn { length self.old.torn ≤ T.width }
        ensures cells { self.new.cells.items ≡ self.old.cells.items
            ++ cells_of T.width T.cell (self.old.torn ++ piece.now) }
        ensures torn { self.new.torn ≡ torn_of T.width (self.old.torn ++ piece.now) }
        ensures count { vec_len self.new.cells ≡ vec_len self.old.cells
            + (length self.old.torn + length piece.now) / T.width }
        ensures capacity { vec_capacity self.new.cells ≡ vec_capacity self.old.cells }
        ensures short { length self.new.torn < T.width }
        ensures stands { (bytes : List ℕ)
            → StandsFor T.width T.cell bytes self.old.cells.items self.old.torn
            → StandsFor T.width T.cell (bytes ++ piece.now) self.new.cells.items self.new.torn }
    {
        let width = T::width();
        let mut rest = piece;
        if self.torn.len() > 0 {
            rest = self.torn.fill(width, piece);
            if self.torn.len() < width {
                return;
            }
            self.cells.push_reserved(T::read(self.torn.as_slice()));
            self.torn.clear();
        }
        rest = push_whole(&mut self.cells, rest);
        self.torn.put(rest);
    }

    /// Takes from the front of a piece what is due of `left` cells, the first of which may have come in part. How many
    /// of them came whole with it, and the rest of the piece. There needs to be room for what the piece makes whole.
    pub fn feed_due<'p>(&mut self, left: u32, piece: &'p [u8]) -> (u32, &'p [u8])
        requires some { 0 < left }
        requires torn { length self.old.torn < T.width }
        requires room { vec_len self.old.cells + (length self.old.torn + length piece.now) / T.width
            ≤ vec_capacity self.old.cells }
        ensures cells { self.new.cells.items ≡ self.old.cells.items ++ cells_of T.width T.cell
            (self.old.torn ++ take (left * T.width - length self.old.torn) piece.now) }
        ensures torn { self.new.torn ≡ torn_of T.width
            (self.old.torn ++ take (left * T.width - length self.old.torn) piece.now) }
        ensures rest { result.1.now ≡ drop (left * T.width - length self.old.torn) piece.now }
        ensures came { result.0 ≡ (length self.old.torn
            + length (take (left * T.width - length self.old.torn) piece.now)) / T.width }
        ensures few { result.0 ≤ left }
        ensures less { 0 < length piece.now → length result.1.now < length piece.now }
        ensures short { length self.new.torn < T.width }
        ensures room { vec_len self.new.cells + (length self.new.torn + length result.1.now) / T.width
            ≤ vec_capacity self.new.cells }
        ensures fewer { vec_len self.new.cells + length self.new.torn + length result.1.now
            ≤ vec_len self.old.cells + length self.old.torn + length piece.now }
    {
        let width = T::width();
        let due = left as usize * width - self.torn.len();
        let (mine, rest) = piece.split_at(due.min(piece.len()));
        let came = (self.torn.len() + mine.len()) / width;
        self.feed(mine);
        (came as u32, rest)
    }
}

/// Adds the whole cells at the front of the bytes. The rest of them.
fn push_whole<'b, T: Cell + Drop>(cells: &mut Vec<T>, bytes: &'b [u8]) -> &'b [u8]
    requires room { vec_len cells.old + length bytes.now / T.width ≤ vec_capacity cells.old }
    ensures cells { cells.new.items ≡ cells.old.items ++ cells_of T.width T.cell bytes.now }
    ensures rest { result.now ≡ torn_of T.width bytes.now }
    ensures count { vec_len cells.new ≡ vec_len cells.old + length bytes.now / T.width }
    ensures capacity { vec_capacity cells.new ≡ vec_capacity cells.old }
{
    let width = T::width();
    let mut rest = bytes;
    while rest.len() >= width {
        let (cell, after) = rest.split_at(width);
        cells.push_reserved(T::read(cell));
        rest = after;
    }
    rest
}
