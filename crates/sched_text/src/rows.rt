ghost use Rattle.std.specs.Prelude.{◌≡◌, ◌≤◌, ◌<◌, [], ◌∷◌, ◌++◌, length, take, drop, slice_set, OnOk};

use sp_base::Memory;
use std::alloc::Global;
use std::marker::Model;

/// A vector that contracts see as the list of its elements.
#[derive(Debug, Drop)]
pub struct Rows<T> {
    rows: Vec<T>,
}

impl<T> Model for Rows<T> {
    ghost use Rattle.std.specs.Prelude.{List};

    ghost Value = { List T };

    ghost view = { λ r. r.rows.items };
}

impl<T> Rows<T> {
    pub fn new(alloc: Global) -> Rows<T>
        ensures { result ≡ [] }
    {
        Rows {
            rows: Vec::new(alloc),
        }
    }

    /// The elements of a vector, which needs no memory.
    pub fn from_vec(rows: Vec<T>) -> Rows<T>
        ensures { result ≡ rows.items }
    {
        Rows { rows }
    }

    /// The elements as a vector again, which needs no memory.
    pub fn into_vec(self) -> Vec<T>
        ensures { result.items ≡ self }
    {
        let Rows { rows } = self;
        rows
    }

    pub fn as_slice(&self) -> &[T]
        ensures { result.now ≡ self.now }
    {
        self.rows.as_slice()
    }

    pub fn len(&self) -> usize
        ensures { result ≡ length self.now }
    {
        self.rows.len()
    }
}

impl<T: Drop> Rows<T> {
    pub fn push(&mut self, row: T) -> Result<(), Memory>
        ensures { OnOk result (self.new ≡ self.old ++ row ∷ []) }
    {
        self.rows.push(row)?;
        Ok(())
    }

    /// Puts an element at a place, before those from there on.
    pub fn insert(&mut self, at: usize, row: T) -> Result<(), Memory>
        requires { at ≤ length self.old }
        ensures { OnOk result (self.new ≡ take at self.old ++ row ∷ drop at self.old) }
    {
        self.rows.insert(at, row)?;
        Ok(())
    }

    /// Puts an element in place of another.
    pub fn set(&mut self, at: usize, row: T)
        requires { at < length self.old }
        ensures { self.new ≡ slice_set self.old at row }
    {
        self.rows[at] = row;
    }
}
