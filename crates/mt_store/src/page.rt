//! A page: some rows with their keys, one behind the other in one piece of memory.
ghost use Rattle.std.specs.Prelude.{◌≡◌, ℕ, ◌+◌, ◌<◌, ◌≤◌, [], ◌∷◌, ◌++◌, Some, IfOk, drop, if◌then◌else◌, is_ok, length, slice_get, slice_set, take};
ghost use Rattle.std.specs.List.{insert};
ghost use Rattle.std.specs.Option.{option_copied};
ghost use Rattle.mt_model.specs.Rows.{RowValue};
ghost use Rattle.mt_store.specs.Pages.{AreInOrder, SeeksIn, first_key, first_row};

use mt_model::SharedValue;
use std::alloc::{AllocError, Global};
use std::marker::Model;
use std::mem::replace;

/// For so many rows a page has room at first.
const FIRST: usize = 16;

/// Rows with their keys. Its room grows with them, so that a small table takes little memory.
#[derive(Drop)]
pub struct Page {
    rows: Vec<(u64, SharedValue)>,
}

impl Model for Page {
    ghost use Rattle.mt_store.specs.Pages.{Rows};

    ghost Value = { Rows };

    ghost view = { λ page. page.rows.items };
}

impl Page {
    /// A page of one row. `AllocError` if there is no memory for it.
    pub fn of_one(alloc: Global, key: u64, value: SharedValue) -> Result<Self, AllocError>
        ensures { IfOk result (λ page. page ≡ (key, value) ∷ []) }
    {
        let mut rows = Vec::with_capacity(alloc, FIRST)?;
        match rows.push((key, value)) {
            Ok(()) => Ok(Page { rows }),
            Err(_) => Err(AllocError),
        }
    }

    /// How many rows it has.
    pub fn len(&self) -> usize
        ensures { result ≡ length self.now }
    {
        self.rows.len()
    }

    /// Its first row.
    pub fn first(&self) -> Option<&(u64, SharedValue)>
        ensures { option_copied result ≡ first_row self.now }
    {
        self.rows.first()
    }

    /// The key of its first row; 0 if it has none.
    pub fn first_key(&self) -> u64
        ensures { result ≡ first_key self.now }
    {
        match self.rows.first() {
            Some(row) => row.0,
            None => 0,
        }
    }

    /// Where the row of a key stands in it, or else where it would.
    pub fn seek(&self, key: u64) -> Result<usize, usize>
        requires { AreInOrder self.now }
        ensures { SeeksIn self.now key result }
    {
        self.rows.binary_search_by_key(&key, |row| row.0)
    }

    /// The row at a place.
    pub fn at(&self, at: usize) -> &(u64, SharedValue)
        requires { at < length self.now }
        ensures { slice_get self.now at ≡ Some result.now }
    {
        &self.rows[at]
    }

    /// Puts a row at a place, before those from there on. `AllocError` if there is no memory for it, and then the page
    /// stays as it is.
    #[inline(always)]
    pub fn insert(&mut self, at: usize, key: u64, value: SharedValue) -> Result<(), AllocError>
        requires { at ≤ length self.old }
        ensures { self.new ≡ (if is_ok result then insert self.old at (key, value) else self.old) }
    {
        match self.rows.insert(at, (key, value)) {
            Ok(()) => Ok(()),
            Err(_) => Err(AllocError),
        }
    }

    /// Gives the row at a place another value, and answers the one that it had.
    pub fn replace(&mut self, at: usize, value: SharedValue) -> SharedValue
        requires { at < length self.old }
        ensures { (row : ℕ × RowValue) → slice_get self.old at ≡ Some row → (result ≡ row.1) × (self.new ≡ slice_set self.old at (row.0, value)) }
    {
        replace(&mut self.rows[at].1, value)
    }

    /// Takes the row at a place away.
    pub fn remove(&mut self, at: usize) -> (u64, SharedValue)
        requires { at < length self.old }
        ensures value { (row : ℕ × RowValue) → slice_get self.old at ≡ Some row → result ≡ row }
        ensures rows { self.new ≡ take at self.old ++ drop (at + 1) self.old }
    {
        self.rows.remove(at)
    }

    /// Takes the rows from a place on into a page of their own. `AllocError` if there is no memory for it, and then the
    /// page stays as it is.
    pub fn split_off(&mut self, at: usize) -> Result<Page, AllocError>
        requires { at ≤ length self.old }
        ensures rows { self.new ≡ (if is_ok result then take at self.old else self.old) }
        ensures behind { IfOk result (λ page. page ≡ drop at self.old) }
    {
        let rows = self.rows.split_off(at)?;
        Ok(Page { rows })
    }
}
