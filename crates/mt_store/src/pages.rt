//! The pages of a table, where a row stands among them, and edits of one row.
ghost use Rattle.std.specs.Prelude.{◌≡◌, ℕ, ◌<◌, ◌≤◌, ◌^◌, [], ◌∷◌, Some, None, OnOk, drop, if◌then◌else◌, is_ok, length, slice_get, take};
ghost use Rattle.std.specs.List.{find, insert};
ghost use Rattle.std.specs.Option.{option_copied};
ghost use Rattle.mt_store.specs.Pages.{AreAbove, AreBelow, AreInOrder, FitsAt, IsBeside, IsPageFor, IsWithPage, IsWithRow, PutsRow, ReplacesRow, Seeks, SetsRow, StandsAt, TakesRow, first_row, halved, in_half, is_above, page_at, row_of, rows_from, rows_in};

use crate::page::Page;
use mt_model::SharedValue;
use std::alloc::{AllocError, Global};
use std::marker::Model;

/// A page has at most so many rows.
const MOST: usize = 64;

/// Where a row stands, or would: the place of a page among the others, and the row's own in it. It tells of the pages as
/// they are, so that it is of no use once a row more or less stands there.
#[derive(Clone, Copy)]
pub struct Spot {
    pub page: usize,
    pub at: usize,
}

/// The rows of a table, whose keys differ, in the order of their keys. They stand in pages of at most 64, none of them empty. A
/// page that is full is cut in halves where a row comes between two of its own; a row behind them gets a page of its own, and so
/// does a row before those of a page of 32 and more, so that rows whose keys rise fill pages of 64, and rows whose keys fall pages
/// of 32. What is left of pages as rows go isn't joined.
#[derive(Drop)]
pub struct Pages {
    pages: Vec<Page>,
}

impl Model for Pages {
    ghost use Rattle.std.specs.Prelude.{List};
    ghost use Rattle.mt_store.specs.Pages.{ArePages, Rows};

    ghost Value = { List Rows };

    ghost view = { λ p. p.pages.items };

    ghost invariant = { λ p. ArePages p.pages.items };
}

impl Pages {
    /// No rows. It takes no memory.
    pub fn new(alloc: Global) -> Self
        ensures { result ≡ [] }
    {
        Pages {
            pages: Vec::new(alloc),
        }
    }

    /// What is true of all pages, for the proofs of callers: the rows are in the order of their keys. It does nothing.
    pub fn facts(&self)
        ensures { AreInOrder (rows_in self.now) }
    {
        // A proof knows what holds of the field once it is read.
        let _pages = &self.pages;
    }

    /// The value of the row of a key. It takes no memory.
    pub fn get(&self, key: u64) -> Option<&SharedValue>
        ensures { option_copied result ≡ row_of self.now key }
    {
        let _pages = &self.pages;
        match self.seek(key) {
            Ok(spot) => Some(&self.at(spot).1),
            Err(_) => None,
        }
    }

    /// The first row, or the first above a key. It takes no memory.
    pub fn row_after(&self, key: Option<u64>) -> Option<&(u64, SharedValue)>
        ensures { option_copied result ≡ find (λ row. is_above key row.0) (rows_in self.now) }
    {
        let _pages = &self.pages;
        let Some(key) = key else {
            return self.first_from(0);
        };
        match self.seek(key) {
            Ok(spot) => self.from(Spot {
                page: spot.page,
                at: spot.at + 1,
            }),
            Err(spot) => self.from(spot),
        }
    }

    /// Where the row of a key stands, or else where it would. It takes no memory.
    pub fn seek(&self, key: u64) -> Result<Spot, Spot>
        ensures { Seeks self.now key result }
    {
        let page = self.page_for(key);
        match self.pages.get(page) {
            None => Err(Spot { page, at: 0 }),
            Some(found) => match found.seek(key) {
                Ok(at) => Ok(Spot { page, at }),
                Err(at) => Err(Spot { page, at }),
            },
        }
    }

    /// The row that stands at a spot. It takes no memory.
    pub fn at(&self, spot: Spot) -> &(u64, SharedValue)
        requires { (key : ℕ) × StandsAt self.now key spot }
        ensures { slice_get (page_at self.now spot.page) spot.at ≡ Some result.now }
    {
        self.pages[spot.page].at(spot.at)
    }

    /// Puts a row where it fits. `AllocError` if there is no memory for it, and then all rows stay, though a page may have
    /// been cut.
    #[inline(always)]
    pub fn insert(&mut self, spot: Spot, key: u64, value: SharedValue) -> Result<(), AllocError>
        requires { FitsAt self.old key spot }
        ensures rows { PutsRow self.old key value result self.new }
        ensures whole { IsBeside self.old spot → OnOk result (IsWithPage self.old (key, value) self.new) }
    {
        if spot.page >= self.pages.len() {
            return self.open(spot.page, key, value);
        }
        let len = self.pages[spot.page].len();
        if spot.at == 0 && len >= MOST / 2 {
            return self.open(spot.page, key, value);
        }
        if len < MOST {
            return self.put(spot, key, value);
        }
        if spot.at == MOST {
            return self.open(spot.page + 1, key, value);
        }
        self.cut(spot.page)?;
        self.put(in_half(spot), key, value)
    }

    /// Gives the row that stands at a spot another value, and answers the one that it had. It takes no memory.
    pub fn replace(&mut self, spot: Spot, value: SharedValue) -> SharedValue
        requires { (key : ℕ) × StandsAt self.old key spot }
        ensures { ReplacesRow self.old spot value result self.new }
    {
        self.pages[spot.page].replace(spot.at, value)
    }

    /// Takes the row that stands at a spot away, and its page if it was the last one there. It takes no memory.
    pub fn remove(&mut self, spot: Spot) -> (u64, SharedValue)
        requires { (key : ℕ) × StandsAt self.old key spot }
        ensures { TakesRow self.old spot result self.new }
    {
        let row = self.pages[spot.page].remove(spot.at);
        if self.pages[spot.page].len() == 0 {
            let _ = self.pages.remove(spot.page);
        }
        row
    }

    /// Sets the row of a key, whatever stands there, and answers the value that it had, if there was one. `AllocError` if
    /// there is no memory for a row more, and then all rows stay.
    pub fn set(&mut self, key: u64, value: SharedValue) -> Result<Option<SharedValue>, AllocError>
        ensures { SetsRow self.old key value result self.new }
    {
        let _pages = &self.pages;
        match self.seek(key) {
            Ok(spot) => Ok(Some(self.replace(spot, value))),
            Err(spot) => {
                self.insert(spot, key, value)?;
                Ok(None)
            }
        }
    }

    /// Takes the row of a key away, and answers its value, if there is one. It takes no memory.
    pub fn take(&mut self, key: u64) -> Option<SharedValue>
        ensures stood { result ≡ row_of self.old key }
        ensures rows { IsWithRow self.old key None self.new }
    {
        let _pages = &self.pages;
        match self.seek(key) {
            Ok(spot) => Some(self.remove(spot).1),
            Err(_) => None,
        }
    }

    /// The place of the one page that may have the row of a key: the last that begins no later, or else the first.
    fn page_for(&self, key: u64) -> usize
        ensures { IsPageFor self.now key result }
    {
        self.pages
            .partition_point(|page| page.first_key() <= key)
            .saturating_sub(1)
    }

    /// The first row of the pages from a place on.
    fn first_from(&self, place: usize) -> Option<&(u64, SharedValue)>
        ensures { option_copied result ≡ first_row (rows_in (drop place self.now)) }
    {
        self.pages.get(place)?.first()
    }

    /// The first row from a spot on.
    fn from(&self, spot: Spot) -> Option<&(u64, SharedValue)>
        requires { spot.page < 2 ^ 63 }
        ensures { option_copied result ≡ first_row (rows_from self.now spot) }
    {
        match self.pages.get(spot.page) {
            Some(page) if spot.at < page.len() => Some(page.at(spot.at)),
            _ => self.first_from(spot.page + 1),
        }
    }

    /// Puts a row into a page that has room for it. If there is no memory nothing changes.
    #[inline(always)]
    fn put(&mut self, spot: Spot, key: u64, value: SharedValue) -> Result<(), AllocError>
        requires fits { FitsAt self.old key spot }
        requires page { spot.page < length self.old }
        requires room { length (page_at self.old spot.page) < 64 }
        ensures { PutsRow self.old key value result self.new }
    {
        self.pages[spot.page].insert(spot.at, key, value)
    }

    /// Puts a row into a page of its own, before the pages from a place on. If there is no memory nothing changes.
    #[inline(never)]
    fn open(&mut self, place: usize, key: u64, value: SharedValue) -> Result<(), AllocError>
        requires place { place ≤ length self.old }
        requires before { AreBelow key (rows_in (take place self.old)) }
        requires behind { AreAbove key (rows_in (drop place self.old)) }
        ensures rows { PutsRow self.old key value result self.new }
        ensures page { OnOk result (self.new ≡ insert self.old place ((key, value) ∷ [])) }
    {
        let page = Page::of_one(*self.pages.allocator(), key, value)?;
        match self.pages.insert(place, page) {
            Ok(()) => Ok(()),
            Err(_) => Err(AllocError),
        }
    }

    /// Cuts a page of 64 rows in halves. If there is no memory nothing changes.
    #[inline(never)]
    fn cut(&mut self, place: usize) -> Result<(), AllocError>
        requires page { place < length self.old }
        requires full { length (page_at self.old place) ≡ 64 }
        ensures { self.new ≡ (if is_ok result then halved self.old place else self.old) }
    {
        self.pages.reserve(1)?;
        let behind = self.pages[place].split_off(MOST / 2)?;
        match self.pages.insert(place + 1, behind) {
            Ok(()) => Ok(()),
            Err(_) => unreachable!(),
        }
    }
}

/// A spot of a page that is cut, in one of its halves.
fn in_half(spot: Spot) -> Spot
    requires { spot.page < 2 ^ 63 }
    ensures { result ≡ in_half spot }
{
    if spot.at <= MOST / 2 {
        spot
    } else {
        Spot {
            page: spot.page + 1,
            at: spot.at - MOST / 2,
        }
    }
}
