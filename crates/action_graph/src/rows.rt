// A list of places for each place.
ghost use Rattle.std.specs.Prelude.{◌≡◌, ◌<◌, ◌^◌, [], ◌∷◌, ◌++◌, length, replicate, slice_index_or, slice_set, IfOk, OnOk, EachIndex, slice_index};
ghost use Rattle.action_graph.specs.Listing.{AddsTo, RowsWithin, Turns, row};

use opam_names::{Items, OutOfMemory};
use std::alloc::Global;
use std::marker::Model;

#[derive(Drop)]
pub(crate) struct Rows {
    inner: Vec<Vec<u32>>,
}

impl Model for Rows {
    ghost use Rattle.std.specs.Prelude.{ℕ, List, map};
    ghost use Rattle.std.specs.Coded.{coded_list, coded_ℕ};

    ghost Value = { List (List ℕ) };

    ghost coded = { coded_list (coded_list coded_ℕ) };

    ghost view = { λ rows. map (λ row. row.items) rows.inner.items };
}

impl Rows {
    pub(crate) fn none(alloc: Global) -> Rows
        ensures { result ≡ [] }
    {
        Rows {
            inner: Vec::new(alloc),
        }
    }

    pub(crate) fn len(&self) -> usize
        ensures { result ≡ length self.now }
    {
        self.inner.len()
    }

    pub(crate) fn push_row(&mut self, places: Items<u32>) -> Result<(), OutOfMemory>
        ensures { OnOk result (self.new ≡ self.old ++ places ∷ []) }
    {
        self.inner.push(places.into_vec())?;
        Ok(())
    }

    pub(crate) fn row(&self, at: usize) -> &[u32]
        requires { at < length self.now }
        ensures { result.now ≡ row self.now at }
    {
        self.inner[at].as_slice()
    }

    fn add(&mut self, at: usize, place: u32) -> Result<(), OutOfMemory>
        requires { at < length self.old }
        ensures { OnOk result
            (self.new ≡ slice_set self.old at (row self.old at ++ place ∷ [])) }
    {
        self.inner[at].push(place)?;
        Ok(())
    }

    pub(crate) fn add_to(&mut self, rows_of: &[u32], place: u32) -> Result<(), OutOfMemory>
        requires { EachIndex rows_of.now (λ i. slice_index rows_of.now i < length self.old) }
        ensures { OnOk result (AddsTo self.old self.new rows_of.now place) }
    {
        for at in rows_of {
            self.add(*at as usize, place)?;
        }
        Ok(())
    }
}

pub(crate) fn empty_rows(alloc: Global, count: usize) -> Result<Rows, OutOfMemory>
    ensures { IfOk result (λ rows. rows ≡ replicate count []) }
{
    let mut rows = Rows::none(alloc);
    for _i in 0..count {
        rows.push_row(Items::new(alloc))?;
    }
    Ok(rows)
}

// For each place those in whose rows it stands.
pub(crate) fn turned(alloc: Global, rows: &Rows) -> Result<Rows, OutOfMemory>
    requires small { length rows.now < 2 ^ 32 }
    requires within { RowsWithin rows.now (length rows.now) }
    ensures { IfOk result (λ others. Turns rows.now others) }
{
    let count = rows.len();
    let mut others = empty_rows(alloc, count)?;
    for from in 0..count {
        others.add_to(rows.row(from), from as u32)?;
    }
    Ok(others)
}
