// The names that a change takes from a switch, or brings there.
ghost use Rattle.std.specs.Prelude.{◌≡◌, ◌+◌, ◌<◌, ◌++◌, ◌^◌, length, map, IfOk, OnOk};
ghost use Rattle.std.specs.Option.{option_copied};
ghost use Rattle.opam_names.specs.ByteOrders.{NeverFallsBy};
ghost use Rattle.action_graph.specs.Leaving as leaving;
ghost use Rattle.action_graph.specs.Links.{member_names};
ghost use Rattle.action_graph.specs.Nodes as nodes;
ghost use Rattle.action_graph.specs.Nodes.{Affects, Depends, IsAsked, both_names};
ghost use Rattle.action_graph.specs.Places.{AreBelow, places_from};

use crate::links::edge_places;
use crate::lookup::{InOrder, Index, Lookup, called};
use crate::reach::{Steps, reach};
use crate::rows::{Rows, empty_rows};
use opam_names::{Items, Name, OutOfMemory, has_bytes};
use opam_package::Member;
use std::alloc::Global;

// What a change is made of. The members of the target stand in the byte order of their names, and so do the names of
// those that are built once more.
#[derive(Drop)]
pub(crate) struct Change<'a> {
    pub(crate) installed: &'a [Member],
    pub(crate) index: &'a Index,
    pub(crate) members: &'a [Member],
    pub(crate) redo: &'a [Name],
}

fn same_version(one: Option<&Member>, other: Option<&Member>) -> bool
    ensures { result ≡ leaving.same_version
        (option_copied one.entry) (option_copied other.entry) }
{
    match (one, other) {
        (None, None) => true,
        (Some(one), Some(other)) => one.package.pkg.version == other.package.pkg.version,
        _ => false,
    }
}

impl<'a> Change<'a> {
    fn is_touched(&self, name: &Name) -> bool
        requires suits { IsAsked self.now }
        requires redo { NeverFallsBy (λ one. one) self.now.redo.now }
        ensures { result ≡ leaving.is_touched
            self.now.installed.now self.now.members.now self.now.redo.now name.now }
    {
        let entry = called(self.installed, self.index, name);
        let member = called(self.members, &InOrder, name);
        !same_version(entry, member) || has_bytes(self.redo, name.as_str().as_bytes())
    }

    // Adds the places of those whose names are touched, from one place on.
    fn note_touched(
        &self,
        some: &[Member],
        from: usize,
        touched: &mut Items<u32>,
    ) -> Result<(), OutOfMemory>
        requires suits { IsAsked self.now }
        requires redo { NeverFallsBy (λ one. one) self.now.redo.now }
        requires small { from + length some.now < 2 ^ 32 }
        ensures { OnOk result (touched.new ≡ touched.old ++ places_from
            (leaving.is_touched self.now.installed.now self.now.members.now self.now.redo.now)
            from (member_names some.now)) }
    {
        for at in 0..some.len() {
            if self.is_touched(&some[at].package.pkg.name) {
                touched.push((from + at) as u32)?;
            }
        }
        Ok(())
    }

    fn touched(&self, alloc: Global) -> Result<Items<u32>, OutOfMemory>
        requires suits { IsAsked self.now }
        requires redo { NeverFallsBy (λ one. one) self.now.redo.now }
        ensures { IfOk result (λ places. places ≡ places_from
            (leaving.is_touched self.now.installed.now self.now.members.now self.now.redo.now)
            0 (both_names self.now.installed.now self.now.members.now)) }
    {
        let mut touched = Items::new(alloc);
        self.note_touched(self.members, 0, &mut touched)?;
        self.note_touched(self.installed, self.members.len(), &mut touched)?;
        Ok(touched)
    }

    // Where the name of an entry stands: among the members of the target, or behind them.
    pub(crate) fn node_at(&self, at: usize) -> u32
        requires suits { IsAsked self.now }
        requires within { at < length self.now.installed.now }
        ensures value { result ≡ nodes.node_at self.now.installed.now self.now.members.now at }
        ensures within { result < length self.now.members.now + length self.now.installed.now }
    {
        match InOrder.find(self.members, &self.installed[at].package.pkg.name) {
            Some(place) => place,
            None => (self.members.len() + at) as u32,
        }
    }

    fn nodes_of(&self, alloc: Global, places: &[u32]) -> Result<Items<u32>, OutOfMemory>
        requires suits { IsAsked self.now }
        requires within { AreBelow places.now (length self.now.installed.now) }
        ensures { IfOk result (λ found. found ≡ map
            (nodes.node_at self.now.installed.now self.now.members.now) places.now) }
    {
        let mut found = Items::new(alloc);
        for place in places {
            found.push(self.node_at(*place as usize))?;
        }
        Ok(found)
    }

    fn edges_called(&self, alloc: Global, name: &Name) -> Result<Items<u32>, OutOfMemory>
        requires suits { IsAsked self.now }
        ensures { IfOk result (λ places.
            places ≡ nodes.edges_called self.now.members.now name.now) }
    {
        match called(self.members, &InOrder, name) {
            None => Ok(Items::new(alloc)),
            Some(member) => edge_places(alloc, &member.package, self.members, &InOrder),
        }
    }

    // Where that stands which an entry has an edge to, where it is installed or in the target.
    fn leads_at(&self, alloc: Global, at: usize) -> Result<Items<u32>, OutOfMemory>
        requires suits { IsAsked self.now }
        requires within { at < length self.now.installed.now }
        ensures { IfOk result (λ leads.
            leads ≡ nodes.leads_at self.now.installed.now self.now.members.now at) }
    {
        let entry = &self.installed[at];
        let edges = edge_places(alloc, &entry.package, self.installed, self.index)?;
        let mut leads = self.nodes_of(alloc, edges.as_slice())?.into_vec();
        let mut more = self
            .edges_called(alloc, &entry.package.pkg.name)?
            .into_vec();
        leads.append(&mut more)?;
        Ok(Items::from_vec(leads))
    }

    // For each name the entries that have an edge to it.
    fn dependents(&self, alloc: Global) -> Result<Rows, OutOfMemory>
        requires suits { IsAsked self.now }
        ensures { IfOk result (λ rows. Depends self.now.installed.now self.now.members.now
            (length self.now.installed.now) rows) }
    {
        let mut rows = empty_rows(alloc, self.members.len() + self.installed.len())?;
        for at in 0..self.installed.len() {
            let leads = self.leads_at(alloc, at)?;
            rows.add_to(leads.as_slice(), self.node_at(at))?;
        }
        Ok(rows)
    }

    // Which names are affected, by where they stand.
    pub(crate) fn affected(&self, alloc: Global) -> Result<Items<bool>, OutOfMemory>
        requires suits { IsAsked self.now }
        requires redo { NeverFallsBy (λ one. one) self.now.redo.now }
        ensures { IfOk result
            (Affects self.now.installed.now self.now.members.now self.now.redo.now) }
    {
        let rows = self.dependents(alloc)?;
        let starts = self.touched(alloc)?;
        let found = reach(alloc, &rows, rows.len(), starts.as_slice())?;
        found.marks(alloc)
    }
}

// From each place to those of its row.
impl Steps for Rows {
    ghost use Rattle.std.specs.Prelude.{length};
    ghost use Rattle.action_graph.specs.Listing.{RowsWithin, row};

    ghost fit = { λ rows. RowsWithin rows (length rows) };

    ghost count = { λ rows. length rows };

    ghost leads = { λ rows. row rows };

    fn next(&self, alloc: Global, from: u32) -> Result<Items<u32>, OutOfMemory> {
        Items::from_slice(alloc, self.row(from as usize))
    }
}
