// For each install the places of those that need it.
ghost use Rattle.std.specs.Prelude.{◌≡◌, ℕ, ◌+◌, ◌<◌, [], ◌∷◌, ◌++◌, cond, length, nat_eq, replicate, slice_set, IfOk, OnOk};
ghost use Rattle.change_floor.specs.Keeping.{Indexes, Notes, Turned, row_at};

use crate::index::Index;
use action_graph::Plan;
use opam_names::OutOfMemory;
use std::alloc::Global;
use std::marker::Model;

#[derive(Drop)]
pub(crate) struct Rows {
    inner: Vec<Vec<usize>>,
}

impl Model for Rows {
    ghost use Rattle.std.specs.Prelude.{ℕ, List, map};
    ghost use Rattle.std.specs.Coded.{coded_list, coded_ℕ};

    ghost Value = { List (List ℕ) };

    ghost coded = { coded_list (coded_list coded_ℕ) };

    ghost view = { λ rows. map (λ row. row.items) rows.inner.items };
}

impl Rows {
    fn empty(alloc: Global, count: usize) -> Result<Rows, OutOfMemory>
        ensures { IfOk result (λ rows. rows ≡ replicate count []) }
    {
        let mut inner = Vec::new(alloc);
        for _place in 0..count {
            inner.push(Vec::new(alloc))?;
        }
        Ok(Rows { inner })
    }

    pub(crate) fn row(&self, place: usize) -> &[usize]
        requires { place < length self.now }
        ensures { result.now ≡ row_at self.now place }
    {
        self.inner[place].as_slice()
    }

    fn add(&mut self, place: usize, dependent: usize) -> Result<(), OutOfMemory>
        requires { place < length self.old }
        ensures { OnOk result
            (self.new ≡ slice_set self.old place (row_at self.old place ++ dependent ∷ [])) }
    {
        self.inner[place].push(dependent)?;
        Ok(())
    }

    // An install is put into the row of each install that it needs.
    fn note(
        &mut self,
        plan: &Plan,
        index: &Index,
        needs: &[u32],
        dependent: usize,
    ) -> Result<(), OutOfMemory>
        requires known { Indexes plan.now index.now }
        requires counted { length self.old ≡ length plan.now.installs }
        ensures { OnOk result (Notes plan.now self.old needs.now dependent self.new) }
    {
        for need in needs {
            match index.place(*need) {
                Some(place) => self.add(place, dependent)?,
                None => {}
            }
        }
        Ok(())
    }
}

pub(crate) fn dependents_of(alloc: Global, plan: &Plan, index: &Index) -> Result<Rows, OutOfMemory>
    requires { Indexes plan.now index.now }
    ensures { IfOk result (Turned plan.now) }
{
    let installs = plan.installs.as_slice();
    let mut rows = Rows::empty(alloc, installs.len())?;
    for place in 0..installs.len() {
        rows.note(plan, index, installs[place].needs.as_slice(), place)?;
    }
    Ok(rows)
}
