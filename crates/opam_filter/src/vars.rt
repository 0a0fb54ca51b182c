// The variables that have a value.
ghost use Rattle.std.specs.FinMap as map;
ghost use Rattle.std.specs.Option.{option_copied};
ghost use Rattle.std.specs.Prelude.{◌≡◌, IfOk, OnErr, OnOk};

use crate::VarValue;
use crate::copies::copy_variable;
use opam_names::OutOfMemory;
use std::alloc::Global;
use std::collections::BTreeMap;
use std::marker::Model;
use syntax_trees::Var;

/// Variables with their values, seen as a finite map.
#[derive(Drop)]
pub struct Vars {
    table: BTreeMap<Var, VarValue>,
}

impl Model for Vars {
    ghost use Rattle.std.specs.FinMap as map;
    ghost use Rattle.opam_filter.specs.Variables.{Values, coded_var, coded_value};

    ghost Value = { Values };

    ghost coded = { map.code coded_var coded_value };

    ghost view = { λ v. map.from_entries v.table.entries };
}

impl Vars {
    pub fn empty(alloc: Global) -> Vars
        ensures { result ≡ map.empty }
    {
        Vars {
            table: BTreeMap::new(alloc),
        }
    }

    /// The value that the variable had before is lost.
    pub fn set(&mut self, var: Var, value: VarValue) -> Result<(), OutOfMemory>
        ensures ok { OnOk result (self.new ≡ map.insert self.old var value) }
        ensures err { OnErr result (self.new ≡ self.old) }
    {
        self.table.insert(var, value)?;
        Ok(())
    }

    pub fn copy(&self, alloc: Global) -> Result<Vars, OutOfMemory>
        ensures { IfOk result (λ copy. copy ≡ self.now) }
    {
        let mut copy = Vars::empty(alloc);
        let mut left = self.table.iter();
        // Of entries with one key the first would count: they are put in from the end.
        while let Some((var, value)) = left.next_back() {
            copy.set(copy_variable(alloc, var)?, value.copy(alloc)?)?;
        }
        Ok(copy)
    }

    /// The value set for just this scope and name: a scope of several packages is not taken apart.
    pub fn value(&self, var: &Var) -> Option<&VarValue>
        ensures { option_copied result ≡ map.get self.now var.now }
    {
        self.table.get(var)
    }
}
