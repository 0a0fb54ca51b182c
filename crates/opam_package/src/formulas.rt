// What a package depends on, from nodes that have no fault.
ghost use Rattle.std.specs.FinMap as table;
ghost use Rattle.std.specs.Prelude.{[], ◌≡◌, IfOk, OnOk, codes, false, map, true};
ghost use Rattle.std.specs.List.{flat_map};
ghost use Rattle.opam_filter.specs.Reductions.{reduced};
ghost use Rattle.opam_filter.specs.Scopes.{plain};
ghost use Rattle.opam_filter.specs.Trees.{read};
ghost use Rattle.opam_filter.specs.declared.truth.VarValue.TheVariants.{Flag, Text as Told};
ghost use Rattle.opam_package.specs.Forms.{filter_faults, formula_faults, formulas_faults};
ghost use Rattle.opam_package.specs.Packages as packages;
ghost use Rattle.opam_package.specs.Packages.{reading_values};
ghost use Rattle.opam_package.specs.Readings.{need_under};

use crate::Need;
use crate::commands::build_filter;
use crate::views::values_of;
use opam_filter::{
    FilterFault, Formula, Reduced, Truth, VarValue, Vars, atoms, eval, read_formula, reduce,
};
use opam_names::{Items, OutOfMemory, Pkg, Text};
use std::alloc::Global;
use syntax_trees::{Node, Var, Word};

fn set_value(alloc: Global, vars: &mut Vars, name: &str, value: VarValue) -> Result<(), OutOfMemory>
    ensures { OnOk result (vars.new ≡ table.insert vars.old (plain name.now) value) }
{
    let variable = Var {
        scope: None,
        name: Word::from_string(String::from_str(alloc, name)?),
    };
    vars.set(variable, value)
}

/// The variables of the whole run, and the package's own name and version.
pub(crate) fn own_vars(alloc: Global, pkg: &Pkg, globals: &Vars) -> Result<Vars, OutOfMemory>
    ensures { IfOk result (λ vars. vars ≡ packages.own_values pkg.now globals.now) }
{
    let mut vars = globals.copy(alloc)?;
    let name = Text::from_str(alloc, pkg.name.as_str())?;
    set_value(alloc, &mut vars, "name", VarValue::Text(name))?;
    let version = Text::from_str(alloc, pkg.version.as_str())?;
    set_value(alloc, &mut vars, "version", VarValue::Text(version))?;
    Ok(vars)
}

/// The same with `build` and `post`.
pub(crate) fn reading_vars(
    alloc: Global,
    build: bool,
    post: bool,
    vars: &Vars,
) -> Result<Vars, OutOfMemory>
    ensures { IfOk result (λ all. all ≡ reading_values build post vars.now) }
{
    let mut all = vars.copy(alloc)?;
    set_value(alloc, &mut all, "build", VarValue::Flag(build))?;
    set_value(alloc, &mut all, "post", VarValue::Flag(post))?;
    Ok(all)
}

/// The variables of the three readings of `depends`.
#[derive(Drop)]
pub(crate) struct Readings {
    pub(crate) runtime: Vars,
    pub(crate) building: Vars,
    pub(crate) full: Vars,
}

pub(crate) fn make_readings(alloc: Global, vars: &Vars) -> Result<Readings, OutOfMemory>
    ensures runtime { IfOk result (λ all. all.runtime ≡ reading_values false false vars.now) }
    ensures building { IfOk result (λ all. all.building ≡ reading_values true false vars.now) }
    ensures full { IfOk result (λ all. all.full ≡ reading_values true true vars.now) }
{
    Ok(Readings {
        runtime: reading_vars(alloc, false, false, vars)?,
        building: reading_vars(alloc, true, false, vars)?,
        full: reading_vars(alloc, true, true, vars)?,
    })
}

// The formula that a node is.
fn build_formula(alloc: Global, node: &Node) -> Result<Formula, OutOfMemory>
    requires { formula_faults node.now ≡ [] }
    ensures { IfOk result (λ formula. formula ≡ (read node.now).formula) }
{
    match read_formula(alloc, node) {
        Ok(formula) => Ok(formula),
        Err(FilterFault::Memory) => Err(OutOfMemory),
        Err(_) => unreachable!(),
    }
}

fn build_need(alloc: Global, node: &Node, readings: &Readings) -> Result<Need, OutOfMemory>
    requires { formula_faults node.now ≡ [] }
    ensures { IfOk result (λ need. need ≡ need_under readings.now node.now) }
{
    let formula = build_formula(alloc, node)?;
    Ok(Need {
        runtime: reduce(alloc, &formula, &readings.runtime)?,
        building: reduce(alloc, &formula, &readings.building)?,
        full: reduce(alloc, &formula, &readings.full)?,
    })
}

fn build_needs_by(
    alloc: Global,
    nodes: &[Node],
    readings: &Readings,
) -> Result<Items<Need>, OutOfMemory>
    requires { flat_map formula_faults nodes.now ≡ [] }
    ensures { IfOk result (λ needs. needs ≡ map (need_under readings.now) nodes.now) }
{
    let mut needs = Items::new(alloc);
    for node in nodes {
        needs.push(build_need(alloc, node, readings)?)?;
    }
    Ok(needs)
}

/// A need for each value of a list, or for the one value.
pub(crate) fn build_needs(
    alloc: Global,
    node: &Node,
    vars: &Vars,
) -> Result<Items<Need>, OutOfMemory>
    requires { formulas_faults node.now ≡ [] }
    ensures { IfOk result (λ needs. needs ≡ packages.needs_of vars.now node.now) }
{
    let readings = make_readings(alloc, vars)?;
    build_needs_by(alloc, values_of(node), &readings)
}

fn reduce_each(
    alloc: Global,
    formulas: &[Formula],
    vars: &Vars,
) -> Result<Items<Reduced>, OutOfMemory>
    ensures { IfOk result (λ all. all ≡ map (reduced vars.now) formulas.now) }
{
    let mut all = Items::new(alloc);
    for formula in formulas {
        all.push(reduce(alloc, formula, vars)?)?;
    }
    Ok(all)
}

/// Each atom of a formula alone.
pub(crate) fn build_atoms(
    alloc: Global,
    node: &Node,
    vars: &Vars,
) -> Result<Items<Reduced>, OutOfMemory>
    requires { formula_faults node.now ≡ [] }
    ensures { IfOk result (λ all. all ≡ packages.atoms_of vars.now node.now) }
{
    let formulas = atoms(alloc, build_formula(alloc, node)?)?;
    reduce_each(alloc, formulas.as_slice(), vars)
}

/// Whether the filter is Yes.
pub(crate) fn build_available(alloc: Global, node: &Node, vars: &Vars) -> Result<bool, OutOfMemory>
    requires { filter_faults node.now ≡ [] }
    ensures { IfOk result (λ is. is ≡ packages.is_available vars.now (Some node.now)) }
{
    let filter = build_filter(alloc, node)?;
    Ok(eval(alloc, &filter, vars)? == Truth::Yes)
}
