// The items of a lock: what they bind, and what is wrong with them.
ghost use Rattle.std.specs.Prelude.{[], ◌≡◌, ◌++◌, IfOk, IsTrue, OnOk, bytes_eq, filter, map};
ghost use Rattle.std.specs.List.{flat_map, list_all, list_any};
ghost use Rattle.std.specs.Option.{option_copied};
ghost use Rattle.std.specs.declared.option.Option.TheVariants.{None};
ghost use Rattle.opam_names.specs.Names.{is_name, is_version};
ghost use Rattle.opam_filter.specs.Faults.{judged};
ghost use Rattle.opam_filter.specs.Trees.{read};
ghost use Rattle.opam_filter.specs.Truths.{is_yes};
ghost use Rattle.opam_filter.specs.Values.{filter_truth};
ghost use Rattle.opam_package.specs.Views as views;
ghost use Rattle.lock_check.specs.LockFaults.{inner_lock_faults, first_lock_fault};
ghost use Rattle.lock_check.specs.LockItems as items;

use crate::LockFault;
use crate::lock_fault::{inner_fault, sooner};
use opam_filter::{FilterFault, Truth, Vars, eval, filter_fault, read_filter};
use opam_names::{Items, Name, OutOfMemory, Pkg, ReadFault, Version};
use std::alloc::Global;
use std::collections::BTreeSet;
use std::slice;
use syntax_trees::{Node, RelOp, Value};

fn text_in(node: &Node) -> Option<&[u8]>
    ensures { option_copied result ≡ views.text_in node.now }
{
    match &node.value {
        Value::Text(bytes) => Some(bytes.as_slice()),
        _ => None,
    }
}

/// The values of a list, or the one value.
pub(crate) fn values_of(node: &Node) -> &[Node]
    ensures { result.now ≡ views.values_of node.now }
{
    match &node.value {
        Value::List(nodes) => nodes.as_slice(),
        _ => slice::from_ref(node),
    }
}

fn name_in(node: &Node) -> Option<&[u8]>
    ensures { option_copied result ≡ items.where_passed is_name (views.text_in node.now) }
{
    match text_in(node) {
        None => None,
        Some(bytes) => {
            if Name::is_name(bytes) {
                Some(bytes)
            } else {
                None
            }
        }
    }
}

fn version_in(node: &Node) -> Option<&[u8]>
    ensures { option_copied result ≡ items.where_passed is_version (views.text_in node.now) }
{
    match text_in(node) {
        None => None,
        Some(bytes) => {
            if Version::is_version(bytes) {
                Some(bytes)
            } else {
                None
            }
        }
    }
}

// Whether it is a constraint on the version.
fn is_constraint(node: &Node) -> bool
    ensures { result ≡ items.is_constraint node.now }
{
    match &node.value {
        Value::PreRel(_, _) => true,
        _ => false,
    }
}

// The version that the constraint `= "version"` asks for.
fn exact_version(node: &Node) -> Option<&[u8]>
    ensures { option_copied result ≡ items.exact_version node.now }
{
    match &node.value {
        Value::PreRel(RelOp::Eq, right) => version_in(right.get()),
        _ => None,
    }
}

fn joined_parts(node: &Node) -> &[Node]
    ensures { result.now ≡ items.joined_parts node.now }
{
    match &node.value {
        Value::And(nodes) => nodes.as_slice(),
        _ => slice::from_ref(node),
    }
}

fn item_name(item: &Node) -> Option<&[u8]>
    ensures { option_copied result ≡ items.item_name_at (views.outside item.now) }
{
    match &item.value {
        Value::Braced(before, _) => name_in(before.get()),
        _ => None,
    }
}

// The constraint on the version and the further filters.
fn conditions(item: &Node) -> &[Node]
    ensures { result.now ≡ items.conditions item.now }
{
    match &item.value {
        Value::Braced(_, nodes) => match nodes.as_slice() {
            [node] => joined_parts(node),
            _ => &[],
        },
        _ => &[],
    }
}

// The version of the one constraint among them.
fn one_version(nodes: &[Node]) -> Option<&[u8]>
    ensures { option_copied result ≡ items.one_version (filter items.is_constraint nodes.now) }
{
    let mut found = None;
    for node in nodes {
        if is_constraint(node) {
            if found.is_some() {
                return None;
            }
            found = Some(node);
        }
    }
    match found {
        None => None,
        Some(node) => exact_version(node),
    }
}

fn name_of(alloc: Global, bytes: &[u8]) -> Result<Name, OutOfMemory>
    requires { IsTrue (is_name bytes.now) }
    ensures { IfOk result (λ name. name ≡ bytes.now) }
{
    match Name::read(alloc, bytes) {
        Ok(name) => Ok(name),
        Err(ReadFault::Bad { .. }) => unreachable!(),
        Err(ReadFault::Memory) => Err(OutOfMemory),
    }
}

fn version_of(alloc: Global, bytes: &[u8]) -> Result<Version, OutOfMemory>
    requires { IsTrue (is_version bytes.now) }
    ensures { IfOk result (λ version. version ≡ bytes.now) }
{
    match Version::read(alloc, bytes) {
        Ok(version) => Ok(version),
        Err(ReadFault::Bad { .. }) => unreachable!(),
        Err(ReadFault::Memory) => Err(OutOfMemory),
    }
}

/// The package of an item; none of one that has another form.
fn item_pkg(alloc: Global, item: &Node) -> Result<Option<Pkg>, OutOfMemory>
    ensures { IfOk result (λ pkg. pkg ≡ items.item_pkg item.now) }
{
    match (item_name(item), one_version(conditions(item))) {
        (Some(name), Some(version)) => Ok(Some(Pkg {
            name: name_of(alloc, name)?,
            version: version_of(alloc, version)?,
        })),
        _ => Ok(None),
    }
}

// The fault of a part that is a further filter.
fn part_fault(node: &Node) -> Option<LockFault>
    ensures { result ≡ first_lock_fault (items.part_faults node.now) }
{
    if is_constraint(node) {
        None
    } else {
        inner_fault(filter_fault(node))
    }
}

// The first fault of the further filters.
#[tactic(auto, using(crate::proofs::FirstLockFaults::first_with_next))]
fn further_fault(item: &Node) -> Option<LockFault>
    ensures { result ≡ first_lock_fault (items.further_faults item.now) }
{
    let nodes = conditions(item);
    let mut first = None;
    for node in nodes {
        first = sooner(first, part_fault(node));
    }
    first
}

fn has_name(names: &BTreeSet<Name>, name: &Name) -> bool
    ensures { result ≡ list_any (bytes_eq name.now) names.now.keys }
{
    names.contains(name)
}

// The first fault of an item that stands behind others with these names.
fn item_fault(names: &BTreeSet<Name>, item: &Node, pkg: &Option<Pkg>) -> Option<LockFault>
    ensures { result ≡ first_lock_fault (items.faults_of_pkg names.now.keys item.now pkg.now) }
{
    match pkg {
        None => Some(LockFault::Unbound { span: item.span }),
        Some(pkg) => {
            let fault = further_fault(item);
            if has_name(names, &pkg.name) {
                sooner(Some(LockFault::Twice { span: item.span }), fault)
            } else {
                fault
            }
        }
    }
}

fn note_name(names: &mut BTreeSet<Name>, pkg: Option<Pkg>) -> Result<(), OutOfMemory>
    ensures { OnOk result (names.new.keys ≡ items.names_with names.old.keys pkg) }
{
    if let Some(pkg) = pkg {
        names.insert(pkg.name)?;
    }
    Ok(())
}

/// The first fault of the items of a lock.
pub(crate) fn items_fault(alloc: Global, nodes: &[Node]) -> Result<Option<LockFault>, OutOfMemory>
    ensures { IfOk result (λ fault. fault ≡ first_lock_fault (items.faults_behind [] nodes.now)) }
{
    let mut names = BTreeSet::new(alloc);
    let mut first = None;
    for item in nodes {
        let pkg = item_pkg(alloc, item)?;
        first = sooner(first, item_fault(&names, item, &pkg));
        note_name(&mut names, pkg)?;
    }
    Ok(first)
}

// Whether the filter is true.
fn is_yes(alloc: Global, node: &Node, globals: &Vars) -> Result<bool, OutOfMemory>
    requires { (judged node.now).filter ≡ None }
    ensures { IfOk result (λ yes. yes ≡ is_yes (filter_truth globals.now (read node.now).filter)) }
{
    match read_filter(alloc, node) {
        Ok(filter) => Ok(eval(alloc, &filter, globals)? == Truth::Yes),
        Err(FilterFault::Memory) => Err(OutOfMemory),
        Err(_) => unreachable!(),
    }
}

// Whether a part that is a further filter is true.
fn passes(alloc: Global, node: &Node, globals: &Vars) -> Result<bool, OutOfMemory>
    requires { items.part_faults node.now ≡ [] }
    ensures { IfOk result (λ passed. passed ≡ items.passes globals.now node.now) }
{
    if is_constraint(node) {
        return Ok(true);
    }
    is_yes(alloc, node, globals)
}

// The same of each of several parts.
fn passed(alloc: Global, nodes: &[Node], globals: &Vars) -> Result<Items<bool>, OutOfMemory>
    requires { flat_map items.part_faults nodes.now ≡ [] }
    ensures { IfOk result (λ flags. flags ≡ map (items.passes globals.now) nodes.now) }
{
    let mut flags = Items::new(alloc);
    for node in nodes {
        let flag = passes(alloc, node, globals)?;
        flags.push(flag)?;
    }
    Ok(flags)
}

fn are_all(flags: &[bool]) -> bool
    ensures { result ≡ list_all (λ flag. flag) flags.now }
{
    for flag in flags {
        if !*flag {
            return false;
        }
    }
    true
}

// Whether all further filters of an item are true.
#[tactic(auto, using(crate::proofs::Bound::all_passed))]
fn is_binding(alloc: Global, item: &Node, globals: &Vars) -> Result<bool, OutOfMemory>
    requires { items.further_faults item.now ≡ [] }
    ensures { IfOk result (λ binds. binds ≡ items.is_binding globals.now item.now) }
{
    let flags = passed(alloc, conditions(item), globals)?;
    Ok(are_all(flags.as_slice()))
}

fn bind_item(
    alloc: Global,
    item: &Node,
    globals: &Vars,
    bound: &mut Items<Pkg>,
) -> Result<(), OutOfMemory>
    requires { items.further_faults item.now ≡ [] }
    ensures { OnOk result (bound.new ≡ bound.old ++ items.bound_by_item globals.now item.now) }
{
    if !is_binding(alloc, item, globals)? {
        return Ok(());
    }
    match item_pkg(alloc, item)? {
        None => Ok(()),
        Some(pkg) => bound.push(pkg),
    }
}

/// The packages that items bind, in their order.
pub(crate) fn bind_items(
    alloc: Global,
    nodes: &[Node],
    globals: &Vars,
) -> Result<Items<Pkg>, OutOfMemory>
    requires { flat_map items.further_faults nodes.now ≡ [] }
    ensures { IfOk result (λ bound. bound ≡ items.bound_in globals.now nodes.now) }
{
    let mut bound = Items::new(alloc);
    for item in nodes {
        bind_item(alloc, item, globals, &mut bound)?;
    }
    Ok(bound)
}
