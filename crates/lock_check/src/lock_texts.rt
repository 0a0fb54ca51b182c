// Lock files: what they bind, and what is wrong with them.
ghost use Rattle.std.specs.Prelude.{[], ◌≡◌, ◌≤◌, IfErr, IfOk, OnOk, length};
ghost use Rattle.opam_filter.specs.Sets.{Rises};
ghost use Rattle.lock_check.specs.LockFaults.{IsFirstLockFault};
ghost use Rattle.lock_check.specs.LockItems.{bound_in_order, faults_behind, lock_items};
ghost use Rattle.lock_check.specs.LockTexts.{IsLockFault, IsLockOf, depends_of, told_lock_syntax};

use crate::lock_items::{bind_items, items_fault, values_of};
use crate::{Lock, LockFault};
use opam_filter::Vars;
use opam_names::{OutOfMemory, Pkg, order_is_stable};
use opam_syntax::read_file;
use std::alloc::Global;
use syntax_trees::{FILE_LIMIT, File, Node, SyntaxFault};

fn lock_items(file: &File) -> &[Node]
    ensures { result.now ≡ lock_items (depends_of file.now) }
{
    match file.field("depends") {
        None => &[],
        Some(value) => values_of(value),
    }
}

// What a lock binds whose items have no fault.
fn bind_lock(alloc: Global, items: &[Node], globals: &Vars) -> Result<Lock, OutOfMemory>
    requires { faults_behind [] items.now ≡ [] }
    ensures ok { IfOk result (λ lock. lock.bound ≡ bound_in_order globals.now items.now) }
    ensures rises { IfOk result (λ lock. Rises lock.bound) }
{
    order_is_stable::<Pkg>();
    let mut bound = bind_items(alloc, items, globals)?;
    bound.sort_by_bytes()?;
    Ok(Lock { bound })
}

// What a file binds whose items are these.
fn lock_of(alloc: Global, items: &[Node], globals: &Vars) -> Result<Lock, LockFault>
    ensures ok { IfOk result (λ lock. lock.bound ≡ bound_in_order globals.now items.now) }
    ensures sound { OnOk result (faults_behind [] items.now ≡ []) }
    ensures rises { IfOk result (λ lock. Rises lock.bound) }
    ensures err { IfErr result (λ fault. IsFirstLockFault (faults_behind [] items.now) fault) }
{
    match items_fault(alloc, items)? {
        Some(fault) => Err(fault),
        None => match bind_lock(alloc, items, globals) {
            Ok(lock) => Ok(lock),
            Err(OutOfMemory) => Err(LockFault::Memory),
        },
    }
}

/// The packages that the text of a lock file binds where the variables of the whole run have these values (opam manual, file
/// format: opam, depends; lock files). A fault of the syntax comes first, then the first fault of the items by the places
/// where they stand.
pub fn read_lock(alloc: Global, bytes: &[u8], globals: &Vars) -> Result<Lock, LockFault>
    requires { length bytes.now ≤ FILE_LIMIT }
    ensures ok { IfOk result (λ lock. IsLockOf bytes.now globals.now lock.bound) }
    ensures rises { IfOk result (λ lock. Rises lock.bound) }
    ensures err { IfErr result (λ fault. IsLockFault bytes.now fault) }
{
    match read_file(alloc, bytes) {
        Ok(file) => lock_of(alloc, lock_items(&file), globals),
        Err(fault) => Err(told_syntax(fault)),
    }
}

fn told_syntax(fault: SyntaxFault) -> LockFault
    ensures { result ≡ told_lock_syntax fault }
{
    match fault {
        SyntaxFault::Memory => LockFault::Memory,
        _ => LockFault::Syntax(fault),
    }
}
