// Sets that were worked out from the rule by another reckoning: how many needs are drawn for a seed and a number of packages, and which
// files there are.
use crate::{edge_count, generated_host, generated_needs};
use opam_names::OutOfMemory;
use outside_io::{Found, Host, MemoryHost};
use std::alloc::Global;
use std::test::Fail;

fn edges_of(alloc: Global, seed: u32, count: u32) -> Result<usize, OutOfMemory> {
    let needs = generated_needs(alloc, seed, count)?;
    Ok(edge_count(needs.as_slice()))
}

fn has_file(alloc: Global, host: &mut MemoryHost, path: &str, text: &str) -> bool {
    match host.read(alloc, path, 10_000) {
        Ok(Found::Bytes(bytes)) => bytes.as_slice() == text.as_bytes(),
        _ => false,
    }
}

#[test]
fn needs_are_drawn(rt: HostRuntime) -> Result<(), Fail> {
    let alloc = rt.alloc();
    assert_eq!(rt; edges_of(alloc, 1, 4)?, 3);
    assert_eq!(rt; edges_of(alloc, 7, 200)?, 202);
    assert_eq!(rt; edges_of(alloc, 42, 500)?, 490);
    assert_eq!(rt; edges_of(alloc, 7, 2000)?, 2059);
    assert_eq!(rt; edges_of(alloc, 4_294_967_295, 1)?, 0);
    Ok(())
}

#[test]
fn files_are_told(rt: HostRuntime) -> Result<(), Fail> {
    let alloc = rt.alloc();
    let needs = generated_needs(alloc, 1, 4)?;
    let mut host = generated_host(alloc, needs.as_slice())?;
    let head = "opam-version: \"2.0\"\n";
    let build = "build: [[\"make\" name]]\n";
    let lock = format!(in alloc;
        "{head}depends: [\n  \"p0\" {{= \"1\"}}\n  \"p1\" {{= \"1\"}}\n  \"p2\" {{= \"1\"}}\n  \"p3\" {{= \"1\"}}\n]\n"
    )?;
    let first = format!(in alloc; "{head}{build}")?;
    let second = format!(in alloc; "{head}depends: [ \"p0\" ]\n{build}")?;
    let third = format!(in alloc; "{head}depends: [ \"p1\" ]\n{build}")?;
    assert!(rt; has_file(alloc, &mut host, "l", lock.as_str()));
    assert!(rt; has_file(alloc, &mut host, "./packages/p0/p0.1/opam", first.as_str()));
    assert!(rt; has_file(alloc, &mut host, "./packages/p1/p1.1/opam", second.as_str()));
    assert!(rt; has_file(alloc, &mut host, "./packages/p2/p2.1/opam", third.as_str()));
    assert!(rt; has_file(alloc, &mut host, "./packages/p3/p3.1/opam", second.as_str()));
    Ok(())
}
