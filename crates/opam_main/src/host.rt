// The files of the machine as a host.
ghost use Rattle.std.specs.declared.option.Option.TheVariants.{None};

use crate::files::{Content, read_file};
use opam_names::Items;
use outside_io::{Found, Host, HostFault};
use std::alloc::Global;
use std::rt::Files;

/// The machine's files, by their paths from the working folder on. It tells nothing of them.
#[derive(Drop)]
pub struct FolderHost<R: Files> {
    rt: R,
    faults: u64,
}

impl<R: Files> FolderHost<R> {
    pub fn new(rt: R) -> FolderHost<R> {
        FolderHost { rt, faults: 0 }
    }
}

impl<R: Files> Host for FolderHost<R> {
    ghost files = { λ _. None };

    ghost faults = { λ h. h.faults };

    fn read(&mut self, alloc: Global, path: &str, limit: u64) -> Result<Found, HostFault> {
        match read_file(&self.rt, alloc, path, limit) {
            Ok(Content::Absent) => Ok(Found::Absent),
            Ok(Content::TooLong) => Ok(Found::TooLong),
            Ok(Content::Bytes(bytes)) => Ok(Found::Bytes(Items::from_vec(bytes))),
            Err(error) => {
                if error.is_memory() {
                    return Err(HostFault::Memory);
                }
                self.faults = self.faults.saturating_add(1);
                Err(HostFault::Failed)
            }
        }
    }
}
