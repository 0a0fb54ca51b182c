// The parts of records and slots: how each is written and read.
ghost use Rattle.std.specs.Prelude.{◌≡◌};
ghost use Rattle.journal_text.specs.Reading.{Gives, entry_at, kept_at, pkg_at, placed_at, stand_at};

use crate::field::{Field, list_of};
use crate::reader::{count_of, flag_of, long_of, name_of, path_of, version_of};
use crate::record::{Entry, KeptFiles, Placed};
use crate::slot::Owned;
use crate::stop::Stop;
use crate::writer::{push_count, push_flag, push_long, push_short};
use opam_names::{Items, Name, OutOfMemory, Pkg, RelPath};
use std::alloc::Global;

impl Field for Name {
    ghost use Rattle.opam_names.specs.Names.{IsName};
    ghost use Rattle.journal_text.specs.Words.{short_text};
    ghost use Rattle.journal_text.specs.Reading.{name_at};

    ghost bytes = { short_text };

    ghost valid = { IsName };

    ghost at = { name_at };

    fn push(&self, out: &mut Vec<u8>) -> Result<(), OutOfMemory> {
        push_short(out, self.as_str().as_bytes())
    }

    fn read_front(alloc: Global, text: &[u8]) -> Result<(Name, &[u8]), Stop> {
        name_of(alloc, text)
    }
}

impl Field for Pkg {
    ghost use Rattle.journal_text.specs.Parts.{IsPackage, pkg_bytes};
    ghost use Rattle.journal_text.specs.Reading.{pkg_at};

    ghost bytes = { pkg_bytes };

    ghost valid = { IsPackage };

    ghost at = { pkg_at };

    fn push(&self, out: &mut Vec<u8>) -> Result<(), OutOfMemory> {
        push_short(out, self.name.as_str().as_bytes())?;
        push_short(out, self.version.as_str().as_bytes())
    }

    #[tactic(auto, unfolding(crate::specs::Reading::both_at))]
    fn read_front(alloc: Global, text: &[u8]) -> Result<(Pkg, &[u8]), Stop> {
        let (name, rest) = name_of(alloc, text)?;
        let (version, rest) = version_of(alloc, rest)?;
        Ok((Pkg { name, version }, rest))
    }
}

impl Field for Entry {
    ghost use Rattle.journal_text.specs.Parts.{IsEntry, entry_bytes};
    ghost use Rattle.journal_text.specs.Reading.{entry_at};

    ghost bytes = { entry_bytes };

    ghost valid = { IsEntry };

    ghost at = { entry_at };

    fn push(&self, out: &mut Vec<u8>) -> Result<(), OutOfMemory> {
        self.pkg.push(out)?;
        push_long(out, self.opam.as_slice())
    }

    #[tactic(auto, unfolding(crate::specs::Reading::both_at))]
    fn read_front(alloc: Global, text: &[u8]) -> Result<(Entry, &[u8]), Stop> {
        let (pkg, rest) = Pkg::read_front(alloc, text)?;
        let (opam, rest) = long_of(alloc, rest)?;
        Ok((Entry { pkg, opam }, rest))
    }
}

impl Field for Placed {
    ghost use Rattle.journal_text.specs.Parts.{IsPlaced, placed_bytes};
    ghost use Rattle.journal_text.specs.Reading.{placed_at};

    ghost bytes = { placed_bytes };

    ghost valid = { IsPlaced };

    ghost at = { placed_at };

    fn push(&self, out: &mut Vec<u8>) -> Result<(), OutOfMemory> {
        push_flag(out, self.exec)?;
        push_short(out, self.path.as_str().as_bytes())?;
        push_long(out, self.bytes.as_slice())
    }

    #[tactic(auto, unfolding(crate::specs::Reading::both_at))]
    fn read_front(alloc: Global, text: &[u8]) -> Result<(Placed, &[u8]), Stop> {
        let (exec, rest) = flag_of(text)?;
        let ((path, bytes), rest) = stand_of(alloc, rest)?;
        Ok((Placed { path, exec, bytes }, rest))
    }
}

// Where a file stands and what it holds.
#[tactic(auto, unfolding(crate::specs::Reading::both_at))]
fn stand_of(alloc: Global, text: &[u8]) -> Result<((RelPath, Items<u8>), &[u8]), Stop>
    ensures { Gives (λ x. (x.0, x.1.now)) result (stand_at text.now) }
{
    let (path, rest) = path_of(alloc, text)?;
    let (bytes, rest) = long_of(alloc, rest)?;
    Ok(((path, bytes), rest))
}

#[tactic(auto, unfolding(crate::specs::Reading::both_at))]
pub(crate) fn kept_of(alloc: Global, text: &[u8]) -> Result<(KeptFiles, &[u8]), Stop>
    ensures { Gives (λ x. (x.0, x.1.now)) result (kept_at text.now) }
{
    let (opam, rest) = long_of(alloc, text)?;
    let (files, rest) = list_of(alloc, rest)?;
    Ok((KeptFiles { opam, files }, rest))
}

impl Field for Owned {
    ghost use Rattle.journal_text.specs.Slots.{IsOwned, owned_bytes};
    ghost use Rattle.journal_text.specs.SlotReading.{owned_at};

    ghost bytes = { owned_bytes };

    ghost valid = { IsOwned };

    ghost at = { owned_at };

    fn push(&self, out: &mut Vec<u8>) -> Result<(), OutOfMemory> {
        push_short(out, self.path.as_str().as_bytes())?;
        push_count(out, self.owner)
    }

    #[tactic(auto, unfolding(crate::specs::Reading::both_at))]
    fn read_front(alloc: Global, text: &[u8]) -> Result<(Owned, &[u8]), Stop> {
        let (path, rest) = path_of(alloc, text)?;
        let (owner, rest) = count_of(rest)?;
        Ok((Owned { path, owner }, rest))
    }
}
