// What stands in a counted list, and such lists.
ghost use Rattle.std.specs.Prelude.{◌≡◌, ◌<◌, ◌^◌, ◌++◌, length, IfOk, OnOk};
ghost use Rattle.std.specs.List.{All, flat_map};
ghost use Rattle.journal_text.specs.Words.{counted};
ghost use Rattle.journal_text.specs.Reading.{Gives, counted_at, items_at};

use crate::reader::count_of;
use crate::stop::Stop;
use crate::writer::push_count;
use opam_names::{Items, OutOfMemory};
use std::alloc::Global;

/// What stands in a counted list: how it is spelled, what is valid, and how it is read at the front
/// of bytes.
pub(crate) trait Field: Drop {
    ghost use Rattle.std.specs.Prelude.{ℕ, List, ◌<◌, ◌^◌, length};
    ghost use Rattle.std.specs.declared.option.Option.{Option};

    ghost bytes: { Self → List ℕ };

    ghost valid: { Self → Type 0 };

    ghost at: { List ℕ → Option (Self × List ℕ) };

    fn push(&self, out: &mut Vec<u8>) -> Result<(), OutOfMemory>
        requires { length (bytes self.now) < 2 ^ 32 }
        ensures spelled { OnOk result (out.new.items ≡ out.old.items ++ bytes self.now) }
        ensures valid { OnOk result (valid self.now) };

    fn read_front(alloc: Global, text: &[u8]) -> Result<(Self, &[u8]), Stop>
        ensures { Gives (λ x. (x.0, x.1.now)) result (at text.now) };
}

pub(crate) fn push_list<T: Field>(out: &mut Vec<u8>, items: &[T]) -> Result<(), OutOfMemory>
    requires few { length items.now < 2 ^ 32 }
    requires small { length (flat_map T.bytes items.now) < 2 ^ 32 }
    ensures spelled { OnOk result (out.new.items ≡ out.old.items ++ counted T.bytes items.now) }
    ensures valid { OnOk result (All T.valid items.now) }
{
    push_count(out, items.len() as u32)?;
    push_items(out, items)
}

fn push_items<T: Field>(out: &mut Vec<u8>, items: &[T]) -> Result<(), OutOfMemory>
    requires { length (flat_map T.bytes items.now) < 2 ^ 32 }
    ensures spelled { OnOk result (out.new.items ≡ out.old.items ++ flat_map T.bytes items.now) }
    ensures valid { OnOk result (All T.valid items.now) }
{
    for item in items {
        item.push(out)?;
    }
    Ok(())
}

#[tactic(auto, unfolding(crate::specs::Reading::counted_at))]
pub(crate) fn list_of<T: Field>(alloc: Global, text: &[u8]) -> Result<(Items<T>, &[u8]), Stop>
    ensures { Gives (λ x. (x.0, x.1.now)) result (counted_at T.at text.now) }
{
    let (count, rest) = count_of(text)?;
    items_of(alloc, count, rest)
}

// Room is made as items come, so that a count above the bytes makes none.
fn items_of<T: Field>(alloc: Global, count: u32, text: &[u8]) -> Result<(Items<T>, &[u8]), Stop>
    ensures { Gives (λ x. (x.0, x.1.now)) result (items_at T.at count text.now) }
{
    let mut items = Items::new(alloc);
    let mut rest = text;
    for _ in 0..count {
        let (item, after) = T::read_front(alloc, rest)?;
        items.push(item)?;
        rest = after;
    }
    Ok((items, rest))
}
