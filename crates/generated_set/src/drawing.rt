// What each package of a generated set needs.
ghost use Rattle.std.specs.Prelude.{◌≡◌, ◌<◌, ◌≤◌, ◌*◌, ◌^◌, ℕ, IfOk, OnOk, length};
ghost use Rattle.std.specs.List.{sum_by};
ghost use Rattle.generated_set.specs.Drawing as drawings;
ghost use Rattle.generated_set.specs.Drawing.{and_once, needs_of};

use opam_names::{Items, OutOfMemory};
use std::alloc::Global;

// The numbers of the generator are below it.
const MODULUS: u64 = 2_147_483_648;

// The generator, and the packages that are drawn so far.
#[derive(Drop)]
struct Drawn {
    state: u64,
    needs: Items<u32>,
}

/// What each of `count` packages needs, by the place of each; the packages before it are all that one may need.
pub fn generated_needs(
    alloc: Global,
    seed: u32,
    count: u32,
) -> Result<Items<Items<u32>>, OutOfMemory>
    ensures needs { IfOk result (λ needs. needs ≡ needs_of seed count) }
    ensures few { IfOk result (λ needs. sum_by length needs ≤ 2 * count) }
{
    needs_are_few();
    let mut all = Items::new(alloc);
    let mut state = u64::from(seed) % MODULUS;
    for place in 0..count {
        let drawn = drawn_at(alloc, place, state)?;
        state = drawn.state;
        all.push(drawn.needs)?;
    }
    Ok(all)
}

fn drawn_at(alloc: Global, place: u32, state: u64) -> Result<Drawn, OutOfMemory>
    requires { state < 2147483648 }
    ensures state { IfOk result (λ drawn.
        drawn.state ≡ (drawings.drawn_at place state).state) }
    ensures needs { IfOk result (λ drawn.
        drawn.needs ≡ (drawings.drawn_at place state).needs) }
    ensures small { IfOk result (λ drawn. drawn.state < 2147483648) }
{
    if place == 0 {
        return Ok(Drawn {
            state,
            needs: Items::new(alloc),
        });
    }
    drawn_after(alloc, place, next_state(state))
}

fn drawn_after(alloc: Global, place: u32, state: u64) -> Result<Drawn, OutOfMemory>
    requires small { state < 2147483648 }
    requires later { 0 < place }
    ensures state { IfOk result (λ drawn.
        drawn.state ≡ (drawings.drawn_after place state).state) }
    ensures needs { IfOk result (λ drawn.
        drawn.needs ≡ (drawings.drawn_after place state).needs) }
    ensures small { IfOk result (λ drawn. drawn.state < 2147483648) }
{
    let mut drawn = Drawn {
        state,
        needs: Items::new(alloc),
    };
    for _ in 0..value_of(state) % 3 {
        drawn.state = next_state(drawn.state);
        put_once(
            &mut drawn.needs,
            (value_of(drawn.state) % u64::from(place)) as u32,
        )?;
    }
    Ok(drawn)
}

fn next_state(state: u64) -> u64
    requires { state < 2147483648 }
    ensures value { result ≡ drawings.next_state state }
    ensures small { result < 2147483648 }
{
    (1_103_515_245 * state + 12_345) % MODULUS
}

fn value_of(state: u64) -> u64
    ensures { result ≡ drawings.value_of state }
{
    state / 65_536
}

// A number comes last, unless it is there.
fn put_once(needs: &mut Items<u32>, number: u32) -> Result<(), OutOfMemory>
    ensures { OnOk result (needs.new ≡ and_once needs.old number) }
{
    if needs.as_slice().contains(&number) {
        return Ok(());
    }
    needs.push(number)
}

// Each package needs two others at most.
fn needs_are_few()
    ensures { (seed count : ℕ) → sum_by length (needs_of seed count) ≤ 2 * count }
{}

/// How many needs there are in all.
pub fn edge_count(needs: &[Items<u32>]) -> usize
    requires { sum_by length needs.now < 2 ^ 64 }
    ensures { result ≡ sum_by length needs.now }
{
    let mut count = 0;
    for row in needs {
        count += row.len();
    }
    count
}
