// Calls of `change_floor`: what a floor over a plan answers to one event after another.
ghost use Rattle.std.specs.Prelude.{◌≡◌, ◌≢◌, ℕ, ◌<◌, ◌≤◌, true, false, length, slice_index};
ghost use Rattle.change_floor.specs.FloorLaws.{EachOnce, install_members};
ghost use Rattle.change_floor.specs.Floors.{IsDecidable};

use action_graph::{Plan, Step};
use change_floor::{Floor, Turn};
use opam_names::Items;
use outside_io::{Ending, Fate};
use row_script::fates::show_fate;
use row_script::fault::Fault;
use row_script::lexer::Word;
use row_script::script::Call;
use row_script::show::plain;
use std::alloc::Global;

pub fn answer(alloc: Global, call: &Call) -> Result<String, Fault> {
    match call.name.as_str() {
        "Floor" => show_floor(alloc, call.words.as_slice()),
        _ => Err(Fault::Unknown),
    }
}

fn show_floor(alloc: Global, words: &[Word]) -> Result<String, Fault> {
    let [workers, removals, installs, missing, events @ ..] = words else {
        return Err(Fault::Unknown);
    };
    let plan = plan_of(alloc, removals, installs, missing)?;
    let mut floor = floor_over(alloc, &plan, place_of(workers.text()?)?)?;
    answer_all(alloc, &mut floor, events)
}

fn place_of(text: &str) -> Result<u32, Fault> {
    match text.parse::<u32>() {
        Ok(place) => Ok(place),
        Err(_) => Err(Fault::Line("a word is no place")),
    }
}

fn places_of(alloc: Global, text: &str, between: char) -> Result<Items<u32>, Fault> {
    let mut places = Items::new(alloc);
    for word in text.split(between) {
        if !word.is_empty() {
            places.push(place_of(word)?)?;
        }
    }
    Ok(places)
}

// An install with its needs behind a colon, between commas.
fn step_of(alloc: Global, word: &str) -> Result<Step, Fault> {
    let (member, needs) = match word.split_once(':') {
        Some(parts) => parts,
        None => (word, ""),
    };
    Ok(Step {
        member: place_of(member)?,
        needs: places_of(alloc, needs, ',')?,
    })
}

fn steps_of(alloc: Global, text: &str) -> Result<Items<Step>, Fault> {
    let mut steps = Items::new(alloc);
    for word in text.split(' ') {
        if !word.is_empty() {
            steps.push(step_of(alloc, word)?)?;
        }
    }
    Ok(steps)
}

fn plan_of(alloc: Global, removals: &Word, installs: &Word, missing: &Word) -> Result<Plan, Fault> {
    Ok(Plan {
        removals: places_of(alloc, removals.text()?, ' ')?,
        installs: steps_of(alloc, installs.text()?)?,
        missing: places_of(alloc, missing.text()?, ' ')?,
    })
}

// Whether the member stands among the first installs.
fn stands_before(installs: &[Step], count: usize, member: u32) -> bool
    requires { count ≤ length installs.now }
    ensures { result ≡ false → (i : ℕ) → i < count
        → slice_index (install_members installs.now) i ≢ member }
{
    for at in 0..count {
        if installs[at].member == member {
            return true;
        }
    }
    false
}

fn stand_once(installs: &[Step]) -> bool
    ensures { result ≡ true → EachOnce installs.now }
{
    for at in 0..installs.len() {
        if stands_before(installs, at, installs[at].member) {
            return false;
        }
    }
    true
}

fn floor_over(alloc: Global, plan: &Plan, workers: u32) -> Result<Floor, Fault> {
    if workers == 0 {
        return Err(Fault::Line("there is no worker"));
    }
    if !stand_once(plan.installs.as_slice()) {
        return Err(Fault::Line("a member stands twice among the installs"));
    }
    match Floor::new(alloc, plan, workers) {
        Ok(floor) => Ok(floor),
        Err(_) => Err(Fault::Memory),
    }
}

fn answer_all(alloc: Global, floor: &mut Floor, events: &[Word]) -> Result<String, Fault> {
    let mut text = String::new(alloc);
    for event in events {
        if !text.is_empty() {
            text.push_str(", ")?;
        }
        push_event(alloc, &mut text, floor, event)?;
    }
    Ok(text)
}

fn push_event(
    alloc: Global,
    text: &mut String,
    floor: &mut Floor,
    event: &Word,
) -> Result<(), Fault> {
    let answer = answer_event(alloc, floor, event.text()?)?;
    Ok(text.push_str(answer.as_str())?)
}

// `start` starts the next job, `good` and `bad` decide the next action.
fn answer_event(alloc: Global, floor: &mut Floor, event: &str) -> Result<String, Fault> {
    match event {
        "start" => start(alloc, floor),
        "turn" => show_turn(alloc, floor.turn()),
        "good" => decide(alloc, floor, true),
        "bad" => decide(alloc, floor, false),
        _ => answer_end(alloc, floor, event),
    }
}

// `end:ID` and `fail:ID` end a job.
fn answer_end(alloc: Global, floor: &mut Floor, event: &str) -> Result<String, Fault> {
    match event.split_once(':') {
        Some(("end", id)) => end(alloc, floor, place_of(id)?, Fate::Built),
        Some(("fail", id)) => end(alloc, floor, place_of(id)?, stopped()),
        _ => Err(Fault::Line("a word is no event")),
    }
}

fn stopped() -> Fate {
    Fate::Stopped {
        step: 1,
        ending: Ending::Exit(2),
    }
}

fn start(alloc: Global, floor: &mut Floor) -> Result<String, Fault> {
    match floor.next_start() {
        None => plain(alloc, "none"),
        Some(id) => {
            floor.started(id);
            Ok(format!(in alloc; "start {id}")?)
        }
    }
}

fn end(alloc: Global, floor: &mut Floor, id: u32, fate: Fate) -> Result<String, Fault> {
    if !floor.runs(id) {
        return Err(Fault::Line("a job that does not run has no end"));
    }
    floor.ended(id, fate);
    plain(alloc, "ended")
}

fn is_decidable(turn: Turn) -> bool
    ensures { result ≡ true → IsDecidable turn }
{
    match turn {
        Turn::Remove(_) | Turn::Abort { .. } | Turn::Decide { .. } => true,
        Turn::Wait | Turn::Done => false,
    }
}

fn decide(alloc: Global, floor: &mut Floor, good: bool) -> Result<String, Fault> {
    if !is_decidable(floor.turn()) {
        return Err(Fault::Line("nothing can be decided"));
    }
    floor.decided(good);
    plain(alloc, "decided")
}

fn show_turn(alloc: Global, turn: Turn) -> Result<String, Fault> {
    match turn {
        Turn::Remove(entry) => Ok(format!(in alloc; "remove {entry}")?),
        Turn::Abort { id, need } => Ok(format!(in alloc; "abort {id} for {need}")?),
        Turn::Decide { id, fate } => {
            let fate = show_fate(alloc, fate)?;
            Ok(format!(in alloc; "decide {id}: {fate}")?)
        }
        Turn::Wait => plain(alloc, "wait"),
        Turn::Done => plain(alloc, "done"),
    }
}
