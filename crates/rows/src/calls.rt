// Calls of `outside_io` and `child_pool` over devices in memory.
use child_pool::{Crew, SerialCrew, build};
use opam_names::{Items, RelPath, Text};
use outside_io::{
    Ending, Failed, Fate, Found, Host, HostFault, Job, ScriptShop, Seen, Sink, Teller, Workshop,
};
use row_script::devices::Devices;
use row_script::fates::{show_ending, show_fate};
use row_script::fault::Fault;
use row_script::lexer::Word;
use row_script::script::Call;
use row_script::show::{plain, quoted};
use row_script::values::{path_of, pkg_of};
use std::alloc::Global;

pub fn answer(alloc: Global, call: &Call, devices: &mut Devices) -> Result<String, Fault> {
    let name = call.name.as_str();
    let words = call.words.as_slice();
    if name == "Teller::tell" {
        return tell(alloc, devices, words);
    }
    match words {
        [] => answer_bare(alloc, name, devices),
        [text] => answer_text(alloc, name, text, devices),
        [one, other] => answer_pair(alloc, name, one, other, devices),
        [one, other, third] => answer_three(alloc, name, one, other, third, devices),
        _ => Err(Fault::Unknown),
    }
}

fn answer_bare(alloc: Global, name: &str, devices: &mut Devices) -> Result<String, Fault> {
    match name {
        "MemorySink::bytes" => written(alloc, devices),
        "MemorySink::calls" => written_calls(alloc, devices),
        _ => Err(Fault::Unknown),
    }
}

fn answer_text(
    alloc: Global,
    name: &str,
    text: &Word,
    devices: &mut Devices,
) -> Result<String, Fault> {
    match name {
        "Sink::write" => write(alloc, devices, text),
        _ => Err(Fault::Unknown),
    }
}

fn answer_pair(
    alloc: Global,
    name: &str,
    one: &Word,
    other: &Word,
    devices: &mut Devices,
) -> Result<String, Fault> {
    match name {
        "Host::read" => read_host(alloc, devices, one, other),
        "outside_io::calls::read" => read_by_call(alloc, devices, one, other),
        "Workshop::build_step" => build_step(alloc, devices, one, other),
        "build" => build_job(alloc, devices, one, other),
        "Job::copy" => copy_job(alloc, one, other),
        _ => Err(Fault::Unknown),
    }
}

fn answer_three(
    alloc: Global,
    name: &str,
    one: &Word,
    other: &Word,
    third: &Word,
    devices: &mut Devices,
) -> Result<String, Fault> {
    match name {
        "Workshop::read" => read_built(alloc, devices, one, other, third),
        "SerialCrew" => run_crew(alloc, devices, one, other, third),
        _ => Err(Fault::Unknown),
    }
}

fn read_host(
    alloc: Global,
    devices: &mut Devices,
    path: &Word,
    limit: &Word,
) -> Result<String, Fault> {
    let limit = limit.number()?;
    let mut host = devices.take_host(alloc);
    let found = host.read(alloc, path.text()?, limit);
    devices.keep_host(host);
    show_found(alloc, found)
}

fn read_by_call(
    alloc: Global,
    devices: &mut Devices,
    path: &Word,
    limit: &Word,
) -> Result<String, Fault> {
    let limit = limit.number()?;
    let mut host = devices.take_host(alloc);
    let found = outside_io::calls::read(&mut host, alloc, path.text()?, limit);
    devices.keep_host(host);
    show_found(alloc, found)
}

fn show_found(alloc: Global, found: Result<Found, HostFault>) -> Result<String, Fault> {
    match found {
        Ok(Found::Absent) => plain(alloc, "absent"),
        Ok(Found::Bytes(bytes)) => quoted(alloc, bytes.as_slice()),
        Ok(Found::TooLong) => plain(alloc, "too long"),
        Err(HostFault::Failed) => plain(alloc, "failed"),
        Err(HostFault::Memory) => Err(Fault::Memory),
    }
}

fn write(alloc: Global, devices: &mut Devices, text: &Word) -> Result<String, Fault> {
    let mut sink = devices.take_sink(alloc);
    let taken = sink.write(text.bytes.as_slice());
    devices.keep_sink(sink);
    match taken {
        Ok(count) => Ok(format!(in alloc; "{count} bytes")?),
        Err(Failed) => plain(alloc, "failed"),
    }
}

// A teller of the sink's own.
fn tell(alloc: Global, devices: &mut Devices, texts: &[Word]) -> Result<String, Fault> {
    let mut sink = devices.take_sink(alloc);
    let mut teller = Teller::new(&mut sink);
    for text in texts {
        teller.tell(text.bytes.as_slice());
    }
    let is_broken = teller.broken();
    devices.keep_sink(sink);
    plain(alloc, if is_broken { "broken" } else { "told" })
}

fn written(alloc: Global, devices: &mut Devices) -> Result<String, Fault> {
    let sink = devices.take_sink(alloc);
    let text = quoted(alloc, sink.bytes());
    devices.keep_sink(sink);
    text
}

fn written_calls(alloc: Global, devices: &mut Devices) -> Result<String, Fault> {
    let sink = devices.take_sink(alloc);
    let calls = sink.calls();
    let starved = sink.starved();
    devices.keep_sink(sink);
    Ok(format!(in alloc; "{calls}, {starved} without memory")?)
}

// A job with a source, so many commands of two words, and a variable.
fn job_of(alloc: Global, pkg: &Word, commands: u64) -> Result<Job, Fault> {
    let pkg = pkg_of(alloc, pkg)?;
    let commands = commands_of(alloc, commands)?;
    let env = env_of(alloc)?;
    Ok(Job {
        pkg,
        source: Some(Text::from_str(alloc, "src")?),
        commands,
        env,
    })
}

fn env_of(alloc: Global) -> Result<Items<(Text, Text)>, Fault> {
    let mut env = Items::new(alloc);
    let name = Text::from_str(alloc, "PREFIX")?;
    env.push((name, Text::from_str(alloc, "/p")?))?;
    Ok(env)
}

fn commands_of(alloc: Global, count: u64) -> Result<Items<Items<Text>>, Fault> {
    let mut commands = Items::new(alloc);
    for _ in 0..count {
        commands.push(command(alloc)?)?;
    }
    Ok(commands)
}

fn command(alloc: Global) -> Result<Items<Text>, Fault> {
    let mut words = Items::new(alloc);
    words.push(Text::from_str(alloc, "make")?)?;
    words.push(Text::from_str(alloc, "all")?)?;
    Ok(words)
}

fn build_step(
    alloc: Global,
    devices: &mut Devices,
    pkg: &Word,
    step: &Word,
) -> Result<String, Fault> {
    let step = small(step)?;
    let job = job_of(alloc, pkg, u64::from(step))?;
    let ending = ending_of(alloc, devices, &job, step)?;
    show_ending(alloc, ending)
}

fn ending_of(alloc: Global, devices: &mut Devices, job: &Job, step: u32) -> Result<Ending, Fault> {
    let shop = devices.take_shop(alloc)?;
    let ending = shop.build_step(alloc, job, step);
    devices.keep_shop(shop);
    Ok(ending?)
}

fn read_built(
    alloc: Global,
    devices: &mut Devices,
    pkg: &Word,
    path: &Word,
    limit: &Word,
) -> Result<String, Fault> {
    let limit = limit.number()?;
    let path = path_of(alloc, path)?;
    let job = job_of(alloc, pkg, 0)?;
    let seen = look(alloc, devices, &job, &path, limit)?;
    show_seen(alloc, seen)
}

fn look(
    alloc: Global,
    devices: &mut Devices,
    job: &Job,
    path: &RelPath,
    limit: u64,
) -> Result<Seen, Fault> {
    let shop = devices.take_shop(alloc)?;
    let seen = shop.read(alloc, job, path, limit);
    devices.keep_shop(shop);
    Ok(seen?)
}

fn show_seen(alloc: Global, seen: Seen) -> Result<String, Fault> {
    match seen {
        Seen::Absent => plain(alloc, "absent"),
        Seen::Bytes(bytes) => quoted(alloc, bytes.as_slice()),
        Seen::TooLong => plain(alloc, "too long"),
        Seen::Unreadable => plain(alloc, "unreadable"),
    }
}

// A number below 1,000.
fn small(word: &Word) -> Result<u32, Fault> {
    match word.text()?.parse::<u32>() {
        Ok(number) if number < 1000 => Ok(number),
        _ => Err(Fault::Line("a word is no number below 1000")),
    }
}

fn build_job(
    alloc: Global,
    devices: &mut Devices,
    pkg: &Word,
    commands: &Word,
) -> Result<String, Fault> {
    let job = job_of(alloc, pkg, u64::from(small(commands)?))?;
    let fate = fate_of(alloc, devices, &job)?;
    show_fate(alloc, fate)
}

fn fate_of(alloc: Global, devices: &mut Devices, job: &Job) -> Result<Fate, Fault> {
    if job.commands.len() > 1000 {
        return Err(Fault::Line("a job has too many commands"));
    }
    let shop = devices.take_shop(alloc)?;
    let fate = build(alloc, &*shop, job);
    devices.keep_shop(shop);
    Ok(fate?)
}

// Two jobs of two commands, of which the second starts where there is room; then the ends are taken.
fn run_crew(
    alloc: Global,
    devices: &mut Devices,
    workers: &Word,
    one: &Word,
    other: &Word,
) -> Result<String, Fault> {
    let workers = small(workers)?;
    let shop = devices.take_shop(alloc)?;
    let one = job_of(alloc, one, 2)?;
    let other = job_of(alloc, other, 2)?;
    let text = crew_text(alloc, &shop, workers, one, other);
    devices.keep_shop(shop);
    text
}

fn crew_text(
    alloc: Global,
    shop: &ScriptShop,
    workers: u32,
    one: Job,
    other: Job,
) -> Result<String, Fault> {
    let mut text = String::new(alloc);
    push_run(alloc, &mut text, shop, workers, one, other)?;
    Ok(text)
}

fn push_run(
    alloc: Global,
    text: &mut String,
    shop: &ScriptShop,
    workers: u32,
    one: Job,
    other: Job,
) -> Result<(), Fault> {
    if workers < 2 || one.commands.len() > 1000 || other.commands.len() > 1000 {
        return Err(Fault::Line("two jobs do not run at a time"));
    }
    let mut crew = SerialCrew::new(alloc, shop, workers);
    push_workers(text, &crew)?;
    crew.start(alloc, 0, one)?;
    push_crew(text, &crew)?;
    crew.start(alloc, 1, other)?;
    push_crew(text, &crew)?;
    let first = crew.take_end(alloc)?;
    push_end(alloc, text, first)?;
    push_crew(text, &crew)?;
    let second = crew.take_end(alloc)?;
    push_end(alloc, text, second)?;
    push_crew(text, &crew)
}

fn push_workers(text: &mut String, crew: &SerialCrew<'_, ScriptShop>) -> Result<(), Fault> {
    write!(text, "{} workers", crew.workers())?;
    push_crew(text, crew)
}

fn push_crew(text: &mut String, crew: &SerialCrew<'_, ScriptShop>) -> Result<(), Fault> {
    text.push_str(if crew.room() { ", room" } else { ", no room" })?;
    Ok(text.push_str(if crew.idle() { " and idle" } else { "" })?)
}

fn push_end(alloc: Global, text: &mut String, end: (u32, Fate)) -> Result<(), Fault> {
    let (id, fate) = end;
    let fate = show_fate(alloc, fate)?;
    Ok(write!(text, ", {id} {fate}")?)
}

fn copy_job(alloc: Global, pkg: &Word, commands: &Word) -> Result<String, Fault> {
    let job = job_of(alloc, pkg, u64::from(small(commands)?))?;
    show_copy(alloc, &job)
}

fn show_copy(alloc: Global, job: &Job) -> Result<String, Fault> {
    let copy = job.copy(alloc)?;
    show_job(alloc, &copy)
}

fn show_job(alloc: Global, job: &Job) -> Result<String, Fault> {
    let mut text = job.pkg.print(alloc)?;
    push_job(&mut text, job)?;
    Ok(text)
}

fn push_job(text: &mut String, job: &Job) -> Result<(), Fault> {
    if let Some(source) = &job.source {
        write!(text, " from {}", source.as_str())?;
    }
    for words in job.commands.as_slice() {
        push_words(text, words.as_slice())?;
    }
    push_env(text, job.env.as_slice())
}

fn push_env(text: &mut String, env: &[(Text, Text)]) -> Result<(), Fault> {
    for (name, value) in env {
        write!(text, ", {}={}", name.as_str(), value.as_str())?;
    }
    Ok(())
}

fn push_words(text: &mut String, words: &[Text]) -> Result<(), Fault> {
    text.push_str(",")?;
    for word in words {
        text.push_str(" ")?;
        text.push_str(word.as_str())?;
    }
    Ok(())
}
