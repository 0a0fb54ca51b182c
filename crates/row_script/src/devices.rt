// The devices in memory of a script, and the calls of `outside_io`, `crash_disk` and `child_pool` over them. Lines such
// as `host l "text"` say what a device is made of; the first call of a device makes it, and such a line after that
// begins another one. `new` lets all go.
ghost use Rattle.std.specs.Prelude.{◌≡◌};
ghost use Rattle.outside_io.specs.Scripts.{all_well};

use crate::fault::Fault;
use crate::lexer::Word;
use crate::script::{Call, numbers, same};
use crate::show::plain;
use crate::values::{path_of, pkg_of};
use crash_disk::MemoryDisk;
use opam_names::{Items, RelPath, Text};
use outside_io::{Ending, MemoryHost, MemorySink, Script, ScriptShop};
use std::alloc::Global;
use std::mem;
use std::sync::Arc;

/// No script has more files by number.
const MOST_FILES: u64 = 100000;

/// The devices, and what the next ones are made of.
#[derive(Drop)]
pub struct Devices {
    host: Option<MemoryHost>,
    disk: Option<MemoryDisk>,
    shop: Option<Arc<ScriptShop>>,
    sink: Option<MemorySink>,
    host_files: Vec<(String, Vec<u8>)>,
    host_fails: Vec<u64>,
    disk_files: Vec<(RelPath, Vec<u8>, bool)>,
    disk_fails: Vec<u64>,
    is_held: bool,
    scripts: Vec<Script>,
    out_fails: Vec<u64>,
    err_fails: Vec<u64>,
}

impl Devices {
    pub fn new(alloc: Global) -> Devices {
        Devices {
            host: None,
            disk: None,
            shop: None,
            sink: None,
            host_files: Vec::new(alloc),
            host_fails: Vec::new(alloc),
            disk_files: Vec::new(alloc),
            disk_fails: Vec::new(alloc),
            is_held: false,
            scripts: Vec::new(alloc),
            out_fails: Vec::new(alloc),
            err_fails: Vec::new(alloc),
        }
    }

    /// The host, which is made where there is none.
    pub fn take_host(&mut self, alloc: Global) -> MemoryHost {
        match self.host.take() {
            Some(host) => host,
            None => {
                let files = mem::replace(&mut self.host_files, Vec::new(alloc));
                let fails = mem::replace(&mut self.host_fails, Vec::new(alloc));
                MemoryHost::new(files, fails)
            }
        }
    }

    pub fn keep_host(&mut self, host: MemoryHost) {
        self.host = Some(host);
    }

    /// The disk, which is made where there is none.
    pub fn take_disk(&mut self, alloc: Global) -> MemoryDisk {
        match self.disk.take() {
            Some(disk) => disk,
            None => {
                let files = mem::replace(&mut self.disk_files, Vec::new(alloc));
                let fails = mem::replace(&mut self.disk_fails, Vec::new(alloc));
                let is_held = mem::replace(&mut self.is_held, false);
                MemoryDisk::new(alloc, files, fails, is_held)
            }
        }
    }

    pub fn keep_disk(&mut self, disk: MemoryDisk) {
        self.disk = Some(disk);
    }

    /// The shop, which is made where there is none.
    pub fn take_shop(&mut self, alloc: Global) -> Result<Arc<ScriptShop>, Fault> {
        match self.shop.take() {
            Some(shop) => Ok(shop),
            None => {
                let scripts = mem::replace(&mut self.scripts, Vec::new(alloc));
                Ok(Arc::new(alloc, shop_of(scripts)?)?)
            }
        }
    }

    pub fn keep_shop(&mut self, shop: Arc<ScriptShop>) {
        self.shop = Some(shop);
    }

    /// The sink of single calls, which is made where there is none.
    pub fn take_sink(&mut self, alloc: Global) -> MemorySink {
        match self.sink.take() {
            Some(sink) => sink,
            None => self.next_out(alloc),
        }
    }

    pub fn keep_sink(&mut self, sink: MemorySink) {
        self.sink = Some(sink);
    }

    /// The output of the next run.
    pub fn next_out(&mut self, alloc: Global) -> MemorySink {
        MemorySink::new(alloc, mem::replace(&mut self.out_fails, Vec::new(alloc)))
    }

    /// The error output of the next run.
    pub fn next_err(&mut self, alloc: Global) -> MemorySink {
        MemorySink::new(alloc, mem::replace(&mut self.err_fails, Vec::new(alloc)))
    }

    fn add_host_file(&mut self, alloc: Global, path: &Word, text: &Word) -> Result<(), Fault> {
        self.host = None;
        let path = path.string(alloc)?;
        Ok(self.host_files.push((path, same(alloc, text)?))?)
    }

    fn add_disk_file(
        &mut self,
        alloc: Global,
        path: &Word,
        text: &Word,
        exec: bool,
    ) -> Result<(), Fault> {
        self.disk = None;
        let path = path_of(alloc, path)?;
        Ok(self.disk_files.push((path, same(alloc, text)?, exec))?)
    }

    fn set_host_fails(&mut self, alloc: Global, calls: &[Word]) -> Result<(), Fault> {
        self.host_fails = numbers(alloc, calls)?;
        self.host = None;
        Ok(())
    }

    fn set_disk_fails(&mut self, alloc: Global, calls: &[Word]) -> Result<(), Fault> {
        self.disk_fails = numbers(alloc, calls)?;
        self.disk = None;
        Ok(())
    }

    fn set_out_fails(&mut self, alloc: Global, calls: &[Word]) -> Result<(), Fault> {
        self.out_fails = numbers(alloc, calls)?;
        self.sink = None;
        Ok(())
    }

    fn set_err_fails(&mut self, alloc: Global, calls: &[Word]) -> Result<(), Fault> {
        self.err_fails = numbers(alloc, calls)?;
        Ok(())
    }

    fn hold_disk(&mut self) {
        self.disk = None;
        self.is_held = true;
    }

    fn add_script(&mut self, script: Script) -> Result<(), Fault> {
        if !script.is_well() {
            return Err(Fault::Line("a script has an ending that cannot be"));
        }
        self.shop = None;
        Ok(self.scripts.push(script)?)
    }
}

/// Lines that say what devices are made of.
pub fn answer(alloc: Global, call: &Call, devices: &mut Devices) -> Result<String, Fault> {
    note(alloc, call, devices)?;
    plain(alloc, "noted")
}

fn note(alloc: Global, call: &Call, devices: &mut Devices) -> Result<(), Fault> {
    let words = call.words.as_slice();
    match call.name.as_str() {
        "new" => begin_anew(alloc, words, devices),
        "host" => note_host_file(alloc, words, devices),
        "host-fails" => devices.set_host_fails(alloc, words),
        "disk" => note_disk_file(alloc, words, devices),
        "disk-fails" => devices.set_disk_fails(alloc, words),
        "disk-held" => note_held(words, devices),
        "out-fails" => devices.set_out_fails(alloc, words),
        "err-fails" => devices.set_err_fails(alloc, words),
        "script" => note_script(alloc, words, devices),
        "script-many" => note_many(alloc, words, devices),
        _ => Err(Fault::Unknown),
    }
}

fn begin_anew(alloc: Global, words: &[Word], devices: &mut Devices) -> Result<(), Fault> {
    if !words.is_empty() {
        return Err(Fault::Unknown);
    }
    *devices = Devices::new(alloc);
    Ok(())
}

fn note_host_file(alloc: Global, words: &[Word], devices: &mut Devices) -> Result<(), Fault> {
    match words {
        [path, text] => devices.add_host_file(alloc, path, text),
        _ => Err(Fault::Unknown),
    }
}

fn note_disk_file(alloc: Global, words: &[Word], devices: &mut Devices) -> Result<(), Fault> {
    match words {
        [path, text] => devices.add_disk_file(alloc, path, text, false),
        [path, text, exec] if exec.is("exec") => devices.add_disk_file(alloc, path, text, true),
        _ => Err(Fault::Unknown),
    }
}

fn note_held(words: &[Word], devices: &mut Devices) -> Result<(), Fault> {
    if !words.is_empty() {
        return Err(Fault::Unknown);
    }
    devices.hold_disk();
    Ok(())
}

fn note_script(alloc: Global, words: &[Word], devices: &mut Devices) -> Result<(), Fault> {
    devices.add_script(script_of(alloc, words)?)
}

fn note_many(alloc: Global, words: &[Word], devices: &mut Devices) -> Result<(), Fault> {
    devices.add_script(many_of(alloc, words)?)
}

// `a.1 0 2 : x "hi" y unreadable`: the endings of a package's steps, and the files of its build folder.
fn script_of(alloc: Global, words: &[Word]) -> Result<Script, Fault> {
    let [pkg, rest @ ..] = words else {
        return Err(Fault::Line("a script has no package"));
    };
    let mut script = empty_script(alloc, pkg)?;
    fill(alloc, &mut script, rest)?;
    Ok(script)
}

fn fill(alloc: Global, script: &mut Script, words: &[Word]) -> Result<(), Fault> {
    let (endings, files) = cut(words);
    add_endings(script, endings)?;
    add_files(alloc, script, files)
}

fn add_endings(script: &mut Script, words: &[Word]) -> Result<(), Fault> {
    for word in words {
        script.endings.push(ending_of(word)?)?;
    }
    Ok(())
}

// So many files of one text, whose paths are numbered from 0001 on, and others.
fn many_of(alloc: Global, words: &[Word]) -> Result<Script, Fault> {
    let [pkg, words @ ..] = words else {
        return Err(Fault::Line(LACKS));
    };
    let mut script = empty_script(alloc, pkg)?;
    fill_many(alloc, &mut script, words)?;
    Ok(script)
}

fn fill_many(alloc: Global, script: &mut Script, words: &[Word]) -> Result<(), Fault> {
    let [count, path, text, files @ ..] = words else {
        return Err(Fault::Line(LACKS));
    };
    for number in 0..count_of(count)? {
        add_numbered(alloc, script, path, number, text)?;
    }
    add_files(alloc, script, files)
}

const LACKS: &str = "a script of many files lacks a word";

fn count_of(word: &Word) -> Result<u64, Fault> {
    let count = word.number()?;
    if count > MOST_FILES {
        return Err(Fault::Line("a script has too many files"));
    }
    Ok(count)
}

fn add_numbered(
    alloc: Global,
    script: &mut Script,
    path: &Word,
    number: u64,
    text: &Word,
) -> Result<(), Fault> {
    let path = numbered(alloc, path, number)?;
    let bytes = Items::from_slice(alloc, text.bytes.as_slice())?;
    Ok(script.files.push((path, Some(bytes)))?)
}

// The path of the file after so many.
fn numbered(alloc: Global, path: &Word, number: u64) -> Result<Text, Fault> {
    let path = path.text()?;
    let number = number.saturating_add(1);
    Ok(Text::from_string(format!(in alloc; "{path}{number:04}")?))
}

fn empty_script(alloc: Global, pkg: &Word) -> Result<Script, Fault> {
    Ok(Script {
        pkg: pkg_of(alloc, pkg)?,
        endings: Items::new(alloc),
        files: Items::new(alloc),
    })
}

// What stands before a colon, and what stands after it.
fn cut(words: &[Word]) -> (&[Word], &[Word]) {
    match words.iter().position(|word| word.is(":")) {
        Some(at) => (&words[..at], &words[at + 1..]),
        None => (words, &[]),
    }
}

// Paths with their texts, by turns.
fn add_files(alloc: Global, script: &mut Script, words: &[Word]) -> Result<(), Fault> {
    let mut path = None;
    for word in words {
        path = add_word(alloc, script, path, word)?;
    }
    match path {
        None => Ok(()),
        Some(_) => Err(Fault::Line("a file of a script has no text")),
    }
}

// A path is kept until its text comes.
fn add_word(
    alloc: Global,
    script: &mut Script,
    path: Option<Text>,
    word: &Word,
) -> Result<Option<Text>, Fault> {
    let Some(path) = path else {
        return Ok(Some(Text::from_str(alloc, word.text()?)?));
    };
    let bytes = if word.is("unreadable") {
        None
    } else {
        Some(Items::from_slice(alloc, word.bytes.as_slice())?)
    };
    script.files.push((path, bytes))?;
    Ok(None)
}

/// The ending that a word names.
pub fn ending_of(word: &Word) -> Result<Ending, Fault> {
    match word.text()? {
        "killed" => Ok(Ending::Killed),
        "not-started" => Ok(Ending::NotStarted),
        "not-prepared" => Ok(Ending::NotPrepared),
        text => match text.parse::<u8>() {
            Ok(code) => Ok(Ending::Exit(code)),
            Err(_) => Err(Fault::Line("a word is no ending")),
        },
    }
}

fn shop_of(scripts: Vec<Script>) -> Result<ScriptShop, Fault> {
    if !are_well(scripts.as_slice()) {
        return Err(Fault::Line("a script has an ending that cannot be"));
    }
    Ok(ScriptShop::new(scripts))
}

fn are_well(scripts: &[Script]) -> bool
    ensures { result ≡ all_well scripts.now }
{
    let mut rest = scripts;
    while let [script, after @ ..] = rest {
        if !script.is_well() {
            return false;
        }
        rest = after;
    }
    true
}
