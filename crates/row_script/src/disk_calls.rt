// Calls of `crash_disk` over a disk in memory.
use crate::devices::Devices;
use crate::fault::Fault;
use crate::lexer::Word;
use crate::script::Call;
use crate::show::{plain, quoted};
use crate::values::path_of;
use crate::writes::writes_of;
use crash_disk::{Choice, Claim, Disk, DiskFault, DiskRead, Look, MemoryDisk, write_all};
use outside_io::Failed;
use std::alloc::Global;

/// Longer files of an image are not shown, in bytes.
const LONGEST_SHOWN: u64 = 65536;

pub fn answer(alloc: Global, call: &Call, devices: &mut Devices) -> Result<String, Fault> {
    let name = call.name.as_str();
    let words = call.words.as_slice();
    match name {
        "write_all" => write(alloc, devices, words),
        "Disk::put" => put(alloc, devices, words),
        "MemoryDisk::image" => image(alloc, devices, words),
        _ => answer_few(alloc, name, words, devices),
    }
}

// Calls with up to two words.
fn answer_few(
    alloc: Global,
    name: &str,
    words: &[Word],
    devices: &mut Devices,
) -> Result<String, Fault> {
    match words {
        [] => answer_bare(alloc, name, devices),
        [path] => answer_path(alloc, name, path, devices),
        [path, limit] => answer_read(alloc, name, path, limit, devices),
        _ => Err(Fault::Unknown),
    }
}

fn answer_bare(alloc: Global, name: &str, devices: &mut Devices) -> Result<String, Fault> {
    match name {
        "Disk::claim" => claim(alloc, devices),
        "Disk::sync" => sync(alloc, devices),
        "Disk::clock" => clock(alloc, devices),
        "MemoryDisk::calls" => disk_calls(alloc, devices),
        _ => Err(Fault::Unknown),
    }
}

fn answer_path(
    alloc: Global,
    name: &str,
    path: &Word,
    devices: &mut Devices,
) -> Result<String, Fault> {
    match name {
        "Disk::look" => look(alloc, devices, path),
        "Disk::remove" => remove(alloc, devices, path),
        _ => Err(Fault::Unknown),
    }
}

fn answer_read(
    alloc: Global,
    name: &str,
    path: &Word,
    limit: &Word,
    devices: &mut Devices,
) -> Result<String, Fault> {
    match name {
        "Disk::read" => read_disk(alloc, devices, path, limit),
        "crash_disk::calls::read" => read_by_call(alloc, devices, path, limit),
        _ => Err(Fault::Unknown),
    }
}

/// Whether a call of a device was done.
pub fn done(alloc: Global, answer: Result<(), Failed>) -> Result<String, Fault> {
    plain(alloc, if answer.is_ok() { "done" } else { "failed" })
}

fn claim(alloc: Global, devices: &mut Devices) -> Result<String, Fault> {
    let mut disk = devices.take_disk(alloc);
    let claim = disk.claim();
    devices.keep_disk(disk);
    match claim {
        Ok(Claim::Mine) => plain(alloc, "mine"),
        Ok(Claim::Held) => plain(alloc, "held"),
        Err(Failed) => plain(alloc, "failed"),
    }
}

fn look(alloc: Global, devices: &mut Devices, path: &Word) -> Result<String, Fault> {
    let path = path_of(alloc, path)?;
    let mut disk = devices.take_disk(alloc);
    let look = disk.look(&path);
    devices.keep_disk(disk);
    match look {
        Ok(Look::Absent) => plain(alloc, "absent"),
        Ok(Look::File) => plain(alloc, "file"),
        Ok(Look::Folder) => plain(alloc, "folder"),
        Err(Failed) => plain(alloc, "failed"),
    }
}

fn read_disk(
    alloc: Global,
    devices: &mut Devices,
    path: &Word,
    limit: &Word,
) -> Result<String, Fault> {
    let limit = limit.number()?;
    let path = path_of(alloc, path)?;
    let mut disk = devices.take_disk(alloc);
    let read = disk.read(alloc, &path, limit);
    devices.keep_disk(disk);
    show_read(alloc, read)
}

fn read_by_call(
    alloc: Global,
    devices: &mut Devices,
    path: &Word,
    limit: &Word,
) -> Result<String, Fault> {
    let limit = limit.number()?;
    let path = path_of(alloc, path)?;
    let mut disk = devices.take_disk(alloc);
    let read = crash_disk::calls::read(&mut disk, alloc, &path, limit);
    devices.keep_disk(disk);
    show_read(alloc, read)
}

fn show_read(alloc: Global, read: Result<DiskRead, DiskFault>) -> Result<String, Fault> {
    match read {
        Ok(DiskRead::Absent) => plain(alloc, "absent"),
        Ok(DiskRead::File { bytes, exec }) => show_file(alloc, bytes.as_slice(), exec),
        Ok(DiskRead::TooLong) => plain(alloc, "too long"),
        Err(DiskFault::Failed) => plain(alloc, "failed"),
        Err(DiskFault::Memory) => Err(Fault::Memory),
    }
}

fn show_file(alloc: Global, bytes: &[u8], exec: bool) -> Result<String, Fault> {
    let mut text = quoted(alloc, bytes)?;
    if exec {
        text.push_str(", executable")?;
    }
    Ok(text)
}

fn put(alloc: Global, devices: &mut Devices, words: &[Word]) -> Result<String, Fault> {
    match words {
        [path, text] => put_file(alloc, devices, path, text, false),
        [path, text, exec] if exec.is("exec") => put_file(alloc, devices, path, text, true),
        _ => Err(Fault::Unknown),
    }
}

fn put_file(
    alloc: Global,
    devices: &mut Devices,
    path: &Word,
    text: &Word,
    exec: bool,
) -> Result<String, Fault> {
    let path = path_of(alloc, path)?;
    let mut disk = devices.take_disk(alloc);
    let result = disk.put(&path, text.bytes.as_slice(), exec);
    devices.keep_disk(disk);
    done(alloc, result)
}

fn remove(alloc: Global, devices: &mut Devices, path: &Word) -> Result<String, Fault> {
    let path = path_of(alloc, path)?;
    let mut disk = devices.take_disk(alloc);
    let result = disk.remove(&path);
    devices.keep_disk(disk);
    done(alloc, result)
}

fn sync(alloc: Global, devices: &mut Devices) -> Result<String, Fault> {
    let mut disk = devices.take_disk(alloc);
    let result = disk.sync();
    devices.keep_disk(disk);
    done(alloc, result)
}

fn clock(alloc: Global, devices: &mut Devices) -> Result<String, Fault> {
    let disk = devices.take_disk(alloc);
    let clock = disk.clock();
    devices.keep_disk(disk);
    Ok(format!(in alloc; "{clock}")?)
}

fn disk_calls(alloc: Global, devices: &mut Devices) -> Result<String, Fault> {
    let disk = devices.take_disk(alloc);
    let calls = disk.calls();
    let starved = disk.starved();
    devices.keep_disk(disk);
    Ok(format!(in alloc; "{calls}, {starved} without memory")?)
}

fn write(alloc: Global, devices: &mut Devices, words: &[Word]) -> Result<String, Fault> {
    let writes = writes_of(alloc, words)?;
    let mut disk = devices.take_disk(alloc);
    let answer = write_all(&mut disk, writes.as_slice());
    devices.keep_disk(disk);
    done(alloc, answer)
}

// What stands at these paths of the image that a stop at a moment leaves; the disk stays as it is.
fn image(alloc: Global, devices: &mut Devices, words: &[Word]) -> Result<String, Fault> {
    let [moment, choice, paths @ ..] = words else {
        return Err(Fault::Unknown);
    };
    let mut image = stopped(alloc, devices, moment.number()?, choice_of(choice)?)?;
    show_paths(alloc, &mut image, paths)
}

fn stopped(
    alloc: Global,
    devices: &mut Devices,
    moment: u64,
    choice: Choice,
) -> Result<MemoryDisk, Fault> {
    let disk = devices.take_disk(alloc);
    let image = image_of(&disk, moment, choice);
    devices.keep_disk(disk);
    image
}

fn image_of(disk: &MemoryDisk, moment: u64, choice: Choice) -> Result<MemoryDisk, Fault> {
    if moment > disk.clock() {
        return Err(Fault::Line("the disk has not come to this moment"));
    }
    Ok(disk.image(moment, choice)?)
}

fn choice_of(word: &Word) -> Result<Choice, Fault> {
    match word.text()? {
        "before" => Ok(Choice::Before),
        "after" => Ok(Choice::After),
        "gone" => Ok(Choice::Gone),
        "junk" => Ok(Choice::Junk),
        _ => Err(Fault::Line("a word is no choice")),
    }
}

fn show_paths(alloc: Global, disk: &mut MemoryDisk, paths: &[Word]) -> Result<String, Fault> {
    let mut text = String::from_str(alloc, "image:")?;
    for word in paths {
        text.push_str(" ")?;
        text.push_str(shown_at(alloc, disk, word)?.as_str())?;
    }
    Ok(text)
}

fn shown_at(alloc: Global, disk: &mut MemoryDisk, path: &Word) -> Result<String, Fault> {
    let path = path_of(alloc, path)?;
    show_read(alloc, disk.read(alloc, &path, LONGEST_SHOWN))
}
