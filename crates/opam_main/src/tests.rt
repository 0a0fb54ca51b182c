// Each device on real folders, which its test makes and removes.
ghost use Rattle.std.specs.Prelude.{◌<◌, ◌≤◌, ◌^◌, IfOk, length};

use crate::children::ChildShop;
use crate::disk::FolderDisk;
use crate::host::FolderHost;
use crate::streams::OutSink;
use crash_disk::{Claim, Disk, DiskRead, Look};
use opam_names::{Items, OutOfMemory, Pkg, ReadFault, RelPath, Text};
use outside_io::{Ending, Found, Host, HostFault, Job, Seen, Sink, Workshop};
use std::alloc::Global;
use std::io::{ErrorKind, Write};
use std::os::unix::fs::{PermissionsExt, symlink};
use std::process::Command;
use std::test::Fail;
use std::{fs, io};

// An empty folder of this name.
fn make_fresh(rt: &HostRuntime, name: &str) -> Result<(), Fail> {
    if fs::exists(rt, name)? {
        fs::remove_dir_all(rt, name)?;
    }
    fs::create_dir_all(rt, name)?;
    Ok(())
}

// What no function of this language makes: a pipe, a name that is not UTF-8.
fn by_shell(rt: &HostRuntime, script: &str) -> Result<(), Fail> {
    let mut command = Command::new(rt.alloc(), "/bin/sh")?;
    command.arg("-c")?;
    command.arg(script)?;
    if !command.status(rt)?.success() {
        return Err("a script has failed")?;
    }
    Ok(())
}

fn path(alloc: Global, text: &str) -> Result<RelPath, ReadFault>
    requires { length text.now < 2 ^ 32 }
{
    RelPath::read(alloc, text.as_bytes())
}

fn mode(rt: &HostRuntime, path: &str) -> Result<u32, Fail> {
    Ok(fs::symlink_metadata(rt, path)?.permissions().mode() & 0o777)
}

fn reads(host: &mut FolderHost<HostRuntime>, alloc: Global, path: &str, bytes: &[u8]) -> bool {
    match host.read(alloc, path, 5) {
        Ok(Found::Bytes(found)) => found.as_slice() == bytes,
        _ => false,
    }
}

#[test]
fn a_host_reads_files(rt: HostRuntime) -> Result<(), Fail> {
    let alloc = rt.alloc();
    make_fresh(&rt, "host")?;
    fs::write(&rt, "host/file", "hello")?;
    symlink(&rt, "file", "host/good")?;
    symlink(&rt, "nowhere", "host/link")?;
    by_shell(&rt, "mkfifo host/pipe")?;
    let mut host = FolderHost::new(rt.clone()?);
    assert!(rt; reads(&mut host, alloc, "host/file", b"hello"));
    assert!(rt; reads(&mut host, alloc, "host/good", b"hello"));
    assert!(rt; matches!(host.read(alloc, "host/file", 4), Ok(Found::TooLong)));
    assert!(rt; matches!(host.read(alloc, "host/none", 5), Ok(Found::Absent)));
    for wrong in ["host", "host/file/x", "host/link", "host/pipe"] {
        assert!(rt;
            matches!(host.read(alloc, wrong, 5), Err(HostFault::Failed)),
            "{wrong}"
        );
    }
    fs::remove_dir_all(&rt, "host")?;
    Ok(())
}

fn open_disk(rt: &HostRuntime, root: &str) -> Result<FolderDisk<HostRuntime>, Fail> {
    let alloc = rt.alloc();
    Ok(FolderDisk::new(alloc, rt.clone()?, String::from_str(alloc, root)?))
}

// The bytes and the executable bit of the file at a path.
fn stands(
    disk: &mut FolderDisk<HostRuntime>,
    alloc: Global,
    path: &RelPath,
    want: &[u8],
    want_exec: bool,
) -> bool {
    match disk.read(alloc, path, 9) {
        Ok(DiskRead::File { bytes, exec }) => bytes.as_slice() == want && exec == want_exec,
        _ => false,
    }
}

// Nothing stands at a path, and nothing can be put there.
fn is_out_of_reach(disk: &mut FolderDisk<HostRuntime>, alloc: Global, path: &RelPath) -> bool {
    disk.look(path) == Ok(Look::Absent)
        && matches!(disk.read(alloc, path, 9), Ok(DiskRead::Absent))
        && disk.remove(path).is_ok()
        && disk.put(path, b"lost", false).is_err()
}

#[test]
fn a_disk_keeps_files(rt: HostRuntime) -> Result<(), Fail> {
    let alloc = rt.alloc();
    make_fresh(&rt, "disk")?;
    let mut disk = open_disk(&rt, "disk/switch")?;
    let tool = path(alloc, "bin/tool")?;
    let bin = path(alloc, "bin")?;
    assert_eq!(rt; disk.look(&tool).ok(), Some(Look::Absent));
    assert!(rt; disk.remove(&tool).is_ok());
    assert!(rt; disk.put(&tool, b"first", false).is_ok());
    assert_eq!(rt; mode(&rt, "disk/switch/bin/tool")?, 0o644);
    assert!(rt; disk.put(&tool, b"tool", true).is_ok());
    assert_eq!(rt; mode(&rt, "disk/switch/bin/tool")?, 0o755);
    assert!(rt; disk.sync().is_ok());
    assert!(rt; stands(&mut disk, alloc, &tool, b"tool", true));
    assert!(rt; matches!(disk.read(alloc, &tool, 3), Ok(DiskRead::TooLong)));
    assert!(rt; matches!(disk.read(alloc, &bin, 3), Ok(DiskRead::Absent)));
    assert_eq!(rt; disk.look(&tool).ok(), Some(Look::File));
    assert_eq!(rt; disk.look(&bin).ok(), Some(Look::Folder));
    assert!(rt; disk.put(&bin, b"bin", false).is_err());
    assert!(rt; disk.remove(&tool).is_ok());
    assert!(rt; !fs::exists(&rt, "disk/switch/bin")?);
    fs::create_dir_all(&rt, "disk/switch/bin/empty/folders")?;
    assert_eq!(rt; disk.look(&bin).ok(), Some(Look::Absent));
    by_shell(&rt, "touch \"$(printf 'disk/switch/bin/empty/\\377')\"")?;
    assert_eq!(rt; disk.look(&bin).ok(), Some(Look::Folder));
    assert!(rt; disk.put(&bin, b"bin", false).is_err());
    by_shell(&rt, "rm disk/switch/bin/empty/?")?;
    assert!(rt; disk.put(&bin, b"bin", false).is_ok());
    assert!(rt; disk.sync().is_ok());
    assert_eq!(rt; disk.clock(), 17);
    assert!(rt; is_out_of_reach(&mut disk, alloc, &tool));
    assert!(rt; stands(&mut disk, alloc, &bin, b"bin", false));
    assert!(rt; disk.sync().is_ok());
    fs::remove_dir_all(&rt, "disk")?;
    Ok(())
}

#[test]
fn a_disk_stays_in_its_switch(rt: HostRuntime) -> Result<(), Fail> {
    let alloc = rt.alloc();
    make_fresh(&rt, "links/outside")?;
    fs::write(&rt, "links/outside/file", "kept")?;
    let mut disk = open_disk(&rt, "links/switch")?;
    assert_eq!(rt; disk.claim().ok(), Some(Claim::Mine));
    assert_eq!(rt;
        open_disk(&rt, "links/switch")?.claim().ok(),
        Some(Claim::Held)
    );
    assert_eq!(rt; disk.claim().ok(), Some(Claim::Mine));
    symlink(&rt, "../outside", "links/switch/lib")?;
    by_shell(&rt, "mkfifo links/switch/pipe")?;
    let (lib, file) = (path(alloc, "lib")?, path(alloc, "lib/file")?);
    let pipe = path(alloc, "pipe")?;
    assert!(rt; is_out_of_reach(&mut disk, alloc, &file));
    assert!(rt; is_out_of_reach(&mut disk, alloc, &path(alloc, "pipe/file")?));
    for special in [&lib, &pipe] {
        assert_eq!(rt; disk.look(special).ok(), Some(Look::File));
        assert!(rt; disk.read(alloc, special, 9).is_err());
    }
    assert!(rt; disk.sync().is_ok());
    assert!(rt; disk.put(&lib, b"lib", false).is_ok());
    assert!(rt; stands(&mut disk, alloc, &lib, b"lib", false));
    assert!(rt; disk.remove(&pipe).is_ok());
    assert!(rt; disk.sync().is_ok());
    symlink(&rt, "switch", "links/other")?;
    let mut linked = open_disk(&rt, "links/other")?;
    assert!(rt; linked.claim().is_err());
    assert!(rt; linked.look(&lib).is_err());
    assert!(rt; linked.read(alloc, &lib, 9).is_err());
    assert!(rt; linked.put(&lib, b"lost", false).is_err());
    assert!(rt; linked.remove(&lib).is_err());
    assert!(rt; stands(&mut disk, alloc, &lib, b"lib", false));
    assert_eq!(rt;
        fs::read_to_string(&rt, "links/outside/file")?.as_str(),
        "kept"
    );
    fs::remove_dir_all(&rt, "links")?;
    Ok(())
}

fn make_shop(rt: &HostRuntime, root: &str) -> Result<ChildShop<HostRuntime>, Fail> {
    Ok(ChildShop::new(rt.clone()?, String::from_str(rt.alloc(), root)?))
}

// The job of `hello.1.0` with these words as its only command.
fn make_job(alloc: Global, source: Option<&str>, words: &[&str]) -> Result<Job, ReadFault>
    ensures { IfOk result (λ job. 1 ≤ length job.commands) }
{
    let source = match source {
        Some(folder) => Some(Text::from_str(alloc, folder)?),
        None => None,
    };
    let mut command = Items::new(alloc);
    for word in words {
        command.push(Text::from_str(alloc, word)?)?;
    }
    let mut commands = Items::new(alloc);
    commands.push(command)?;
    Ok(Job {
        pkg: Pkg::read(alloc, b"hello.1.0")?,
        source,
        commands,
        env: Items::new(alloc),
    })
}

// What the shop sees at a path, as a letter.
fn letter(seen: Result<Seen, OutOfMemory>) -> char {
    match seen {
        Ok(Seen::Absent) => 'a',
        Ok(Seen::Bytes(bytes)) if bytes.as_slice() == b"hello".as_slice() => 'b',
        Ok(Seen::TooLong) => 't',
        Ok(Seen::Unreadable) => 'u',
        _ => '?',
    }
}

#[test]
fn a_shop_prepares_folders(rt: HostRuntime) -> Result<(), Fail> {
    let alloc = rt.alloc();
    make_fresh(&rt, "shop")?;
    let shop = make_shop(&rt, "shop/switch")?;
    let job = make_job(alloc, None, &[])?;
    assert_eq!(rt; shop.build_step(alloc, &job, 0), Ok(Ending::Exit(0)));
    let build = "shop/switch/.opam-switch/build/hello.1.0";
    assert!(rt; fs::read_dir(&rt, build)?.next().is_none());
    by_shell(
        &rt,
        "cd shop/switch/.opam-switch/build/hello.1.0 && mkdir folder && printf hello >folder/file && \
         mkfifo pipe && mkdir -p closed/inner && touch closed/inner/file && chmod 0 closed/inner && chmod 0 closed",
    )?;
    let (folder, file) = (path(alloc, "folder")?, path(alloc, "folder/file")?);
    assert_eq!(rt; letter(shop.read(alloc, &job, &file, 5)), 'b');
    assert_eq!(rt; letter(shop.read(alloc, &job, &file, 4)), 't');
    assert_eq!(rt; letter(shop.read(alloc, &job, &folder, 5)), 'u');
    assert_eq!(rt;
        letter(shop.read(alloc, &job, &path(alloc, "pipe")?, 5)),
        'u'
    );
    assert_eq!(rt;
        letter(shop.read(alloc, &job, &path(alloc, "none")?, 5)),
        'a'
    );
    assert_eq!(rt;
        letter(shop.read(alloc, &job, &path(alloc, "folder/file/x")?, 5)),
        'u'
    );
    assert_eq!(rt; shop.build_step(alloc, &job, 0), Ok(Ending::Exit(0)));
    assert!(rt; fs::read_dir(&rt, build)?.next().is_none());
    fs::remove_dir_all(&rt, "shop")?;
    Ok(())
}

fn prepares(
    shop: &ChildShop<HostRuntime>,
    alloc: Global,
    source: &str,
) -> Result<Result<Ending, OutOfMemory>, Fail> {
    let job = make_job(alloc, Some(source), &[])?;
    Ok(shop.build_step(alloc, &job, 0))
}

#[test]
fn a_shop_copies_sources(rt: HostRuntime) -> Result<(), Fail> {
    let alloc = rt.alloc();
    make_fresh(&rt, "copy/source/sub/deep")?;
    by_shell(
        &rt,
        "cd copy/source && printf hello >sub/deep/file && printf run >tool && chmod 700 tool && \
         ln -s sub/deep/file link && mkdir empty && mkdir ../bad ../pipe ../round ../name && \
         ln -s ../source/tool ../bad/out && mkfifo ../pipe/pipe && ln -s . ../round/here && \
         touch \"$(printf '../name/\\377')\"",
    )?;
    let shop = make_shop(&rt, "copy/source/_opam")?;
    assert_eq!(rt; prepares(&shop, alloc, "copy/source")?, Ok(Ending::Exit(0)));
    by_shell(
        &rt,
        "cd copy/source/_opam/.opam-switch/build/hello.1.0 && test \"$(cat sub/deep/file)\" = hello && \
         test -x tool && test -f link && test ! -L link && test \"$(cat link)\" = hello && \
         test -d empty && test ! -e _opam",
    )?;
    let build = "copy/source/_opam/.opam-switch/build/hello.1.0";
    assert_eq!(rt;
        mode(&rt, "copy/source/_opam/.opam-switch/build/hello.1.0/tool")?,
        0o755
    );
    let wrong = [
        "copy/none",
        "copy/source/tool",
        "copy/bad",
        "copy/pipe",
        "copy/round",
        "copy/name",
        "copy/source/_opam",
        build,
    ];
    for source in wrong {
        assert_eq!(rt;
            prepares(&shop, alloc, source)?,
            Ok(Ending::NotPrepared),
            "{source}"
        );
    }
    fs::remove_dir_all(&rt, "copy")?;
    Ok(())
}

// How the only command of a job ends, whose environment is these names and values.
fn ending(
    shop: &ChildShop<HostRuntime>,
    alloc: Global,
    env: &[(&str, &str)],
    words: &[&str],
) -> Result<Result<Ending, OutOfMemory>, Fail> {
    let mut job = make_job(alloc, None, words)?;
    let mut pairs = Items::new(alloc);
    for (name, value) in env {
        pairs.push((Text::from_str(alloc, name)?, Text::from_str(alloc, value)?))?;
    }
    job.env = pairs;
    let _ = shop.build_step(alloc, &job, 0);
    Ok(shop.build_step(alloc, &job, 1))
}

#[test]
fn a_shop_runs_commands(rt: HostRuntime) -> Result<(), Fail> {
    let alloc = rt.alloc();
    make_fresh(&rt, "run")?;
    let shop = make_shop(&rt, "run/switch")?;
    let log = "run/switch/.opam-switch/build/hello.1.0/opam.log";
    let prints = [
        "sh",
        "-c",
        "cat; echo $0 $WHO ${HOME-none}; echo bad >&2; pwd",
        "a b",
    ];
    let env = [("WHO", "one"), ("WHO", "two")];
    assert_eq!(rt; ending(&shop, alloc, &env, &prints)?, Ok(Ending::Exit(0)));
    let printed = fs::read_to_string(&rt, log)?;
    assert!(rt; printed.as_str().starts_with("a b two none\nbad\n/"));
    assert!(rt;
        printed
            .as_str()
            .ends_with("/run/switch/.opam-switch/build/hello.1.0\n")
    );
    let fails = ["sh", "-c", "exit 7"];
    assert_eq!(rt; ending(&shop, alloc, &[], &fails)?, Ok(Ending::Exit(7)));
    let kills = ["sh", "-c", "kill -9 $$"];
    assert_eq!(rt; ending(&shop, alloc, &[], &kills)?, Ok(Ending::Killed));
    assert_eq!(rt;
        ending(&shop, alloc, &[], &["no-such-command"])?,
        Ok(Ending::Exit(127))
    );
    let nowhere = [("PATH", "/nowhere")];
    assert_eq!(rt;
        ending(&shop, alloc, &nowhere, &["true"])?,
        Ok(Ending::NotStarted)
    );
    fs::remove_dir_all(&rt, "run")?;
    Ok(())
}

// A stream whose first write is interrupted.
#[derive(Drop)]
struct Interrupted {
    times: u8,
    got: Vec<u8>,
}

impl Write for Interrupted {
    fn write(&mut self, bytes: &[u8]) -> io::Result<usize> {
        if self.times == 0 {
            self.times = 1;
            return Err(io::Error::from(ErrorKind::Interrupted));
        }
        self.got.extend_from_slice(bytes)?;
        Ok(bytes.len())
    }

    fn flush(&mut self) -> io::Result<()> {
        Ok(())
    }
}

#[test]
fn a_sink_passes_bytes_on(rt: HostRuntime) -> Result<(), Fail> {
    make_fresh(&rt, "sink")?;
    let mut sink = OutSink::new(fs::create(&rt, "sink/file")?);
    assert_eq!(rt; sink.write(b"hello"), Ok(5));
    assert_eq!(rt; fs::read_to_string(&rt, "sink/file")?.as_str(), "hello");
    let mut full = OutSink::new(fs::OpenOptions::new().write(true).open(&rt, "/dev/full")?);
    assert!(rt; full.write(b"hello").is_err());
    let mut sink = OutSink::new(Interrupted {
        times: 0,
        got: Vec::new(rt.alloc()),
    });
    assert_eq!(rt; sink.write(b"hello"), Ok(5));
    fs::remove_dir_all(&rt, "sink")?;
    Ok(())
}
