//! The program: the top call over the words, the files, the output, the log and the disks of the system.
#![tactic(auto)]

ghost use Rattle.std.specs.Prelude.{◌≡◌, IfOk, length};

use std::fs::{File, OpenFile};
use std::process::ExitCode;
use std::{env, io};
use vs_disk::FileDisk;
use vs_gate::OpenGate;
use vs_host::RealHost;
use vs_main::vshard_main;

/// The words after the program's name. There are none where one of them isn't UTF-8: then they are no command, and no words
/// are none either.
fn words(rt: &HostRuntime) -> io::Result<Vec<String>> {
    let mut words = Vec::new(rt.alloc());
    match env::args(rt) {
        Ok(all) => {
            for word in all.skip(1) {
                words.push(word)?;
            }
        }
        Err(fault) if fault.kind() == io::ErrorKind::InvalidData => {}
        Err(fault) => return Err(fault),
    }
    Ok(words)
}

/// Three files that hold the numbers of standard input, output and error, where one of these is closed. Else a journal would be
/// opened under that number, and what is put out or logged would be written into it. They can't be written, so a closed stream
/// fails as before.
fn hold_streams(rt: &HostRuntime) -> io::Result<Vec<File>> {
    let mut held = Vec::new(rt.alloc());
    for _ in 0..3 {
        held.push(File::open(rt, "/dev/null")?)?;
    }
    Ok(held)
}

/// The disks of the 32 sets that there may be: the files `set-01.journal` to `set-32.journal` in the current folder. None is
/// made before its disk is opened.
fn disks(rt: HostRuntime) -> io::Result<Vec<FileDisk<HostRuntime>>>
    ensures { IfOk result (λ disks. length disks.items ≡ 32) }
{
    let mut disks = Vec::new(rt.alloc());
    for before in 0..32u64 {
        let set = before + 1;
        let path = format!(in rt.alloc(); "set-{set:02}.journal")?;
        disks.push(FileDisk::new(rt, path))?;
    }
    Ok(disks)
}

fn main(rt: HostRuntime) -> io::Result<ExitCode> {
    let _held = hold_streams(&rt)?;
    let words = words(&rt)?;
    let mut disks = disks(rt)?;
    let (alloc, output, log) = (rt.alloc(), rt.stdout(), rt.stderr());
    let mut host = RealHost::new(alloc, rt, output, log);
    let status = vshard_main(&rt, alloc, &words, &mut host, &mut disks, &OpenGate);
    Ok(ExitCode::from(status))
}
