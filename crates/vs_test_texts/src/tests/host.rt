//! A host in memory, and files of the system.

use std::alloc::{AllocError, Global};
use std::fs;
use std::test::Fail;
use vs_host::{Host, HostRead, MemHost, NamedFile, RealHost};

fn file(alloc: Global, name: &str, text: &str) -> Result<NamedFile, AllocError> {
    Ok(NamedFile {
        name: String::from_str(alloc, name)?,
        bytes: Vec::from_slice(alloc, text.as_bytes())?,
    })
}

// The third and the sixth call fail.
fn host(alloc: Global) -> Result<MemHost, AllocError> {
    let files = vec![in alloc; file(alloc, "a", "first")?, file(alloc, "b", "second")?]?;
    let failing = vec![in alloc; 3, 6]?;
    Ok(MemHost::new(alloc, files, failing))
}

#[test]
fn memory(rt: HostRuntime) -> Result<(), Fail> {
    let mut host = host(rt.alloc())?;
    assert_eq!(rt; host.read("b", 6)?.as_slice(), b"second".as_slice());
    assert_eq!(rt; host.read("b", 5).err(), Some(HostRead::TooLong));
    assert_eq!(rt; host.read("b", 6).err(), Some(HostRead::Failed));
    assert_eq!(rt; host.read("c", 6).err(), Some(HostRead::Failed));
    assert!(rt; host.out(b"put out").is_ok());
    assert!(rt; host.log(b"logged").is_err());
    assert!(rt; host.log(b" line").is_ok());
    assert_eq!(rt; host.put_out(), b"put out".as_slice());
    assert_eq!(rt; host.logged(), b"log line".as_slice());
    Ok(())
}

// The output is a file, which is then read.
#[test]
fn real(rt: HostRuntime) -> Result<(), Fail> {
    let name = "host.txt";
    let output = fs::create(&rt, name)?;
    let mut host = RealHost::new(rt.alloc(), rt, output, rt.stderr());
    assert!(rt; host.out(b"written").is_ok());
    assert_eq!(rt; host.read(name, 7)?.as_slice(), b"written".as_slice());
    assert_eq!(rt; host.read(name, 6).err(), Some(HostRead::TooLong));
    assert_eq!(rt; host.read("no such file", 7).err(), Some(HostRead::Failed));
    fs::remove_file(&rt, name)?;
    Ok(())
}
