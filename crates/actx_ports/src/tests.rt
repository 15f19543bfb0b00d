//! Each cabinet and each sink as a caller uses it, through `read_whole` and `write_whole` too.

use super::{
    Cabinet, FileCabinet, MemoryCabinet, MemorySink, PortFault, Sink, StdSink, SteadyCabinet,
    SteadySink, read_whole, write_whole,
};
use std::alloc::{AllocFailed, Global};
use std::fs;
use std::test::Fail;

/// Two files, of which the second name comes twice.
fn two_files(alloc: Global) -> Result<Vec<(String, Vec<u8>)>, PortFault> {
    let mut files = Vec::new(alloc);
    files.push((String::from_str(alloc, "empty.js")?, Vec::new(alloc)))?;
    files.push((
        String::from_str(alloc, "a.js")?,
        Vec::from_slice(alloc, b"abc")?,
    ))?;
    files.push((
        String::from_str(alloc, "a.js")?,
        Vec::from_slice(alloc, b"second")?,
    ))?;
    Ok(files)
}

#[test]
fn a_memory_cabinet_gives_its_files(rt: HostRuntime) -> Result<(), Fail> {
    let mut files = MemoryCabinet::new(two_files(rt.alloc())?, Vec::new(rt.alloc()));
    let mut buffer = [0u8; 2];
    assert_eq!(rt;
        files.read_some(&mut buffer),
        Ok(0),
        "nothing is open at first"
    );
    assert_eq!(rt; files.open_file("a.js"), Ok(()));
    assert_eq!(rt; files.read_some(&mut buffer), Ok(2));
    assert_eq!(rt; buffer, [97, 98]);
    assert_eq!(rt;
        files.open_file("b.js"),
        Err(PortFault::Failed),
        "no file has the name"
    );
    assert_eq!(rt;
        files.read_some(&mut buffer),
        Ok(1),
        "the refused name leaves the open file"
    );
    assert_eq!(rt; buffer, [99, 98]);
    assert_eq!(rt; files.read_some(&mut buffer), Ok(0));
    let part = read_whole(rt.alloc(), &mut files, "a.js", 2)?;
    assert_eq!(rt; part.as_slice(), b"ab".as_slice());
    let whole = read_whole(rt.alloc(), &mut files, "a.js", 4)?;
    assert_eq!(rt; whole.as_slice(), b"abc".as_slice());
    let none = read_whole(rt.alloc(), &mut files, "empty.js", 4)?;
    assert!(rt; none.is_empty());
    Ok(())
}

#[test]
fn listed_reads_fail(rt: HostRuntime) -> Result<(), Fail> {
    for failing in 1..5u64 {
        let listed = Vec::from_slice(rt.alloc(), &[failing])?;
        let mut files = MemoryCabinet::new(two_files(rt.alloc())?, listed);
        let read = read_whole(rt.alloc(), &mut files, "a.js", 9);
        if failing < 4 {
            assert_eq!(rt; read.err(), Some(PortFault::Failed), "at call {failing}");
        } else {
            assert_eq!(rt; read?.as_slice(), b"abc".as_slice());
        }
    }
    Ok(())
}

#[test]
fn a_long_file_takes_few_reads(rt: HostRuntime) -> Result<(), Fail> {
    for failing in [18u64, 19] {
        let mut files = Vec::new(rt.alloc());
        let long = vec![in rt.alloc(); 97u8; 1_048_576]?;
        files.push((String::from_str(rt.alloc(), "long.js")?, long))?;
        let listed = Vec::from_slice(rt.alloc(), &[failing])?;
        let mut cabinet = MemoryCabinet::new(files, listed);
        let read = read_whole(rt.alloc(), &mut cabinet, "long.js", 1_048_577);
        if failing == 18 {
            assert_eq!(rt;
                read.err(),
                Some(PortFault::Failed),
                "the eighteenth call finds the end"
            );
        } else {
            assert_eq!(rt; read?.len(), 1_048_576);
        }
    }
    Ok(())
}

#[test]
fn listed_writes_fail(rt: HostRuntime) -> Result<(), Fail> {
    let mut second = MemorySink::new(rt.alloc(), Vec::from_slice(rt.alloc(), &[2])?, 1);
    assert_eq!(rt; write_whole(&mut second, b"ab"), Err(PortFault::Failed));
    assert_eq!(rt; second.written(), b"a".as_slice());
    assert_eq!(rt; write_whole(&mut second, b"bc"), Ok(()));
    assert_eq!(rt; second.written(), b"abc".as_slice());
    assert_eq!(rt; second.write_some(b"de"), Ok(1));
    let mut closed = MemorySink::new(rt.alloc(), Vec::new(rt.alloc()), 0);
    assert_eq!(rt; closed.write_some(b""), Ok(0));
    assert_eq!(rt; closed.write_some(b"a"), Err(PortFault::Failed));
    assert_eq!(rt; write_whole(&mut closed, b"a"), Err(PortFault::Failed));
    assert!(rt; closed.written().is_empty());
    Ok(())
}

#[test]
fn steady_ports_do_not_fail(rt: HostRuntime) -> Result<(), Fail> {
    let mut files = SteadyCabinet::new(two_files(rt.alloc())?);
    let whole = read_whole(rt.alloc(), &mut files, "a.js", 9)?;
    assert_eq!(rt; whole.as_slice(), b"abc".as_slice());
    let none = read_whole(rt.alloc(), &mut files, "b.js", 9)?;
    assert!(rt; none.is_empty());
    let mut buffer = [0u8; 2];
    assert_eq!(rt; files.open_file("a.js"), Ok(()));
    assert_eq!(rt; files.read_some(&mut buffer), Ok(2));
    let mut sink = SteadySink::new(rt.alloc());
    assert_eq!(rt; write_whole(&mut sink, b"ab"), Ok(()));
    assert_eq!(rt; sink.write_some(b"c"), Ok(1));
    assert_eq!(rt; sink.written(), b"abc".as_slice());
    Ok(())
}

#[test]
fn files_of_the_system(rt: HostRuntime) -> Result<(), Fail> {
    let mut sink = StdSink::new(fs::create(&rt, "written.js")?);
    assert_eq!(rt; sink.write_some(b""), Ok(0));
    assert_eq!(rt; write_whole(&mut sink, b"print(1);\n"), Ok(()));
    let mut files = FileCabinet::new(rt.alloc(), &rt);
    let mut buffer = [0u8; 2];
    assert_eq!(rt;
        files.read_some(&mut buffer),
        Ok(0),
        "nothing is open at first"
    );
    assert_eq!(rt; files.open_file("missing.js"), Err(PortFault::Failed));
    let whole = read_whole(rt.alloc(), &mut files, "written.js", 100)?;
    assert_eq!(rt; whole.as_slice(), b"print(1);\n".as_slice());
    let part = read_whole(rt.alloc(), &mut files, "written.js", 5)?;
    assert_eq!(rt; part.as_slice(), b"print".as_slice());
    fs::remove_file(&rt, "written.js")?;
    Ok(())
}
