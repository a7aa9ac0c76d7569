//! Files and a sink in memory.
use plan_base::{NoMemory, Text};
use plan_io::{Failed, MemSink, MemStore, Sink, Store};
use std::alloc::Global;
use std::test::Fail;

fn files(alloc: Global) -> Result<Vec<(Text, Vec<u8>)>, NoMemory> {
    let name = Text::copy(alloc, "a")?;
    let bytes = Vec::from_slice(alloc, b"hello")?;
    let mut files = Vec::new(alloc);
    files.push((name, bytes))?;
    Ok(files)
}

// The second call fails, and the third reads what the second didn't.
fn second_call_fails(alloc: Global) -> Result<bool, NoMemory> {
    let fails = Vec::from_slice(alloc, &[2])?;
    let mut store = MemStore::make(alloc, files(alloc)?, fails)?;
    let Ok(slot) = store.begin("a") else {
        return Ok(false);
    };
    let mut buffer = [0; 8];
    let second = store.read(slot, &mut buffer);
    let third = store.read(slot, &mut buffer);
    Ok(second == Err(Failed) && third == Ok(5) && &buffer[..5] == b"hello".as_slice())
}

// A sink with room for three bytes, whose second call fails.
fn second_put_fails(alloc: Global) -> Result<bool, NoMemory> {
    let fails = Vec::from_slice(alloc, &[2])?;
    let mut sink = MemSink::make(alloc, 3, fails)?;
    let first = sink.put(b"ab");
    let second = sink.put(b"cd");
    let third = sink.put(b"cd");
    let fourth = sink.put(b"d");
    Ok(
        first == Ok(2)
            && second == Err(Failed)
            && third == Ok(1)
            && fourth == Err(Failed)
            && sink.written() == b"abc".as_slice(),
    )
}

#[test]
fn listed_calls_fail(rt: HostRuntime) -> Result<(), Fail> {
    assert!(rt; second_call_fails(rt.alloc())?);
    assert!(rt; second_put_fails(rt.alloc())?);
    Ok(())
}
