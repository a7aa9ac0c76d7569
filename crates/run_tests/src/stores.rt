ghost use Rattle.std.specs.Prelude.{◌≡◌, ◌<◌};

use plan_base::{NoMemory, Text};
use plan_io::{Failed, MemSink, MemStore, Sink, Store};
use std::alloc::Global;
use std::process::Abort;
use std::test::Fail;

const LETTERS: &[u8] = b"abcdefghij";

// One file, of ten letters.
fn letters(alloc: Global) -> Result<Vec<(Text, Vec<u8>)>, NoMemory> {
    let mut files = Vec::new(alloc);
    files.push((Text::copy(alloc, "letters")?, LETTERS.to_vec(alloc)?))?;
    Ok(files)
}

// Begins the file and reads up to one byte, and then three times up to sixteen; what each read answered, 99 where
// it failed.
fn reads<S: Store>(store: &mut S) -> [usize; 4]
    requires { (S.begun store.old).calls ≡ 0 }
{
    let Ok(slot) = store.begin("letters") else {
        return [99; 4];
    };
    let mut small = [0; 1];
    let first = store.read(slot, &mut small).unwrap_or(99);
    let mut large = [0; 16];
    let second = store.read(slot, &mut large).unwrap_or(99);
    let third = store.read(slot, &mut large).unwrap_or(99);
    let fourth = store.read(slot, &mut large).unwrap_or(99);
    [first, second, third, fourth]
}

#[test]
fn a_store_reads_its_file(rt: HostRuntime) -> Result<(), Fail> {
    let alloc = rt.alloc();
    let mut store = MemStore::make(alloc, letters(alloc)?, Vec::new(alloc))?;
    assert_eq!(rt; reads(&mut store), [1, 9, 0, 0]);
    Ok(())
}

#[test]
fn the_bytes_are_those_of_the_file(rt: HostRuntime) -> Result<(), Fail> {
    let alloc = rt.alloc();
    let mut store = MemStore::make(alloc, letters(alloc)?, Vec::new(alloc))?;
    let Ok(slot) = store.begin("letters") else {
        assert!(rt; false);
        return Ok(());
    };
    let mut buffer = [0; 10];
    assert_eq!(rt; store.read(slot, &mut buffer), Ok(10));
    assert_eq!(rt; buffer.as_slice(), LETTERS);
    Ok(())
}

#[test]
fn a_name_without_a_file_is_not_begun(rt: HostRuntime) -> Result<(), Fail> {
    let alloc = rt.alloc();
    let mut store = MemStore::make(alloc, letters(alloc)?, Vec::new(alloc))?;
    assert_eq!(rt; store.begin("digits"), Err(Failed));
    Ok(())
}

// `begin` is call 1, so the reads are calls 2 to 5.
#[test]
fn the_listed_call_alone_fails(rt: HostRuntime) -> Result<(), Fail> {
    let alloc = rt.alloc();
    for (call, answers) in [
        (1, [99, 99, 99, 99]),
        (2, [99, 10, 0, 0]),
        (3, [1, 99, 9, 0]),
        (4, [1, 9, 99, 0]),
        (6, [1, 9, 0, 0]),
    ] {
        let mut store = MemStore::make(alloc, letters(alloc)?, vec![in alloc; call]?)?;
        assert_eq!(rt; reads(&mut store), answers, "call {call}");
    }
    Ok(())
}

#[test]
fn a_slow_store_reads_so_many_bytes(rt: HostRuntime) -> Result<(), Fail> {
    let alloc = rt.alloc();
    for (most, answers) in [(1, [1, 1, 1, 1]), (2, [1, 2, 2, 2]), (7, [1, 7, 2, 0])] {
        let mut store = MemStore::make_slow(alloc, letters(alloc)?, Vec::new(alloc), most)?;
        assert_eq!(rt; reads(&mut store), answers, "at most {most}");
    }
    Ok(())
}

// Puts three pieces; what each put answered, 99 where it failed.
fn puts<K: Sink>(out: &mut K) -> [usize; 3] {
    let first = out.put(b"abcdefgh").unwrap_or(99);
    let second = out.put(b"ij").unwrap_or(99);
    let third = out.put(b"k").unwrap_or(99);
    [first, second, third]
}

// The room, the call that fails, what the puts answer and what is written.
#[test]
fn a_sink_fails_where_it_is_full_and_at_the_listed_call(rt: HostRuntime) -> Result<(), Fail> {
    let alloc = rt.alloc();
    for (room, call, answers, written) in [
        (20, 0, [8, 2, 1], "abcdefghijk"),
        (9, 0, [8, 1, 99], "abcdefghi"),
        (5, 0, [5, 99, 99], "abcde"),
        (20, 1, [99, 2, 1], "ijk"),
        (20, 2, [8, 99, 1], "abcdefghk"),
    ] {
        let mut out = MemSink::make(alloc, room, vec![in alloc; call]?)?;
        assert_eq!(rt; puts(&mut out), answers, "room {room}, call {call}");
        assert_eq!(rt; out.written(), written.as_bytes());
    }
    Ok(())
}

#[test]
fn a_slow_sink_takes_so_many_bytes(rt: HostRuntime) -> Result<(), Fail> {
    let alloc = rt.alloc();
    for (most, answers, written) in [
        (1, [1, 1, 1], "aik"),
        (2, [2, 2, 1], "abijk"),
        (7, [7, 2, 1], "abcdefgijk"),
    ] {
        let mut out = MemSink::make_slow(alloc, 20, Vec::new(alloc), most)?;
        assert_eq!(rt; puts(&mut out), answers, "at most {most}");
        assert_eq!(rt; out.written(), written.as_bytes());
    }
    Ok(())
}
