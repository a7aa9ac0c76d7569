//! Files and a sink in memory, whose calls may be slow and may fail.
ghost use Rattle.std.specs.Prelude.{◌≡◌, IfOk, IfSome};

use plan_base::{NoMemory, Text};
use plan_io::{MemSink, MemStore, Store};
use std::alloc::Global;

/// How the calls go.
#[derive(Clone, Copy)]
pub struct Calls {
    /// The most bytes that a call takes, and 0 for no bound.
    pub most: u32,
    /// The number of the store's call that fails, and 0 for none.
    pub failing_read: u32,
    /// The number of the sink's call that fails, and 0 for none.
    pub failing_put: u32,
}

impl Calls {
    /// Quick calls, of which one of the store and one of the sink fail, by their numbers; 0 for none.
    pub fn failing(failing_read: u32, failing_put: u32) -> Calls {
        Calls {
            most: 0,
            failing_read,
            failing_put,
        }
    }
}

/// The words of a run over the files `d` and `s`.
pub const WORDS: [&str; 4] = ["p", "run", "d", "s"];

/// Words as texts.
pub fn texts_in(alloc: Global, words: &[&str]) -> Result<Vec<Text>, NoMemory> {
    let mut texts = Vec::new(alloc);
    for word in words {
        let text = Text::copy(alloc, word)?;
        texts.push(text)?;
    }
    Ok(texts)
}

fn file(alloc: Global, name: &str, bytes: &[u8]) -> Result<(Text, Vec<u8>), NoMemory> {
    let name = Text::copy(alloc, name)?;
    let bytes = bytes.to_vec(alloc)?;
    Ok((name, bytes))
}

fn files_in(alloc: Global, files: &[(&str, &[u8])]) -> Result<Vec<(Text, Vec<u8>)>, NoMemory> {
    let mut copies = Vec::new(alloc);
    for (name, bytes) in files {
        let copy = file(alloc, name, bytes)?;
        copies.push(copy)?;
    }
    Ok(copies)
}

fn make_store(
    alloc: Global,
    files: Vec<(Text, Vec<u8>)>,
    fails: Vec<u32>,
    most: u32,
) -> Result<MemStore, NoMemory>
    ensures { IfOk result (λ store. (⟦<MemStore as Store>⟧.begun store).calls ≡ 0) }
{
    if most == 0 {
        MemStore::make(alloc, files, fails)
    } else {
        MemStore::make_slow(alloc, files, fails, most)
    }
}

/// A store of these files.
pub fn store_of(alloc: Global, files: &[(&str, &[u8])], calls: Calls) -> Option<MemStore>
    ensures { IfSome result (λ store. (⟦<MemStore as Store>⟧.begun store).calls ≡ 0) }
{
    let Ok(files) = files_in(alloc, files) else {
        return None;
    };
    let Ok(fails) = vec![in alloc; calls.failing_read] else {
        return None;
    };
    match make_store(alloc, files, fails, calls.most) {
        Ok(store) => Some(store),
        Err(_) => None,
    }
}

fn make_sink(alloc: Global, fails: Vec<u32>, most: u32) -> Result<MemSink, NoMemory> {
    if most == 0 {
        MemSink::make(alloc, 4000, fails)
    } else {
        MemSink::make_slow(alloc, 4000, fails, most)
    }
}

/// A sink with room for any report of these tests.
pub fn sink_of(alloc: Global, calls: Calls) -> Option<MemSink> {
    let Ok(fails) = vec![in alloc; calls.failing_put] else {
        return None;
    };
    match make_sink(alloc, fails, calls.most) {
        Ok(sink) => Some(sink),
        Err(_) => None,
    }
}
