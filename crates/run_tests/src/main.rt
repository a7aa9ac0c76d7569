//! Tests of stores and sinks, of samples, and of whole runs over files in memory, also over slow ones, and where each of their calls fails once.
//! The program copies a file to the standard output, by pieces of 16 bytes.
#![tactic(auto)]

ghost use Rattle.std.specs.Prelude.{◌≡◌, ◌<◌, IsTrue};

use plan_io::{Failed, HostSink, HostStore, Sink, Store};
use std::process::ExitCode;

#[cfg(test)]
mod endings;
#[cfg(test)]
mod kept_answers;
#[cfg(test)]
mod memory;
#[cfg(test)]
mod pieces;
#[cfg(test)]
mod run_words;
#[cfg(test)]
mod runs;
#[cfg(test)]
mod sample_runs;
#[cfg(test)]
mod samples;
#[cfg(test)]
mod slow_runs;
#[cfg(test)]
mod stores;
#[cfg(test)]
mod texts;
#[cfg(test)]
mod trials;

// Copies the next piece of a file. Answers whether there was one.
fn copy_piece<S: Store, K: Sink>(store: &mut S, slot: u32, out: &mut K) -> Result<bool, Failed>
    requires { slot < (S.begun store.old).slots }
    ensures { S.begun store.new ≡ S.begun store.old }
{
    let mut buffer = [0; 16];
    match store.read(slot, &mut buffer) {
        Ok(0) => Ok(false),
        Ok(count) => match out.put(&buffer[..count]) {
            Ok(taken) => Ok(taken == count),
            Err(fault) => Err(fault),
        },
        Err(fault) => Err(fault),
    }
}

// The file has two pieces: the third read is the end, and what isn't there can't be begun.
fn copies_file<S: Store, K: Sink>(store: &mut S, out: &mut K) -> bool
    requires { (S.begun store.old).calls ≡ 0 }
{
    let Ok(slot) = store.begin("text.txt") else {
        return false;
    };
    copy_piece(store, slot, out) == Ok(true)
        && copy_piece(store, slot, out) == Ok(true)
        && copy_piece(store, slot, out) == Ok(false)
        && store.begin("no-such-file") == Err(Failed)
}

fn main(rt: HostRuntime) -> ExitCode {
    let mut store = HostStore::make(rt.alloc(), &rt);
    let mut out = HostSink::make(&rt);
    ExitCode::from(u8::from(!copies_file(&mut store, &mut out)))
}
