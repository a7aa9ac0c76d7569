ghost use Rattle.std.specs.Prelude.{◌<◌, ◌≤◌};

use plan_base::NoMemory;
use sample_maker::make_sample;
use std::alloc::Global;
use std::process::Abort;
use std::test::Fail;

// The texts were made by the reference in Python, which shares no code with the crate.

// A sum of a text's bytes that tells their order too.
fn sum_of(text: &str) -> u32 {
    let mut sum: u32 = 0;
    for byte in text.as_bytes() {
        sum = sum.wrapping_mul(31).wrapping_add(u32::from(*byte));
    }
    sum
}

// How long the texts of a sample are, and their sums.
fn measures(alloc: Global, number: u32, size: u32) -> Result<[u64; 4], NoMemory>
    requires some { 0 < size }
    requires few { size ≤ 20000 }
{
    let sample = make_sample(alloc, number, size)?;
    let dump = sample.dump.as_str();
    let script = sample.script.as_str();
    Ok([
        dump.len() as u64,
        u64::from(sum_of(dump)),
        script.len() as u64,
        u64::from(sum_of(script)),
    ])
}

const DUMP_OF_ONE: &str =
    r#"{"character":{"character":{"crafting_categories":["crafting"]}},"assembling-machine":{"m0":{"crafting_speed":1,"crafting_categories":["crafting"],"energy_usage":"1kW","energy_source":{"type":"void"}}},"item":{"i0":{"place_result":"m0"},"i1":{}},"recipe":{"r1":{"ingredients":[["i0",1]],"result":"i1"},"b1":{"ingredients":[["i1",1]],"result":"i0"}}}"#;

#[test]
fn dump_of_one(rt: HostRuntime) -> Result<(), Fail> {
    let sample = make_sample(rt.alloc(), 7, 1)?;
    assert_eq!(rt; sample.dump.as_str(), DUMP_OF_ONE);
    Ok(())
}

const DUMP_OF_TWO: &str =
    r#"{"character":{"character":{"crafting_categories":["crafting"]}},"assembling-machine":{"m0":{"crafting_speed":1,"crafting_categories":["crafting"],"energy_usage":"1kW","energy_source":{"type":"void"}}},"item":{"i0":{"place_result":"m0"},"i1":{},"i2":{}},"recipe":{"r1":{"ingredients":[["i0",1]],"result":"i1"},"b1":{"ingredients":[["i1",1]],"result":"i0"},"r2":{"ingredients":[["i0",1],["i1",1]],"result":"i2"},"b2":{"ingredients":[["i2",1]],"result":"i1"}}}"#;

#[test]
fn dump_of_two(rt: HostRuntime) -> Result<(), Fail> {
    let sample = make_sample(rt.alloc(), 7, 2)?;
    assert_eq!(rt; sample.dump.as_str(), DUMP_OF_TWO);
    Ok(())
}

const DUMP_OF_FIVE: &str =
    r#"{"character":{"character":{"crafting_categories":["crafting"]}},"assembling-machine":{"m0":{"crafting_speed":1,"crafting_categories":["crafting"],"energy_usage":"1kW","energy_source":{"type":"void"}}},"item":{"i0":{"place_result":"m0"},"i1":{},"i2":{},"i3":{},"i4":{},"i5":{}},"recipe":{"r1":{"ingredients":[["i0",1]],"result":"i1"},"b1":{"ingredients":[["i1",1]],"result":"i0"},"r2":{"ingredients":[["i1",1],["i0",1]],"result":"i2"},"b2":{"ingredients":[["i2",1]],"result":"i1"},"r3":{"ingredients":[["i1",1]],"result":"i3"},"b3":{"ingredients":[["i3",1]],"result":"i2"},"r4":{"ingredients":[["i2",1],["i1",1]],"result":"i4"},"b4":{"ingredients":[["i4",1]],"result":"i0"},"r5":{"ingredients":[["i4",1],["i3",1]],"result":"i5"},"b5":{"ingredients":[["i5",1]],"result":"i2"}}}"#;

#[test]
fn dump_of_five(rt: HostRuntime) -> Result<(), Fail> {
    let sample = make_sample(rt.alloc(), 0, 5)?;
    assert_eq!(rt; sample.dump.as_str(), DUMP_OF_FIVE);
    Ok(())
}

const SCRIPT_OF_TWO: &str = "\
quiet on
grant item:i0
milestone item:i1
milestone item:i2
forbid item:i1
undo
forbid item:i1
undo
forbid item:i2
undo
forbid item:i2
undo
forbid item:i2
undo
forbid item:i2
undo
forbid item:i1
undo
forbid item:i1
summary
undo
forbid item:i2
undo
forbid item:i1
undo
forbid item:i2
undo
forbid item:i1
undo
forbid item:i1
undo
forbid item:i1
undo
forbid item:i1
undo
forbid item:i2
summary
undo
forbid item:i2
undo
forbid item:i1
undo
forbid item:i2
undo
forbid item:i1
undo
forbid item:i2
undo
forbid item:i2
undo
forbid item:i1
undo
forbid item:i1
summary
undo
forbid item:i2
undo
forbid item:i1
undo
forbid item:i1
undo
forbid item:i1
undo
forbid item:i1
undo
forbid item:i2
undo
forbid item:i2
undo
forbid item:i1
summary
undo
forbid item:i1
undo
forbid item:i1
undo
forbid item:i2
undo
forbid item:i1
undo
forbid item:i1
undo
forbid item:i2
undo
forbid item:i1
undo
forbid item:i1
summary
undo
forbid item:i1
undo
forbid item:i1
undo
forbid item:i1
undo
forbid item:i2
undo
forbid item:i2
undo
forbid item:i2
undo
forbid item:i2
undo
forbid item:i2
summary
undo
forbid item:i2
undo
forbid item:i1
undo
forbid item:i1
undo
forbid item:i2
undo
forbid item:i1
undo
forbid item:i1
undo
forbid item:i2
undo
forbid item:i1
summary
undo
forbid item:i2
undo
forbid item:i1
undo
forbid item:i1
undo
forbid item:i2
undo
forbid item:i1
undo
forbid item:i1
undo
forbid item:i1
undo
forbid item:i2
summary
undo
table t
row t r1 recipe:r1 by machine:m0
row t r2 recipe:r2 by machine:m0
want t item:i2 1
import t item:i0 1
solve t
summary
";

#[test]
fn script_of_two(rt: HostRuntime) -> Result<(), Fail> {
    let sample = make_sample(rt.alloc(), 7, 2)?;
    assert_eq!(rt; sample.script.as_str(), SCRIPT_OF_TWO);
    Ok(())
}

#[test]
fn measures_of_five(rt: HostRuntime) -> Result<(), Fail> {
    let measures = measures(rt.alloc(), 0, 5)?;
    assert!(rt; measures == [775, 2160167507, 1682, 924325964]);
    Ok(())
}

#[test]
fn measures_of_many(rt: HostRuntime) -> Result<(), Fail> {
    let measures = measures(rt.alloc(), 4294967295, 23)?;
    assert!(rt; measures == [2815, 253685341, 2299, 2095859383]);
    Ok(())
}

#[test]
fn measures_of_the_most(rt: HostRuntime) -> Result<(), Fail> {
    let measures = measures(rt.alloc(), 12, 20000)?;
    assert!(rt; measures == [2697885, 2860652851, 2495, 2462955474]);
    Ok(())
}
