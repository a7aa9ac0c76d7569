//! Results on fractions beside values that were computed elsewhere.
use fractions::{Ratio, Wide, read_ratio};
use plan_base::NoMemory;
use std::alloc::Global;
use std::cmp::Ordering;
use std::test::Fail;

// Each line has a call, two fractions, and what Python's fractions give.
const RESULTS: &str = "\
add 1/3 -1/6 1/6\n\
add 1/999999999999999989 1/999999999999999967 1999999999999999956/999999999999999956000000000000000363\n\
add -7/2 7/2 0\n\
add 5/6 1/10 14/15\n\
sub 1/3 1/3 0\n\
sub 0 7/9 -7/9\n\
sub 1/1000000007 -3/1000000009 4000000030/1000000016000000063\n\
mul -2/3 3/4 -1/2\n\
mul 999999999999999999/2 2/333333333333333333 3\n\
mul 0 -5/7 0\n\
mul 999999999999999989/1 999999999999999967/7 999999999999999956000000000000000363/7\n\
div 1/3 -2/9 -3/2\n\
div -5 1/999999999999999999 -4999999999999999995\n\
div 0 3 0\n\
cmp 1/3 1/2 -1\n\
cmp -1/2 -1/3 -1\n\
cmp 2/4 1/2 0\n\
cmp -1 0 -1\n\
cmp 999999999999999998/999999999999999999 999999999999999997/999999999999999998 1\n\
cmp -1/999999999999999999 -1/999999999999999998 1\n\
cmp 5 4/999999999999999999 1";

// Hidden from the proofs, which need not know the lines.
fn results() -> &'static str {
    RESULTS
}

fn fraction(text: &str) -> Ratio {
    read_ratio(text.as_bytes()).unwrap_or(Ratio::zero())
}

fn shows(alloc: Global, value: &Ratio, wanted: &str) -> Result<bool, NoMemory> {
    let text = value.print(alloc)?;
    Ok(text.as_str() == wanted)
}

fn result_of(call: &str, first: &Ratio, second: &Ratio) -> Option<Ratio> {
    match call {
        "add" => first.add(second).ok(),
        "sub" => first.sub(second).ok(),
        "mul" => first.mul(second).ok(),
        _ => if second.is_zero() {
            None
        } else {
            first.div(second).ok()
        },
    }
}

fn order_of(first: &Ratio, second: &Ratio) -> &'static str {
    match first.cmp(second) {
        Ordering::Less => "-1",
        Ordering::Equal => "0",
        Ordering::Greater => "1",
    }
}

// Whether the traits of comparison say the same as the call.
fn agree(first: &Ratio, second: &Ratio, order: &str) -> bool {
    (*first == *second) == (order == "0")
        && (*first < *second) == (order == "-1")
        && (*first > *second) == (order == "1")
}

fn is_order(first: &Ratio, second: &Ratio, wanted: &str) -> bool {
    order_of(first, second) == wanted && agree(first, second, wanted)
}

fn gives(
    alloc: Global,
    call: &str,
    first: &Ratio,
    second: &Ratio,
    wanted: &str,
) -> Result<bool, NoMemory> {
    if call == "cmp" {
        return Ok(is_order(first, second, wanted));
    }
    match result_of(call, first, second) {
        Some(result) => shows(alloc, &result, wanted),
        None => Ok(wanted == "wide"),
    }
}

fn is_so(alloc: Global, line: &str) -> Result<bool, NoMemory> {
    let Some((call, rest)) = line.split_once(' ') else {
        return Ok(false);
    };
    let Some((first, rest)) = rest.split_once(' ') else {
        return Ok(false);
    };
    let Some((second, wanted)) = rest.split_once(' ') else {
        return Ok(false);
    };
    gives(alloc, call, &fraction(first), &fraction(second), wanted)
}

#[test]
fn results_are_exact(rt: HostRuntime) -> Result<(), Fail> {
    for line in results().lines() {
        if !is_so(rt.alloc(), line)? {
            panic!(rt; "{line}");
        }
    }
    Ok(())
}

fn large() -> Ratio {
    fraction("999999999999999999/1")
}

fn is_wide_cube() -> bool {
    match large().mul(&large()) {
        Ok(square) => square.mul(&large()) == Err(Wide),
        Err(Wide) => false,
    }
}

fn is_wide_update() -> bool {
    Ratio::sub_mul(&large(), &large(), &Ratio::one()) == Ok(Ratio::zero())
}

#[test]
fn wide_and_whole(rt: HostRuntime) -> Result<(), Fail> {
    assert!(rt; is_wide_cube());
    assert!(rt; is_wide_update());
    assert!(rt; Ratio::part(-7, 2).ceil() == Ratio::whole(-3));
    assert!(rt; Ratio::part(7, 2).ceil() == Ratio::whole(4));
    assert!(rt; Ratio::part(-2, 12).is_neg());
    assert!(rt; !Ratio::part(-2, 12).is_positive());
    assert!(rt; !Ratio::zero().is_positive());
    assert!(rt; Ratio::part(1, 12).is_positive());
    Ok(())
}
