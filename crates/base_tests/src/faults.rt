//! Texts beside what a slow reader in another language says of them.
use crate::made::{bytes, digits, wanted};
use json_text::{JsonCode, JsonFault, SpanTree, read_spans, skip_value};
use plan_base::NoMemory;
use std::alloc::Global;
use std::test::Fail;

// Each line has `ok` or the kind of the fault, its place, and the text: `N` is no JSON, `R` a repeated key, `U` no UTF-8.
// In a text `%` and two digits stand for a byte.
const TEXTS: &str = "\
N 0 \n\
N 1 %20\n\
ok 0 1\n\
N 1 -\n\
ok 0 -0\n\
N 1 01\n\
N 2 -01\n\
N 2 1.\n\
ok 0 1.5e+3\n\
N 2 1e\n\
N 3 1e+\n\
N 2 1.x\n\
N 2 12x\n\
N 2 0.\n\
N 0 .5\n\
N 0 +1\n\
N 2 1%201\n\
ok 0 true\n\
N 3 tru\n\
N 3 truth\n\
ok 0 null\n\
N 3 nul\n\
ok 0 nan\n\
ok 0 -nan\n\
ok 0 inf\n\
ok 0 -inf\n\
N 3 -in\n\
N 2 -i\n\
N 1 -x\n\
N 1 nx\n\
N 3 infinity\n\
ok 0 []\n\
N 3 [1,]\n\
N 1 [,1]\n\
N 3 [1%202]\n\
N 2 [1\n\
N 1 [\n\
N 0 ]\n\
ok 0 {}\n\
N 1 {\n\
N 1 {1:2}\n\
N 4 {\"a\"}\n\
N 5 {\"a\"%201}\n\
N 5 {\"a\":}\n\
N 7 {\"a\":1,}\n\
N 6 {\"a\":1\n\
N 7 {\"a\":1%20\"b\":2}\n\
ok 0 {\"a\":[1,{\"b\":null}]}\n\
R 16 {\"item\":{},\"item\":{}}\n\
R 14 {\"a\":1,\"\\u0061\":2}\n\
ok 0 {\"b\":{\"x\":1,\"x\":2}}\n\
R 22 {\"item\":{\"x\":{\"q\":1,\"q\":2}}}\n\
R 17 [{\"zzz\":{\"q\":1,\"q\":2}}]\n\
ok 0 {\"item\":[{\"zz\":{\"q\":1,\"q\":1}}]}\n\
R 9 {\"a\":1,\"a\"%20x\n\
N 2 \"a\n\
ok 0 \"\\n\\u00e9\\ud83d\\ude00\"\n\
N 2 \"\\x\"\n\
N 5 \"\\u12g4\"\n\
N 7 \"\\ud800\"\n\
N 7 \"\\ud800x\"\n\
N 8 \"\\ud800\\n\"\n\
N 9 \"\\ud800\\u0041\"\n\
N 4 \"\\udc00\"\n\
N 9 \"\\ud800\\ue000\"\n\
N 2 \"\\\n\
N 1 \"%01\"\n\
ok 0 \"%7f\"\n\
U 1 \"%ff\"\n\
ok 0 \"%c3%a9\"\n\
U 2 \"%c3\"\n\
U 1 \"%c0%80\"\n\
U 2 \"%e0%9f%80\"\n\
ok 0 \"%e0%a0%80\"\n\
U 2 \"%ed%a0%80\"\n\
U 2 \"%f0%8f%80%80\"\n\
ok 0 \"%f0%90%80%80\"\n\
U 2 \"%f4%90%80%80\"\n\
U 1 \"%f5\"\n\
U 2 \"\\%ff\"\n\
N 2 \"\\%c3\"\n\
U 5 \"\\u00%ff\"\n\
U 7 \"\\ud800%ff\"\n\
U 6 {\"a\":\"%ff\n\
N 8 {\"\\ud800x\":1}\n\
N 0 %ef%bb%bf1\n\
N 0 %ff\n\
ok 0 1%20%0d%0a%09\n\
ok 0 {\"a\":{\"b\":{\"c\":1,\"c\":2}}}\n\
R 27 {\"item\":{\"a\":{\"f\":{\"k\":1,\"k\":2}}}}\n\
N 13 {\"item\":{\"a\":\n\
N 17 {\"item\":{\"a\":{}}}x";

// Each line has a place, how many containers are open, then `E` and the place behind the value, or the kind of the fault
// and its place, and the text. `D` is a container too deep.
const VALUES: &str = "\
0 0 E 2 12\n\
0 0 E 2 12x\n\
0 0 N 2 1.x\n\
0 0 E 14 [1,{\"a\":\"\\n\"}]]\n\
1 200 E 5 %20true%20\n\
0 0 N 0 %20true%20\n\
0 0 N 0 \n\
0 0 N 2 [1\n\
0 199 D 1 [[]]\n\
0 200 D 0 {}\n\
0 0 U 1 \"%ff\"\n\
0 0 N 0 %ff\n\
0 0 E 13 {\"a\":1,\"a\":2}\n\
0 0 N 1 -x\n\
0 0 E 4 null\"";

// Hidden from the proofs, which need not know the lines.
fn texts() -> &'static str {
    TEXTS
}

fn values() -> &'static str {
    VALUES
}

fn letter(code: JsonCode) -> &'static str {
    match code {
        JsonCode::NotUtf8 => "U",
        JsonCode::TooDeep => "D",
        JsonCode::Repeated => "R",
        JsonCode::TooMany => "M",
        JsonCode::NotJson => "N",
        JsonCode::NoMemory => "no memory",
    }
}

fn is_fault(fault: &JsonFault, kind: &str, place: &str) -> bool {
    letter(fault.code) == kind && fault.at == digits(place)
}

fn reads(read: &Result<SpanTree, JsonFault>, kind: &str, place: &str) -> bool {
    match read {
        Ok(_) => kind == "ok",
        Err(fault) => is_fault(fault, kind, place),
    }
}

// Whether the text is read as the line says.
fn is_read_so(alloc: Global, kind: &str, place: &str, text: &str) -> Result<bool, NoMemory> {
    let wanted = wanted(alloc)?;
    let text = bytes(alloc, text)?;
    let read = read_spans(alloc, &text, &wanted);
    Ok(reads(&read, kind, place))
}

fn is_text_so(alloc: Global, line: &str) -> Result<bool, NoMemory> {
    let Some((kind, rest)) = line.split_once(' ') else {
        return Ok(false);
    };
    let Some((place, text)) = rest.split_once(' ') else {
        return Ok(false);
    };
    is_read_so(alloc, kind, place, text)
}

#[test]
fn texts_are_read_as_another_reader_reads_them(rt: HostRuntime) -> Result<(), Fail> {
    for line in texts().lines() {
        if !is_text_so(rt.alloc(), line)? {
            panic!(rt; "{line}");
        }
    }
    Ok(())
}

fn skips(text: &[u8], at: usize, depth: usize, kind: &str, place: &str) -> bool {
    if at > text.len() || depth > 200 {
        return false;
    }
    match skip_value(text, at, depth as u32) {
        Ok(end) => kind == "E" && end == digits(place),
        Err(fault) => is_fault(&fault, kind, place),
    }
}

// Whether the value is skipped as the line says: the place, the depth, and then as above.
fn is_value_so(alloc: Global, line: &str) -> Result<bool, NoMemory> {
    let Some((at, rest)) = line.split_once(' ') else {
        return Ok(false);
    };
    let Some((depth, rest)) = rest.split_once(' ') else {
        return Ok(false);
    };
    is_skipped_so(alloc, digits(at), digits(depth), rest)
}

fn is_skipped_so(alloc: Global, at: usize, depth: usize, rest: &str) -> Result<bool, NoMemory> {
    let Some((kind, rest)) = rest.split_once(' ') else {
        return Ok(false);
    };
    let Some((place, text)) = rest.split_once(' ') else {
        return Ok(false);
    };
    let text = bytes(alloc, text)?;
    Ok(skips(&text, at, depth, kind, place))
}

// Whatever stands behind a value.
#[test]
fn values_are_skipped(rt: HostRuntime) -> Result<(), Fail> {
    for line in values().lines() {
        if !is_value_so(rt.alloc(), line)? {
            panic!(rt; "{line}");
        }
    }
    Ok(())
}
