//! Single words of a line.
use plan_lines::Object;
use script_reader::{Place, ScriptFault, count_at, kind_of, object_at};
use std::alloc::Global;

// Each line has a word, and the kind and the name of the object that it names, or a dash.
const OBJECTS: &str = "\
item:iron-plate item iron-plate\n\
fluid:steam@165 fluid steam@165\n\
recipe:a:b recipe a:b\n\
tech:t tech t\n\
machine:m machine m\n\
source:s source s\n\
special:heat special heat\n\
special:steam -\n\
Item:a -\n\
item -\n\
items:a -\n\
:a -";

// Each line has a word and, of those from 1 to 65535, the count that it writes, or a dash.
const COUNTS: &str = "\
1 1\n\
10 10\n\
65535 65535\n\
65536 -\n\
99999999999 -\n\
0 -\n\
01 -\n\
+1 -\n\
-1 -\n\
1.0 -\n\
1e0 -\n\
x -";

// Hidden from the proofs, which need not know the lines.
fn objects() -> &'static str {
    OBJECTS
}

fn counts() -> &'static str {
    COUNTS
}

fn is_named(object: &Object, kind: &str, name: &str) -> bool {
    kind_of(kind) == Some(object.kind) && object.name.as_str() == name
}

fn is_read(read: &Result<Object, ScriptFault>, wanted: &str) -> bool {
    match read {
        Ok(object) => match wanted.split_once(' ') {
            Some((kind, name)) => is_named(object, kind, name),
            None => false,
        },
        Err(fault) => *fault == ScriptFault::BadObject && wanted == "-",
    }
}

fn is_object_so(alloc: Global, line: &str) -> bool {
    let Some((word, wanted)) = line.split_once(' ') else {
        return false;
    };
    let read = object_at(alloc, word, Place::Node);
    is_read(&read, wanted)
}

fn is_count(count: Option<u32>, wanted: &str) -> bool {
    match count {
        Some(count) => wanted.parse() == Ok(count),
        None => wanted == "-",
    }
}

fn is_count_so(line: &str) -> bool {
    match line.split_once(' ') {
        Some((word, wanted)) => is_count(count_at(word, 1, 65535), wanted),
        None => false,
    }
}

#[test]
fn words_name_objects(rt: HostRuntime) {
    for line in objects().lines() {
        assert!(rt; is_object_so(rt.alloc(), line), "{line}");
    }
}

#[test]
fn words_are_counts(rt: HostRuntime) {
    for line in counts().lines() {
        assert!(rt; is_count_so(line), "{line}");
    }
}
