//! Names by their places.
use name_table::Names;
use std::process::Abort;

fn are_interned(names: &mut Names) -> bool {
    let first = names.intern("iron-ore");
    let empty = names.intern("");
    let again = names.intern("iron-ore");
    let longer = names.intern("iron-ores");
    first == Ok(0) && empty == Ok(1) && again == Ok(0) && longer == Ok(2)
}

fn are_found(names: &Names) -> bool {
    names.len() == 3 && names.find("iron-ores") == Some(2) && names.find("Iron-ore") == None
}

fn is_first(names: &Names, name: &str) -> bool {
    names.len() > 0 && names.name_of(0) == name
}

#[test]
fn names_keep_their_places(rt: HostRuntime) {
    let mut names = Names::make(rt.alloc());
    assert!(rt; are_interned(&mut names));
    assert!(rt; are_found(&names));
    assert!(rt; is_first(&names, "iron-ore"));
}
