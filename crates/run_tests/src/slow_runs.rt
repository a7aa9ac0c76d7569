//! Runs whose calls are slow, and runs one of whose calls fails.

use crate::memory::Calls;
use crate::pieces::behind_piece;
use crate::texts::{DUMP, EDITS, EDITS_REPORT, TABLES, TABLES_REPORT};
use crate::trials::{Case, ends_before};
use std::alloc::Global;
use std::test::Fail;

const EDITED: Case = Case {
    dump: DUMP,
    script: EDITS,
    exit: 1,
    report: EDITS_REPORT,
};

const PLANNED: Case = Case {
    dump: DUMP,
    script: TABLES,
    exit: 1,
    report: TABLES_REPORT,
};

const BAD_DUMP: Case = Case {
    dump: "[ 1",
    script: "",
    exit: 3,
    report: "bad dump G8 J1 at 3\n",
};

// Whether a run ends as where no call fails.
fn ends_well(alloc: Global, case: &Case, calls: Calls) -> bool {
    ends_before(alloc, case, calls, case.exit, &[])
}

fn is_the_same_slowly(alloc: Global, case: &Case) -> bool {
    for most in [1, 2, 7] {
        let calls = Calls {
            most,
            failing_read: 0,
            failing_put: 0,
        };
        if !ends_well(alloc, case, calls) {
            return false;
        }
    }
    true
}

#[test]
fn edits_are_reported_slowly(rt: HostRuntime) -> Result<(), Fail> {
    assert!(rt; is_the_same_slowly(rt.alloc(), &EDITED));
    Ok(())
}

#[test]
fn tables_are_solved_slowly(rt: HostRuntime) -> Result<(), Fail> {
    assert!(rt; is_the_same_slowly(rt.alloc(), &PLANNED));
    Ok(())
}

#[test]
fn a_bad_dump_is_told_slowly(rt: HostRuntime) -> Result<(), Fail> {
    assert!(rt; is_the_same_slowly(rt.alloc(), &BAD_DUMP));
    Ok(())
}

// Whether a run whose read of this number fails ends by it, with nothing written.
fn is_unread(alloc: Global, case: &Case, most: u32, failing_read: u32) -> bool {
    let calls = Calls {
        most,
        failing_read,
        failing_put: 0,
    };
    ends_before(alloc, case, calls, 4, case.report.as_bytes())
}

// Whether a run is the same though a read of this number would fail.
fn is_read(alloc: Global, case: &Case, most: u32, failing_read: u32) -> bool {
    ends_well(
        alloc,
        case,
        Calls {
            most,
            failing_read,
            failing_put: 0,
        },
    )
}

// Whether each of so many calls of the store ends a run where it fails, and there are no more.
fn each_read_may_fail(alloc: Global, case: &Case, most: u32, count: u32) -> bool {
    for call in 1..=count {
        if !is_unread(alloc, case, most, call) {
            return false;
        }
    }
    is_read(alloc, case, most, count.saturating_add(1))
}

// The calls are: the dump is begun, read by so many bytes, and read at its end; the same of the script.
#[test]
fn each_read_of_edits_may_fail(rt: HostRuntime) -> Result<(), Fail> {
    let alloc = rt.alloc();
    assert!(rt; each_read_may_fail(alloc, &EDITED, 0, 6));
    assert!(rt; each_read_may_fail(alloc, &EDITED, 7, 165));
    Ok(())
}

#[test]
fn each_read_of_tables_may_fail(rt: HostRuntime) -> Result<(), Fail> {
    let alloc = rt.alloc();
    assert!(rt; each_read_may_fail(alloc, &PLANNED, 0, 6));
    assert!(rt; each_read_may_fail(alloc, &PLANNED, 7, 111));
    Ok(())
}

#[test]
fn each_short_read_of_tables_may_fail(rt: HostRuntime) -> Result<(), Fail> {
    let alloc = rt.alloc();
    assert!(rt; each_read_may_fail(alloc, &PLANNED, 2, 374));
    assert!(rt; each_read_may_fail(alloc, &PLANNED, 1, 743));
    Ok(())
}

// The script is not begun.
#[test]
fn each_read_of_a_bad_dump_may_fail(rt: HostRuntime) -> Result<(), Fail> {
    let alloc = rt.alloc();
    assert!(rt; each_read_may_fail(alloc, &BAD_DUMP, 0, 3));
    assert!(rt; each_read_may_fail(alloc, &BAD_DUMP, 7, 3));
    assert!(rt; each_read_may_fail(alloc, &BAD_DUMP, 2, 4));
    assert!(rt; each_read_may_fail(alloc, &BAD_DUMP, 1, 5));
    Ok(())
}

// Whether a run whose put of this number fails ends by it, with its report up to this rest.
fn is_cut(alloc: Global, case: &Case, most: u32, failing_put: u32, rest: &[u8]) -> bool {
    let calls = Calls {
        most,
        failing_read: 0,
        failing_put,
    };
    ends_before(alloc, case, calls, 5, rest)
}

// Whether a run is the same though a put of this number would fail.
fn is_written(alloc: Global, case: &Case, most: u32, failing_put: u32) -> bool {
    ends_well(
        alloc,
        case,
        Calls {
            most,
            failing_read: 0,
            failing_put,
        },
    )
}

// More than the puts of any report here.
const MANY_PUTS: u32 = 4000;

// Whether each put ends a run where it fails, with the pieces before it written, and there are no more puts than pieces.
fn each_put_may_fail(alloc: Global, case: &Case, most: u32) -> bool {
    let mut rest = case.report.as_bytes();
    for call in 1..=MANY_PUTS {
        if rest.is_empty() {
            return is_written(alloc, case, most, call);
        }
        if !is_cut(alloc, case, most, call, rest) {
            return false;
        }
        rest = behind_piece(rest, most);
    }
    false
}

#[test]
fn each_put_of_whole_replies_may_fail(rt: HostRuntime) -> Result<(), Fail> {
    let alloc = rt.alloc();
    assert!(rt; each_put_may_fail(alloc, &EDITED, 0));
    assert!(rt; each_put_may_fail(alloc, &PLANNED, 0));
    assert!(rt; each_put_may_fail(alloc, &BAD_DUMP, 0));
    Ok(())
}

#[test]
fn each_put_of_seven_bytes_may_fail(rt: HostRuntime) -> Result<(), Fail> {
    let alloc = rt.alloc();
    assert!(rt; each_put_may_fail(alloc, &EDITED, 7));
    assert!(rt; each_put_may_fail(alloc, &PLANNED, 7));
    assert!(rt; each_put_may_fail(alloc, &BAD_DUMP, 7));
    Ok(())
}

#[test]
fn each_put_of_two_bytes_may_fail(rt: HostRuntime) -> Result<(), Fail> {
    let alloc = rt.alloc();
    assert!(rt; each_put_may_fail(alloc, &EDITED, 2));
    assert!(rt; each_put_may_fail(alloc, &PLANNED, 2));
    assert!(rt; each_put_may_fail(alloc, &BAD_DUMP, 2));
    Ok(())
}

#[test]
fn each_put_of_one_byte_may_fail(rt: HostRuntime) -> Result<(), Fail> {
    let alloc = rt.alloc();
    assert!(rt; each_put_may_fail(alloc, &EDITED, 1));
    assert!(rt; each_put_may_fail(alloc, &PLANNED, 1));
    assert!(rt; each_put_may_fail(alloc, &BAD_DUMP, 1));
    Ok(())
}
