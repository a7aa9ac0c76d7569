//! The words of runs: those that are undefined, and unusual ones that are not.
use crate::endings::fails_so;
use crate::texts::{DUMP, REPORT, SCRIPT};
use std::alloc::Global;
use std::test::Fail;

fn are_bad_words(alloc: Global, words: &[&str]) -> bool {
    fails_so(alloc, words, &[], 0, 0, 2, "bad words\n")
}

#[test]
fn undefined_words(rt: HostRuntime) -> Result<(), Fail> {
    let alloc = rt.alloc();
    assert!(rt; are_bad_words(alloc, &[]));
    assert!(rt; are_bad_words(alloc, &["p"]));
    assert!(rt; are_bad_words(alloc, &["p", "run", "d"]));
    assert!(rt; are_bad_words(alloc, &["p", "go", "d", "s"]));
    assert!(rt; are_bad_words(alloc, &["p", "help", "d", "s"]));
    assert!(rt; are_bad_words(alloc, &["p", "--help"]));
    Ok(())
}

#[test]
fn undefined_words_with_dashes(rt: HostRuntime) -> Result<(), Fail> {
    let alloc = rt.alloc();
    assert!(rt; are_bad_words(alloc, &["p", "run", "d", "--version", "s"]));
    assert!(rt; are_bad_words(alloc, &["p", "run", "d", "s", "-é"]));
    assert!(rt; are_bad_words(alloc, &["p", "run", "d", "s", "--=x"]));
    assert!(rt; are_bad_words(alloc, &["p", "run", "d", "s", "x"]));
    assert!(rt; are_bad_words(alloc, &["p", "run", "d", "s", "--", "--"]));
    Ok(())
}

// Whether these words name the dump and the script so.
fn names(alloc: Global, words: &[&str], dump: &str, script: &str) -> bool {
    let files = [(dump, DUMP.as_bytes()), (script, SCRIPT.as_bytes())];
    fails_so(alloc, words, &files, 0, 0, 0, REPORT)
}

#[test]
fn unusual_words(rt: HostRuntime) -> Result<(), Fail> {
    let alloc = rt.alloc();
    assert!(rt; names(alloc, &["p", "run", "-", ""], "-", ""));
    assert!(rt; names(alloc, &["p", "run", "é", "日本"], "é", "日本"));
    assert!(rt; names(alloc, &["p", "run", "--", "-d", "--"], "-d", "--"));
    assert!(rt; names(alloc, &["p", "run", "d", "s", "--"], "d", "s"));
    assert!(rt; names(alloc, &["--", "run", "d", "s"], "d", "s"));
    Ok(())
}

#[test]
fn undefined_words_of_a_sample(rt: HostRuntime) -> Result<(), Fail> {
    let alloc = rt.alloc();
    assert!(rt; are_bad_words(alloc, &["p", "sample", "7"]));
    assert!(rt; are_bad_words(alloc, &["p", "sample", "07", "1"]));
    assert!(rt; are_bad_words(alloc, &["p", "sample", "+7", "1"]));
    assert!(rt; are_bad_words(alloc, &["p", "sample", "", "1"]));
    assert!(rt; are_bad_words(alloc, &["p", "sample", "4294967296", "1"]));
    assert!(rt; are_bad_words(alloc, &["p", "sample", "7", "01"]));
    assert!(rt; are_bad_words(alloc, &["p", "sample", "7", "0"]));
    assert!(rt; are_bad_words(alloc, &["p", "sample", "7", "20001"]));
    Ok(())
}
