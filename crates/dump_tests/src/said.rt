//! What is said, by the status of a run.
use certificate_file::CertFault;
use craft_reader::{DumpCode, DumpFault};
use json_text::{JsonCode, JsonFault};
use plan_base::{NoMemory, Text};
use program_runs::{dump_name, hint, script_name, unread_hint};
use run_inputs::{Long, Status};
use std::alloc::Global;
use std::test::Fail;

fn texts_in(alloc: Global, words: &[&str]) -> Result<Vec<Text>, NoMemory> {
    let mut texts = Vec::new(alloc);
    for word in words {
        let text = Text::copy(alloc, word)?;
        texts.push(text)?;
    }
    Ok(texts)
}

const WORDS: [&str; 4] = ["p", "run", "d.json", "my script"];

fn is_text(text: &Result<Text, NoMemory>, wanted: &str) -> bool {
    match text {
        Ok(text) => text.as_str() == wanted,
        Err(NoMemory) => false,
    }
}

// Whether this is said of such a run over such a dump.
fn says_of(alloc: Global, status: &Status, dump: Option<&[u8]>, wanted: &str) -> bool {
    match texts_in(alloc, &WORDS) {
        Ok(words) => is_text(&hint(alloc, status, &words, Some("c.json"), dump), wanted),
        Err(NoMemory) => false,
    }
}

fn says(alloc: Global, status: &Status, wanted: &str) -> bool {
    says_of(alloc, status, None, wanted)
}

#[test]
fn nothing_is_said_where_lines_were_answered(rt: HostRuntime) -> Result<(), Fail> {
    assert!(rt; says(rt.alloc(), &Status::Done, ""));
    assert!(rt; says(rt.alloc(), &Status::SomeRefused, ""));
    Ok(())
}

#[test]
fn bad_words_are_told_the_usage(rt: HostRuntime) -> Result<(), Fail> {
    let usage =
        "factoplan: usage: factoplan run DUMP SCRIPT, prove DUMP SCRIPT, check DUMP SCRIPT --cert FILE, or sample NUMBER SIZE\n";
    assert!(rt; says(rt.alloc(), &Status::BadWords, usage));
    Ok(())
}

#[test]
fn what_the_system_refused_is_said(rt: HostRuntime) -> Result<(), Fail> {
    assert!(rt;
        says(
            rt.alloc(),
            &Status::ReadFault,
            "factoplan: a file could not be read\n"
        )
    );
    assert!(rt;
        says(
            rt.alloc(),
            &Status::WriteFault,
            "factoplan: the report could not be written\n"
        )
    );
    assert!(rt;
        says(
            rt.alloc(),
            &Status::NoMemory,
            "factoplan: no memory is left\n"
        )
    );
    Ok(())
}

#[test]
fn a_long_file_is_named(rt: HostRuntime) -> Result<(), Fail> {
    let dump = "factoplan: d.json: the dump has more than 268,435,456 bytes\n";
    let script = "factoplan: \"my script\": the script has more than 16,777,216 bytes\n";
    let lines = "factoplan: \"my script\": the script has more than 100,000 lines\n";
    assert!(rt; says(rt.alloc(), &Status::TooLong(Long::DumpBytes), dump));
    assert!(rt; says(rt.alloc(), &Status::TooLong(Long::ScriptBytes), script));
    assert!(rt; says(rt.alloc(), &Status::TooLong(Long::ScriptLines), lines));
    let cert = "factoplan: c.json: the certificate has more than 268,435,456 bytes\n";
    assert!(rt; says(rt.alloc(), &Status::TooLong(Long::CertBytes), cert));
    Ok(())
}

#[test]
fn a_bad_certificate_is_named(rt: HostRuntime) -> Result<(), Fail> {
    let json = "factoplan: c.json: the certificate is no JSON in UTF-8 of at most 127 levels\n";
    let form = "factoplan: c.json: the JSON is no certificate of version 1\n";
    assert!(rt; says(rt.alloc(), &Status::BadCert(CertFault::NotJson), json));
    assert!(rt; says(rt.alloc(), &Status::BadCert(CertFault::BadForm), form));
    Ok(())
}

fn json_fault(alloc: Global, code: JsonCode, at: usize) -> Status {
    let fault = JsonFault { code, at };
    Status::BadDump(DumpFault::of_code(alloc, DumpCode::Json(fault)))
}

// Whether this is said of a fault of JSON in such a dump.
fn says_in(alloc: Global, dump: &str, code: JsonCode, at: usize, wanted: &str) -> bool {
    let status = json_fault(alloc, code, at);
    says_of(alloc, &status, Some(dump.as_bytes()), wanted)
}

const DUMP: &str = "{\n  \"item\": {\"a\": {}\n}";

#[test]
fn a_fault_of_json_is_told_its_line_and_column(rt: HostRuntime) -> Result<(), Fail> {
    let byte = "factoplan: d.json: line 2, column 12: no JSON goes on like this\n";
    let key = "factoplan: d.json: line 2, column 6: its object has this key already\n";
    let deep =
        "factoplan: d.json: line 1, column 1: more than 200 lists and objects stand in one another\n";
    assert!(rt; says_in(rt.alloc(), DUMP, JsonCode::NotJson, 13, byte));
    assert!(rt; says_in(rt.alloc(), DUMP, JsonCode::Repeated, 7, key));
    assert!(rt; says_in(rt.alloc(), DUMP, JsonCode::TooDeep, 0, deep));
    Ok(())
}

#[test]
fn other_faults_of_json_are_told(rt: HostRuntime) -> Result<(), Fail> {
    let utf8 = "factoplan: d.json: line 2, column 1: this is no UTF-8\n";
    let many = "factoplan: d.json: line 2, column 2: there are more than 16,777,216 values\n";
    assert!(rt; says_in(rt.alloc(), DUMP, JsonCode::NotUtf8, 2, utf8));
    assert!(rt; says_in(rt.alloc(), DUMP, JsonCode::TooMany, 3, many));
    Ok(())
}

#[test]
fn an_early_end_is_told(rt: HostRuntime) -> Result<(), Fail> {
    let cut = "factoplan: d.json: line 3, column 2: the file ends here, and its JSON does not\n";
    let empty = "factoplan: d.json: line 1, column 1: the file ends here, and its JSON does not\n";
    assert!(rt; says_in(rt.alloc(), DUMP, JsonCode::NotJson, 22, cut));
    assert!(rt; says_in(rt.alloc(), "", JsonCode::NotJson, 0, empty));
    Ok(())
}

#[test]
fn a_dump_that_is_not_kept_is_told_by_its_bytes(rt: HostRuntime) -> Result<(), Fail> {
    let status = json_fault(rt.alloc(), JsonCode::NotJson, 14);
    let wanted = "factoplan: d.json: after 14 bytes: no JSON goes on like this\n";
    assert!(rt; says(rt.alloc(), &status, wanted));
    assert!(rt; says_of(rt.alloc(), &status, Some(b"{}"), wanted));
    Ok(())
}

fn field_fault(
    alloc: Global,
    code: DumpCode,
    section: &str,
    name: &str,
    field: &str,
) -> Result<DumpFault, NoMemory> {
    let section = Text::copy(alloc, section)?;
    let name = Text::copy(alloc, name)?;
    let field = Text::copy(alloc, field)?;
    Ok(DumpFault {
        code,
        section,
        name,
        field,
    })
}

// Whether this is said of a fault of a field.
fn says_at(
    alloc: Global,
    code: DumpCode,
    section: &str,
    name: &str,
    field: &str,
    wanted: &str,
) -> bool {
    match field_fault(alloc, code, section, name, field) {
        Ok(fault) => says(alloc, &Status::BadDump(fault), wanted),
        Err(NoMemory) => false,
    }
}

#[test]
fn a_fault_of_a_field_is_told_its_prototype(rt: HostRuntime) -> Result<(), Fail> {
    let missing =
        "factoplan: d.json: recipe: \"a b\": results: this is required and is not there\n";
    let kind = "factoplan: d.json: lab: l: inputs: the value is of the wrong kind\n";
    let unknown =
        "factoplan: d.json: recipe: r: results.name: the name stands for nothing in this dump\n";
    assert!(rt;
        says_at(
            rt.alloc(),
            DumpCode::Missing,
            "recipe",
            "a b",
            "results",
            missing
        )
    );
    assert!(rt; says_at(rt.alloc(), DumpCode::WrongKind, "lab", "l", "inputs", kind));
    assert!(rt;
        says_at(
            rt.alloc(),
            DumpCode::UnknownName,
            "recipe",
            "r",
            "results.name",
            unknown
        )
    );
    Ok(())
}

#[test]
fn a_fault_of_a_value_is_told(rt: HostRuntime) -> Result<(), Fail> {
    let number = "factoplan: d.json: fluid: f: default_temperature: the number is too large\n";
    let energy = "factoplan: d.json: lab: l: energy_usage: the text is no energy or power\n";
    let limit =
        "factoplan: d.json: recipe: r: results: the number is out of its range, or there are too many\n";
    assert!(rt;
        says_at(
            rt.alloc(),
            DumpCode::Number,
            "fluid",
            "f",
            "default_temperature",
            number
        )
    );
    assert!(rt;
        says_at(
            rt.alloc(),
            DumpCode::Energy,
            "lab",
            "l",
            "energy_usage",
            energy
        )
    );
    assert!(rt; says_at(rt.alloc(), DumpCode::Limit, "recipe", "r", "results", limit));
    Ok(())
}

#[test]
fn what_is_empty_is_left_out(rt: HostRuntime) -> Result<(), Fail> {
    let twice = "factoplan: d.json: ammo: a: the name is there already\n";
    let kind = "factoplan: d.json: item: the value is of the wrong kind\n";
    let members =
        "factoplan: d.json: members: the number is out of its range, or there are too many\n";
    let none = "factoplan: d.json: no section of Factorio 1.1 found\n";
    assert!(rt; says_at(rt.alloc(), DumpCode::Twice, "ammo", "a", "", twice));
    assert!(rt; says_at(rt.alloc(), DumpCode::WrongKind, "item", "", "", kind));
    assert!(rt; says_at(rt.alloc(), DumpCode::Limit, "", "", "members", members));
    assert!(rt; says_at(rt.alloc(), DumpCode::WrongKind, "", "", "", none));
    Ok(())
}

#[test]
fn a_file_that_is_not_read_is_named(rt: HostRuntime) -> Result<(), Fail> {
    let said = unread_hint(rt.alloc(), "a\nb", "is a directory");
    assert!(rt; is_text(&said, "factoplan: \"a\\nb\": is a directory\n"));
    Ok(())
}

// Whether the two files of a run with these words are so called.
fn are_called(alloc: Global, words: &[&str], dump: Option<&str>, script: Option<&str>) -> bool {
    match texts_in(alloc, words) {
        Ok(words) => dump_name(&words) == dump && script_name(&words) == script,
        Err(NoMemory) => false,
    }
}

#[test]
fn dashes_are_no_name(rt: HostRuntime) -> Result<(), Fail> {
    let alloc = rt.alloc();
    assert!(rt; are_called(alloc, &["p", "run", "d", "s"], Some("d"), Some("s")));
    assert!(rt; are_called(alloc, &["p", "--", "run", "d", "s"], Some("d"), Some("s")));
    assert!(rt; are_called(alloc, &["p", "run", "d", "--", "s"], Some("d"), Some("s")));
    assert!(rt; are_called(alloc, &["p", "run", "--", "--", "s"], Some("--"), Some("s")));
    assert!(rt; are_called(alloc, &["p", "run", "d"], Some("d"), None));
    assert!(rt; are_called(alloc, &[], None, None));
    Ok(())
}
