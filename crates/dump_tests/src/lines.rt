//! What is said of the lines of a script.
use line_causes::{Cause, Short, Slot};
use plan_base::{Kind, NoMemory, Text};
use plan_lines::RefusalCode;
use program_runs::{empty_hint, more_hint, refused_hint, short_hint};
use script_reader::CommandWord;
use std::alloc::Global;
use std::test::Fail;

fn is_text(text: &Result<Text, NoMemory>, wanted: &str) -> bool {
    match text {
        Ok(text) => text.as_str() == wanted,
        Err(NoMemory) => false,
    }
}

// Whether this is said of a line that is refused so.
fn says(alloc: Global, cause: &Cause, like: Option<&str>, wanted: &str) -> bool {
    is_text(
        &refused_hint(alloc, Some("s.txt"), 9, Some(7), cause, like),
        wanted,
    )
}

#[test]
fn a_code_says_what_it_means(rt: HostRuntime) -> Result<(), Fail> {
    assert!(rt;
        is_text(
            &refused_hint(
                rt.alloc(),
                None,
                12,
                None,
                &Cause::Coded(RefusalCode::H4),
                None
            ),
            "factoplan: line 12: no batch is open\n"
        )
    );
    Ok(())
}

#[test]
fn a_word_that_names_nothing_is_told(rt: HostRuntime) -> Result<(), Fail> {
    let word = Text::copy(rt.alloc(), "item:Iron Plate")?;
    let kind = Kind::Item;
    assert!(rt;
        says(
            rt.alloc(),
            &Cause::NoObject { kind, word },
            Some("item:iron-plate"),
            "factoplan: s.txt: line 9, column 7: no item is called \"item:Iron Plate\"; like it is item:iron-plate\n"
        )
    );
    Ok(())
}

#[test]
fn the_form_of_a_command_is_told(rt: HostRuntime) -> Result<(), Fail> {
    let first = Text::copy(rt.alloc(), "row")?;
    let command = CommandWord::Row;
    assert!(rt;
        says(
            rt.alloc(),
            &Cause::Stands {
                first,
                command,
                at: 3
            },
            None,
            "factoplan: s.txt: line 9, column 7: behind row TABLE LABEL ACTIVITY stands by\n"
        )
    );
    Ok(())
}

#[test]
fn nothing_more_stands_behind_a_form(rt: HostRuntime) -> Result<(), Fail> {
    let first = Text::copy(rt.alloc(), "undo")?;
    let command = CommandWord::Undo;
    assert!(rt;
        says(
            rt.alloc(),
            &Cause::Stands {
                first,
                command,
                at: 0
            },
            None,
            "factoplan: s.txt: line 9, column 7: behind undo stands nothing more\n"
        )
    );
    Ok(())
}

#[test]
fn a_word_that_does_not_fit_is_told(rt: HostRuntime) -> Result<(), Fail> {
    let word = Text::copy(rt.alloc(), "ten")?;
    let slot = Slot::Count;
    assert!(rt;
        says(
            rt.alloc(),
            &Cause::Unfit { word, slot },
            None,
            "factoplan: s.txt: line 9, column 7: ten is not a whole number from 0 to 65535\n"
        )
    );
    Ok(())
}

#[test]
fn the_rest_is_counted(rt: HostRuntime) -> Result<(), Fail> {
    assert!(rt;
        is_text(
            &more_hint(rt.alloc(), Some("s.txt"), 13),
            "factoplan: s.txt: and 13 more\n"
        )
    );
    Ok(())
}

#[test]
fn a_good_that_nothing_gives_is_told(rt: HostRuntime) -> Result<(), Fail> {
    let short = Short::Ungiven(Text::copy(rt.alloc(), "item:gear")?);
    assert!(rt;
        is_text(
            &short_hint(rt.alloc(), Some("s.txt"), 3, "a b", &short),
            "factoplan: s.txt: line 3: table \"a b\" has no plan: no row or import gives item:gear\n"
        )
    );
    Ok(())
}

#[test]
fn an_empty_dump_is_told(rt: HostRuntime) -> Result<(), Fail> {
    assert!(rt;
        is_text(
            &empty_hint(rt.alloc(), Some("d.json")),
            "factoplan: d.json: no section of Factorio 1.1 found\n"
        )
    );
    Ok(())
}
