//! Fields beside what a slow reader in another language reads of the same texts.
use crate::faults::is_field_fault;
use crate::field_rows::rows;
use crate::field_values::{
    are_categories, are_names, is_flag, is_inner, is_inner_or_none, is_length, is_length_or_none,
    is_number, is_number_or_none, is_signed, is_tenth, is_text, is_text_or_none, is_thirtieth,
    is_whole,
};
use crate::trees::{first_prototype, wanted};
use fractions::Ratio;
use json_text::{JsonFault, SpanTree, Wanted, read_spans};
use plan_base::NoMemory;
use prototype_fields::{Fields, Key, Within};
use std::alloc::Global;
use std::test::Fail;

fn is_word_so(alloc: Global, reader: &str, fields: &Fields<'_, '_>, expected: &str) -> bool {
    match reader {
        "text" => is_text_or_none(alloc, fields.text(Key::Count), expected),
        "name" => is_text_or_none(alloc, fields.name(Key::Count), expected),
        "required_name" => is_text(alloc, fields.required_name(Key::Count), expected),
        "flag_or" => is_flag(alloc, fields.flag_or(Key::Count, true), expected),
        _ => is_number_so(alloc, reader, fields, expected),
    }
}

fn is_number_so(alloc: Global, reader: &str, fields: &Fields<'_, '_>, expected: &str) -> bool {
    match reader {
        "number" => is_number_or_none(alloc, fields.number(Key::Count), expected),
        "number_or" => is_number(
            alloc,
            fields.number_or(Key::Count, Ratio::whole(15)),
            expected,
        ),
        "whole_or" => is_whole(alloc, fields.whole_or(Key::Count, 0), expected),
        "hundredths" => is_signed(alloc, fields.hundredths_or_zero(Key::Count), expected),
        "tenth" => is_tenth(alloc, fields, expected),
        _ => is_amount_so(alloc, reader, fields, expected),
    }
}

fn is_amount_so(alloc: Global, reader: &str, fields: &Fields<'_, '_>, expected: &str) -> bool {
    match reader {
        "required_amount" => is_number(alloc, fields.required_amount(Key::Count), expected),
        "amount_or" => is_number(alloc, fields.amount_or(Key::Count, Ratio::one()), expected),
        "required_positive" => is_number(alloc, fields.required_positive(Key::Count), expected),
        "positive_or" => is_number(
            alloc,
            fields.positive_or(Key::Count, Ratio::part(1, 2)),
            expected,
        ),
        _ => is_energy_so(alloc, reader, fields, expected),
    }
}

fn is_energy_so(alloc: Global, reader: &str, fields: &Fields<'_, '_>, expected: &str) -> bool {
    match reader {
        "energy_or" => is_number(
            alloc,
            fields.energy_or(Key::Count, Ratio::whole(1000)),
            expected,
        ),
        "power" => is_number_or_none(alloc, fields.power(Key::Count), expected),
        "thirtieth" => is_thirtieth(alloc, fields, expected),
        _ => is_object_so(alloc, reader, fields, expected),
    }
}

fn is_object_so(alloc: Global, reader: &str, fields: &Fields<'_, '_>, expected: &str) -> bool {
    match reader {
        "object" => is_inner_or_none(alloc, fields.object(Key::Count, Within::Effect), expected),
        "required_object" => {
            is_inner(
                alloc,
                fields.required_object(Key::Count, Within::Effect),
                expected,
            )
        }
        "object_or_empty" => {
            is_inner(
                alloc,
                fields.object_or_empty(Key::Count, Within::Effect),
                expected,
            )
        }
        _ => is_list_so(alloc, reader, fields, expected),
    }
}

fn is_list_so(alloc: Global, reader: &str, fields: &Fields<'_, '_>, expected: &str) -> bool {
    match reader {
        "list" => is_length_or_none(alloc, fields.list(Key::Count), expected),
        "required_short_list" => is_length(alloc, fields.required_short_list(Key::Count), expected),
        "short_list_or_empty" => is_length(alloc, fields.short_list_or_empty(Key::Count), expected),
        "names" => are_names(alloc, fields, expected),
        "categories" => are_categories(alloc, fields, expected),
        _ => false,
    }
}

fn is_element_so(alloc: Global, reader: &str, prototype: &SpanTree<'_>, expected: &str) -> bool {
    match Fields::of_element(Within::Prototype, prototype) {
        Ok(fields) => is_word_so(alloc, reader, &fields, expected),
        Err(fault) => is_field_fault(alloc, &fault, expected),
    }
}

fn is_prototype_so(alloc: Global, reader: &str, tree: &SpanTree<'_>, expected: &str) -> bool {
    match first_prototype(tree) {
        Some(prototype) => is_element_so(alloc, reader, prototype, expected),
        None => false,
    }
}

fn is_tree_so(
    alloc: Global,
    reader: &str,
    tree: &Result<SpanTree<'_>, JsonFault>,
    expected: &str,
) -> bool {
    match tree {
        Ok(tree) => is_prototype_so(alloc, reader, tree, expected),
        Err(_) => false,
    }
}

// What is read of the field `count` with this value.
fn is_field_so(
    alloc: Global,
    reader: &str,
    value: &str,
    expected: &str,
    kept: &Wanted,
) -> Result<bool, NoMemory> {
    let text = format!(in alloc; "{{\"item\":{{\"p\":{{\"speed\":[],\"count\":{value}}}}}}}")?;
    let tree = read_spans(alloc, text.as_str().as_bytes(), kept);
    Ok(is_tree_so(alloc, reader, &tree, expected))
}

fn is_row_so(alloc: Global, row: &str, kept: &Wanted) -> Result<bool, NoMemory> {
    let Some((reader, rest)) = row.split_once('|') else {
        return Ok(false);
    };
    match rest.split_once('|') {
        Some((value, expected)) => is_field_so(alloc, reader, value, expected, kept),
        None => Ok(false),
    }
}

#[test]
fn fields_are_read(rt: HostRuntime) -> Result<(), Fail> {
    let kept = wanted(rt.alloc(), "item", "count speed")?;
    for row in rows().lines() {
        if !is_row_so(rt.alloc(), row, &kept)? {
            panic!(rt; "{row}");
        }
    }
    Ok(())
}
