//! Whether what is read of a field, a value or a fault, is what was expected.
use crate::faults::is_field_fault;
use fractions::Ratio;
use json_text::SpanTree;
use name_table::Names;
use plan_base::{Items, NoMemory, Text};
use prototype_fields::{FieldFault, Fields, Key, tenth, thirtieth};
use std::alloc::Global;

/// Whether a text is read so.
pub fn is_text(alloc: Global, read: Result<&str, FieldFault>, expected: &str) -> bool {
    match read {
        Ok(text) => text == expected,
        Err(fault) => is_field_fault(alloc, &fault, expected),
    }
}

/// Whether a text is read so, or none.
pub fn is_text_or_none(
    alloc: Global,
    read: Result<Option<&str>, FieldFault>,
    expected: &str,
) -> bool {
    match read {
        Ok(Some(text)) => text == expected,
        Ok(None) => expected == "-",
        Err(fault) => is_field_fault(alloc, &fault, expected),
    }
}

/// Whether a flag is read so.
pub fn is_flag(alloc: Global, read: Result<bool, FieldFault>, expected: &str) -> bool {
    match read {
        Ok(flag) => expected == (if flag { "true" } else { "false" }),
        Err(fault) => is_field_fault(alloc, &fault, expected),
    }
}

fn is_ratio(alloc: Global, number: &Ratio, expected: &str) -> bool {
    match number.print(alloc) {
        Ok(text) => text.as_str() == expected,
        Err(_) => false,
    }
}

/// Whether a number is read so.
pub fn is_number(alloc: Global, read: Result<Ratio, FieldFault>, expected: &str) -> bool {
    match read {
        Ok(number) => is_ratio(alloc, &number, expected),
        Err(fault) => is_field_fault(alloc, &fault, expected),
    }
}

/// Whether a number is read so, or none.
pub fn is_number_or_none(
    alloc: Global,
    read: Result<Option<Ratio>, FieldFault>,
    expected: &str,
) -> bool {
    match read {
        Ok(Some(number)) => is_ratio(alloc, &number, expected),
        Ok(None) => expected == "-",
        Err(fault) => is_field_fault(alloc, &fault, expected),
    }
}

/// Whether a whole number is read so.
pub fn is_whole(alloc: Global, read: Result<u32, FieldFault>, expected: &str) -> bool {
    match read {
        Ok(number) => is_ratio(alloc, &Ratio::whole(number as i64), expected),
        Err(fault) => is_field_fault(alloc, &fault, expected),
    }
}

/// Whether a whole number with a sign is read so.
pub fn is_signed(alloc: Global, read: Result<i64, FieldFault>, expected: &str) -> bool {
    match read {
        Ok(number) => is_ratio(alloc, &Ratio::whole(number), expected),
        Err(fault) => is_field_fault(alloc, &fault, expected),
    }
}

/// Whether the tenth of an amount is read so, or none.
pub fn is_tenth(alloc: Global, fields: &Fields<'_, '_>, expected: &str) -> bool {
    match fields.amount(Key::Count) {
        Ok(Some(amount)) => is_ratio(alloc, &tenth(&amount), expected),
        Ok(None) => expected == "-",
        Err(fault) => is_field_fault(alloc, &fault, expected),
    }
}

/// Whether the thirtieth of a power is read so.
pub fn is_thirtieth(alloc: Global, fields: &Fields<'_, '_>, expected: &str) -> bool {
    match fields.required_power(Key::Count) {
        Ok(power) => is_ratio(alloc, &thirtieth(&power), expected),
        Err(fault) => is_field_fault(alloc, &fault, expected),
    }
}

/// Whether a list of so many elements is read.
pub fn is_length(alloc: Global, read: Result<&[SpanTree<'_>], FieldFault>, expected: &str) -> bool {
    match read {
        Ok(elements) => expected.parse() == Ok(elements.len()),
        Err(fault) => is_field_fault(alloc, &fault, expected),
    }
}

/// Whether a list of so many elements is read, or none.
pub fn is_length_or_none(
    alloc: Global,
    read: Result<Option<&[SpanTree<'_>]>, FieldFault>,
    expected: &str,
) -> bool {
    match read {
        Ok(Some(elements)) => expected.parse() == Ok(elements.len()),
        Ok(None) => expected == "-",
        Err(fault) => is_field_fault(alloc, &fault, expected),
    }
}

// What the field `speed` of an object is.
fn is_speed(alloc: Global, fields: &Fields<'_, '_>, expected: &str) -> bool {
    is_number_or_none(alloc, fields.number(Key::Speed), expected)
}

/// Whether an object with this speed is read.
pub fn is_inner(alloc: Global, read: Result<Fields<'_, '_>, FieldFault>, expected: &str) -> bool {
    match read {
        Ok(inner) => is_speed(alloc, &inner, expected),
        Err(fault) => is_field_fault(alloc, &fault, expected),
    }
}

/// Whether an object with this speed is read, or none.
pub fn is_inner_or_none(
    alloc: Global,
    read: Result<Option<Fields<'_, '_>>, FieldFault>,
    expected: &str,
) -> bool {
    match read {
        Ok(Some(inner)) => is_speed(alloc, &inner, expected),
        Ok(None) => expected == "-",
        Err(fault) => is_field_fault(alloc, &fault, expected),
    }
}

// Each name with a comma behind it.
fn joined(alloc: Global, names: &[Text]) -> Result<String, NoMemory> {
    let mut joined = String::new(alloc);
    for name in names {
        joined.push_str(name.as_str())?;
        joined.push_str(",")?;
    }
    Ok(joined)
}

fn are_joined(alloc: Global, names: &[Text], expected: &str) -> bool {
    match joined(alloc, names) {
        Ok(joined) => joined.as_str() == expected,
        Err(_) => false,
    }
}

fn are_texts(alloc: Global, read: &Result<Items<Text>, FieldFault>, expected: &str) -> bool {
    match read {
        Ok(names) => are_joined(alloc, names.as_slice(), expected),
        Err(fault) => is_field_fault(alloc, fault, expected),
    }
}

/// Whether names are read so.
pub fn are_names(alloc: Global, fields: &Fields<'_, '_>, expected: &str) -> bool {
    match fields.list_or_empty(Key::Count) {
        Ok(elements) => {
            let names = fields.names_in(alloc, Key::Count, elements);
            are_texts(alloc, &names, expected)
        }
        Err(fault) => is_field_fault(alloc, &fault, expected),
    }
}

fn joined_numbers(alloc: Global, numbers: &[u32]) -> Result<String, NoMemory> {
    let mut joined = String::new(alloc);
    for number in numbers {
        let word = format!(in alloc; "{number},")?;
        joined.push_str(word.as_str())?;
    }
    Ok(joined)
}

fn are_joined_numbers(alloc: Global, numbers: &[u32], expected: &str) -> bool {
    match joined_numbers(alloc, numbers) {
        Ok(joined) => joined.as_str() == expected,
        Err(_) => false,
    }
}

fn are_numbers(alloc: Global, read: &Result<Items<u32>, FieldFault>, expected: &str) -> bool {
    match read {
        Ok(numbers) => are_joined_numbers(alloc, numbers.as_slice(), expected),
        Err(fault) => is_field_fault(alloc, fault, expected),
    }
}

/// Whether categories are read so, as their numbers.
pub fn are_categories(alloc: Global, fields: &Fields<'_, '_>, expected: &str) -> bool {
    match fields.required_list(Key::Count) {
        Ok(elements) => {
            let mut names = Names::make(alloc);
            let categories = fields.categories(alloc, Key::Count, elements, &mut names);
            are_numbers(alloc, &categories, expected)
        }
        Err(fault) => is_field_fault(alloc, &fault, expected),
    }
}
