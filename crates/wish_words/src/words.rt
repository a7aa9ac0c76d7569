//! How the words are read.
use crate::asked::{
    AskedBeacon, AskedChoice, AskedImport, AskedMore, AskedSetup, AskedWish, Least, WishRequest,
};
use crate::faults::{Wanted, WordFault};
use crate::rates::{is_writable, read_rate};
use clap::ArgMatches;
use fractions::{Ratio, read_ratio};
use plan_base::NoMemory;
use production_table::LIMIT;
use script_reader::count_at;
use std::alloc::{AllocFailed, Global};

/// The most rows where the words name no number of them.
const ROWS: u32 = 40;

impl<'a, T: Drop> From<AllocFailed<T>> for WordFault<'a> {
    fn from(_: AllocFailed<T>) -> WordFault<'a> {
        WordFault::NoMemory
    }
}

impl<'a> From<NoMemory> for WordFault<'a> {
    fn from(_: NoMemory) -> WordFault<'a> {
        WordFault::NoMemory
    }
}

// Whether a word among the wishes is a rate: it begins as a number does.
fn is_rate(word: &str) -> bool {
    match word.as_bytes() {
        [first, ..] => first.is_ascii_digit() || *first == b'-' || *first == b'.',
        [] => false,
    }
}

fn add_wish<'a>(
    good: &'a str,
    rate: Option<Ratio>,
    wishes: &mut Vec<AskedWish<'a>>,
) -> Result<(), WordFault<'a>> {
    match wishes.push(AskedWish { good, rate }) {
        Ok(()) => Ok(()),
        Err(_) => Err(WordFault::NoMemory),
    }
}

// The good behind which no rate stood yet, where the last wish is one.
fn last_without_rate<'a>(wishes: &mut Vec<AskedWish<'a>>) -> Option<&'a str> {
    match wishes.pop() {
        Some(wish) => match wish.rate {
            None => Some(wish.good),
            Some(_) => None,
        },
        None => None,
    }
}

// Takes one word among the wishes: a good, or the rate of the good before it.
fn take_wish<'a>(
    alloc: Global,
    word: &'a str,
    wishes: &mut Vec<AskedWish<'a>>,
) -> Result<(), WordFault<'a>> {
    if !is_rate(word) {
        return add_wish(word, None, wishes);
    }
    let rate = read_rate(alloc, word)?;
    match last_without_rate(wishes) {
        Some(good) => add_wish(good, Some(rate), wishes),
        None => Err(WordFault::NoGood(word)),
    }
}

fn read_wishes<'a>(
    alloc: Global,
    words: Option<&[&'a str]>,
) -> Result<Vec<AskedWish<'a>>, WordFault<'a>> {
    let mut wishes = Vec::new(alloc);
    if let Some(words) = words {
        for word in words {
            take_wish(alloc, *word, &mut wishes)?;
        }
    }
    Ok(wishes)
}

// The first good that has no rate.
fn without_rate<'a>(wishes: &[AskedWish<'a>]) -> Option<&'a str> {
    for wish in wishes {
        if wish.rate.is_none() {
            return Some(wish.good);
        }
    }
    None
}

fn words_of<'a>(alloc: Global, words: Option<&[&'a str]>) -> Result<Vec<&'a str>, WordFault<'a>> {
    let mut all = Vec::new(alloc);
    if let Some(words) = words {
        for word in words {
            all.push(*word)?;
        }
    }
    Ok(all)
}

fn price<'a>(alloc: Global, word: &'a str) -> Result<Ratio, WordFault<'a>> {
    let Ok(price) = read_ratio(word.as_bytes()) else {
        return Err(WordFault::Bad(word, Wanted::Price));
    };
    if !price.is_neg() && is_writable(alloc, &price)? {
        Ok(price)
    } else {
        Err(WordFault::Bad(word, Wanted::Price))
    }
}

fn read_import<'a>(alloc: Global, word: &'a str) -> Result<AskedImport<'a>, WordFault<'a>> {
    match word.rsplit_once('=') {
        Some((good, number)) => Ok(AskedImport {
            good,
            price: price(alloc, number)?,
        }),
        None => Err(WordFault::Bad(word, Wanted::Import)),
    }
}

fn add_import<'a>(
    alloc: Global,
    word: &'a str,
    imports: &mut Vec<AskedImport<'a>>,
) -> Result<(), WordFault<'a>> {
    match read_import(alloc, word) {
        Ok(import) => match imports.push(import) {
            Ok(()) => Ok(()),
            Err(_) => Err(WordFault::NoMemory),
        },
        Err(fault) => Err(fault),
    }
}

fn read_imports<'a>(
    alloc: Global,
    words: Option<&[&'a str]>,
) -> Result<Vec<AskedImport<'a>>, WordFault<'a>> {
    let mut imports = Vec::new(alloc);
    if let Some(words) = words {
        for word in words {
            add_import(alloc, *word, &mut imports)?;
        }
    }
    Ok(imports)
}

fn count(word: &str) -> Result<u32, WordFault<'_>> {
    match count_at(word, 0, 65_535) {
        Some(count) => Ok(count),
        None => Err(WordFault::Bad(word, Wanted::Count)),
    }
}

fn rows(word: Option<&str>) -> Result<u32, WordFault<'_>> {
    let Some(word) = word else {
        return Ok(ROWS);
    };
    match count_at(word, 1, LIMIT as u32) {
        Some(rows) => Ok(rows),
        None => Err(WordFault::Bad(word, Wanted::Rows)),
    }
}

fn cheapest(word: Option<&str>) -> Result<Least, WordFault<'_>> {
    let Some(word) = word else {
        return Ok(Least::Cost);
    };
    if word == "power" {
        Ok(Least::Power)
    } else if word == "pollution" {
        Ok(Least::Pollution)
    } else if word == "machines" {
        Ok(Least::Machines)
    } else {
        Err(WordFault::Bad(word, Wanted::Cheapest))
    }
}

fn beacon<'a>(words: Option<&[&'a str]>) -> Result<Option<AskedBeacon<'a>>, WordFault<'a>> {
    match words {
        Some([machine, count_word, share, item]) => Ok(Some(AskedBeacon {
            machine: *machine,
            count: count(*count_word)?,
            share: count(*share)?,
            item: *item,
        })),
        _ => Ok(None),
    }
}

fn setup<'a>(alloc: Global, matches: &ArgMatches<'a>) -> Result<AskedSetup<'a>, WordFault<'a>> {
    let modules = words_of(alloc, matches.get_strs("module"))?;
    let beacon = beacon(matches.get_strs("beacon"))?;
    Ok(AskedSetup {
        modules,
        beacon,
        fuel: matches.get_str("fuel"),
    })
}

fn choice<'a>(alloc: Global, matches: &ArgMatches<'a>) -> Result<AskedChoice<'a>, WordFault<'a>> {
    let rows = rows(matches.get_str("rows"))?;
    let cheapest = cheapest(matches.get_str("cheapest"))?;
    let without = words_of(alloc, matches.get_strs("without"))?;
    let only = words_of(alloc, matches.get_strs("only"))?;
    Ok(AskedChoice {
        without,
        only,
        rows,
        cheapest,
    })
}

// The table that stands and the good for which it gets more rows.
fn more<'a>(matches: &ArgMatches<'a>) -> Option<AskedMore<'a>> {
    match (matches.get_str("rows-for"), matches.get_str("into")) {
        (Some(good), Some(table)) => Some(AskedMore { good, table }),
        _ => None,
    }
}

// Whether so many goods are wished for, or more rows are, and each good has a rate.
fn check_wishes<'a>(
    wishes: &[AskedWish<'a>],
    more: Option<AskedMore<'a>>,
    belt: Option<&'a str>,
) -> Result<(), WordFault<'a>> {
    if more.is_some() && !wishes.is_empty() {
        return Err(WordFault::Both);
    }
    if more.is_none() && wishes.is_empty() {
        return Err(WordFault::NoWish);
    }
    match without_rate(wishes) {
        Some(good) if belt.is_none() => Err(WordFault::NoRate(good)),
        _ => Ok(()),
    }
}

/// What the matched words of the command ask for.
///
/// # Errors
///
/// The first word that can't stand where it does, or `NoMemory`.
pub fn read_asked<'a>(
    alloc: Global,
    matches: &ArgMatches<'a>,
) -> Result<WishRequest<'a>, WordFault<'a>> {
    let wishes = read_wishes(alloc, matches.get_strs("wish"))?;
    let more = more(matches);
    let belt = matches.get_str("belt");
    check_wishes(wishes.as_slice(), more, belt)?;
    let imports = read_imports(alloc, matches.get_strs("import"))?;
    let by = words_of(alloc, matches.get_strs("by"))?;
    let setup = setup(alloc, matches)?;
    let choice = choice(alloc, matches)?;
    Ok(WishRequest {
        table: matches.get_str("table").unwrap_or("wish"),
        wishes,
        belt,
        more,
        by,
        setup,
        imports,
        choice,
        dig: matches.get_flag("dig"),
        power: matches.get_flag("power"),
    })
}
