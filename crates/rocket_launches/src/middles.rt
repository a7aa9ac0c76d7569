//! A table of middles: texts that stand in front of a colon and the name of cargo in the name of other cargo. It borrows them from the
//! names, so it wants memory for a place and two numbers for each.
ghost use Rattle.std.specs.Prelude.{◌≡◌, ◌≢◌, [], None, Some, IfOk, length, List, ℕ};
ghost use Rattle.std.specs.Bool.{OnTrue};
ghost use Rattle.rocket_launches.specs.Clashes.{IsWithin, both_ends, ends_at, joined, lesser};

use plan_base::{GoodId, NoMemory};
use std::alloc::Global;
use std::collections::HashMap;

/// Cargo whose name is a middle, a colon and the name of other cargo, the rest. Of several such cargo, the least and the least rest.
#[derive(Clone, Copy)]
pub struct Ends {
    pub whole: GoodId,
    pub rest: GoodId,
}

/// What cargo gives for each middle.
#[derive(Drop)]
pub struct Middles<'a> {
    ends: HashMap<&'a str, Ends>,
    /// No middle is longer.
    longest: usize,
}

fn lesser(first: GoodId, second: GoodId) -> GoodId
    ensures { result ≡ lesser first second }
{
    if second.0 < first.0 { second } else { first }
}

fn both_ends(first: Ends, second: Ends) -> Ends
    ensures { result ≡ both_ends first second }
{
    Ends {
        whole: lesser(first.whole, second.whole),
        rest: lesser(first.rest, second.rest),
    }
}

/// No middles. It takes no memory.
pub fn no_middles<'a>(alloc: Global) -> Middles<'a>
    ensures { (middle : List ℕ) → ends_at result middle ≡ None }
{
    Middles {
        ends: HashMap::new(alloc),
        longest: 0,
    }
}

/// Whether a text is longer than each middle.
pub fn is_beyond(table: &Middles, middle: &str) -> bool
    requires { IsWithin table.now }
    ensures { OnTrue result (ends_at table.now middle.now ≡ None) }
{
    table.longest < middle.len()
}

/// What cargo gives for a middle.
pub fn ends_of(table: &Middles, middle: &str) -> Option<Ends>
    ensures { result ≡ ends_at table.now middle.now }
{
    table.ends.get(middle).copied()
}

// What cargo gives for a middle, with what one cargo more gives.
fn with_ends(table: &Middles, middle: &str, one: Ends) -> Ends
    ensures { Some result ≡ joined (ends_at table.now middle.now) (Some one) }
{
    match ends_of(table, middle) {
        Some(ends) => both_ends(ends, one),
        None => one,
    }
}

/// Puts what one cargo gives for a middle. After an error the table is to be given up.
pub fn put<'a>(table: &mut Middles<'a>, middle: &'a str, one: Ends) -> Result<(), NoMemory>
    requires { IsWithin table.old }
    ensures within { IfOk result (λ done. IsWithin table.new) }
    ensures put { IfOk result (λ done. ends_at table.new middle.now ≡ joined (ends_at table.old middle.now) (Some one)) }
    ensures others { IfOk result (λ done. (other : List ℕ) → other ≢ middle.now → ends_at table.new other ≡ ends_at table.old other) }
{
    let ends = with_ends(table, middle, one);
    match table.ends.insert(middle, ends) {
        Ok(_) => {
            table.longest = table.longest.max(middle.len());
            Ok(())
        }
        Err(_) => Err(NoMemory),
    }
}
