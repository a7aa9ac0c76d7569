//! What is to be built for a plan: whole machines, beacons, and the modules in them.
ghost use Rattle.game_types.specs.Sound.{IsSound};

use fractions::Ratio;
use game_types::{BeaconGroup, Game};
use page_parts::Done;
use page_rows::{Piece, Thing, figure_cell, good_thing, put, thing_text};
use plan_base::{EntityId, GoodId, Kind};
use plan_lines::Figures;
use production_table::TableRow;
use std::alloc::Global;

// So many of a thing, where that is within the limits of fractions.
#[derive(Drop)]
struct Build {
    thing: Thing,
    count: Option<Ratio>,
}

/// So many of each thing.
#[derive(Drop)]
pub struct Builds {
    all: Vec<Build>,
}

fn sum(left: &Option<Ratio>, right: &Option<Ratio>) -> Option<Ratio> {
    match (left, right) {
        (Some(left), Some(right)) => left.add(right).ok(),
        _ => None,
    }
}

// So many times a number.
fn times(count: &Option<Ratio>, number: u32) -> Option<Ratio> {
    match count {
        Some(count) => count.mul(&Ratio::whole(number as i64)).ok(),
        None => None,
    }
}

// So many beacons for whole machines: each stands at so many of them as share it.
fn beacons_for(machines: &Option<Ratio>, group: &BeaconGroup) -> Option<Ratio> {
    let share = Ratio::whole(group.share as i64);
    if !share.is_positive() {
        return None;
    }
    let all = times(machines, group.count)?;
    let each = all.div(&share).ok()?;
    Some(each.ceil())
}

fn place_of(all: &[Build], thing: Thing) -> Option<usize> {
    all.iter().position(|build| build.thing == thing)
}

fn add_to(all: &mut [Build], place: usize, count: &Option<Ratio>) {
    if place < all.len() {
        all[place].count = sum(&all[place].count, count);
    }
}

impl Builds {
    /// Nothing yet.
    pub fn new(alloc: Global) -> Builds {
        Builds {
            all: Vec::new(alloc),
        }
    }

    fn add(&mut self, thing: Thing, count: Option<Ratio>) -> Done {
        match place_of(self.all.as_slice(), thing) {
            Some(place) => add_to(self.all.as_mut_slice(), place, &count),
            None => self.all.push(Build { thing, count })?,
        }
        Ok(())
    }

    fn add_machine(&mut self, machine: EntityId, count: Option<Ratio>) -> Done {
        let thing = Thing {
            kind: Kind::Machine,
            index: machine.0,
        };
        self.add(thing, count)
    }

    fn add_modules(
        &mut self,
        game: &Game,
        modules: &[(GoodId, u32)],
        machines: &Option<Ratio>,
    ) -> Done
        requires { IsSound game.now }
    {
        for (module, number) in modules {
            self.add(good_thing(game, *module), times(machines, *number))?;
        }
        Ok(())
    }

    fn add_beacons(&mut self, game: &Game, groups: &[BeaconGroup], machines: &Option<Ratio>) -> Done
        requires { IsSound game.now }
    {
        for group in groups {
            let beacons = beacons_for(machines, group);
            self.add_machine(group.beacon, beacons)?;
            self.add_modules(game, group.modules.as_slice(), &beacons)?;
        }
        Ok(())
    }

    fn add_row(&mut self, game: &Game, row: &TableRow, figures: &Figures) -> Done
        requires { IsSound game.now }
    {
        self.add_machine(row.setup.machine, figures.count)?;
        self.add_modules(game, row.setup.modules.as_slice(), &figures.count)?;
        self.add_beacons(game, row.setup.beacons.as_slice(), &figures.count)
    }

    /// What the rows of a plan take comes in.
    pub fn add_rows(&mut self, game: &Game, rows: &[TableRow], figures: &[Figures]) -> Done
        requires { IsSound game.now }
    {
        for (row, figures) in rows.iter().zip(figures) {
            self.add_row(game, row, figures)?;
        }
        Ok(())
    }
}

fn push_plain(alloc: Global, out: &mut String, text: &str) -> Done {
    put(alloc, out, &[Piece::Text(text)])
}

fn is_nothing(count: &Option<Ratio>) -> bool {
    match count {
        Some(count) => count.is_zero(),
        None => false,
    }
}

fn push_build(alloc: Global, out: &mut String, game: &Game, build: &Build) -> Done {
    if is_nothing(&build.count) {
        return Ok(());
    }
    let thing = thing_text(alloc, game, build.thing)?;
    push_plain(alloc, out, "<tr data-f><th>")?;
    push_plain(alloc, out, thing.as_str())?;
    push_plain(alloc, out, "</th>")?;
    let count = figure_cell(alloc, "to build", &build.count)?;
    push_plain(alloc, out, count.as_str())?;
    push_plain(alloc, out, "</tr>\n")
}

/// A line for each thing of which there is more than none.
pub fn push_builds(alloc: Global, out: &mut String, game: &Game, builds: &Builds) -> Done {
    for build in builds.all.as_slice() {
        push_build(alloc, out, game, build)?;
    }
    Ok(())
}
