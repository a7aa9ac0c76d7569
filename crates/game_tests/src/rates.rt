//! Set-ups of the real game, worked out by Python's fractions (`bench/rates/setups.py` writes the table), and rows by hand.
ghost use Rattle.game_types.specs.Sound.{IsSound, IsSoundSetup};

use crate::games::{Given, game_of, setup_of};
use fractions::{Ratio, is_positive, read_ratio};
use fuel_choice::fuel_use;
use game_types::{BeaconSum, Bonus, Effects, Game, Product, Rates, Setup, Wide};
use machine_rates::{check_machine, effects_of, plain_effects, rates_of, yield_of};
use plan_base::{GoodId, NoMemory};
use std::alloc::Global;
use std::cmp::Ordering;
use std::test::Fail;

// Each row has: the machine's name; its productivity without modules; the hundredths of its modules, and what beacons add, of
// speed, productivity, consumption and pollution; the recipe's time; the machine's speed and power; the effectivity of its
// burner and the value of its fuel; the pollution of the machine, of the recipe and of the fuel. Then what comes of that: the
// four effects, the machines for one craft a second, the power that they use, the fuel, and the pollution.
const SETUPS: &str = "\
assembling-machine-1 0 0 0 0 0 0 0 0 0 1/2 1/2 75000 0 0 4 1 1 1 0 1 1 1 75000 0 4\n\
assembling-machine-1 0 0 0 0 0 0 0 0 0 10 1/2 75000 0 0 4 1 1 1 0 1 1 20 1500000 0 80\n\
assembling-machine-2 0 0 0 0 0 0 0 0 0 1/2 3/4 150000 0 0 3 1 1 1 0 1 1 2/3 100000 0 2\n\
assembling-machine-2 0 40 0 100 0 0 0 0 0 6 3/4 150000 0 0 3 1 1 7/5 0 2 1 40/7 12000000/7 0 240/7\n\
assembling-machine-2 0 60 0 120 0 0 0 0 0 6 3/4 150000 0 0 3 1 1 8/5 0 11/5 1 5 1650000 0 33\n\
assembling-machine-2 0 -10 8 80 10 0 0 0 0 6 3/4 150000 0 0 3 1 1 9/10 2/25 9/5 11/10 80/9 2400000 0 264/5\n\
assembling-machine-2 0 -20 12 120 14 0 0 0 0 24 3/4 150000 0 0 3 1 1 4/5 3/25 11/5 57/50 40 13200000 0 7524/25\n\
assembling-machine-2 0 0 0 -60 0 0 0 0 0 24 3/4 150000 0 0 3 1 1 1 0 2/5 1 32 1920000 0 192/5\n\
assembling-machine-2 0 0 0 -100 0 0 0 0 0 24 3/4 150000 0 0 3 1 1 1 0 1/5 1 32 960000 0 96/5\n\
assembling-machine-2 0 -15 10 50 10 0 0 0 0 24 3/4 150000 0 0 3 1 1 17/20 1/10 3/2 11/10 640/17 144000000/17 0 3168/17\n\
assembling-machine-3 0 0 0 0 0 0 0 0 0 1/2 5/4 375000 0 0 2 1 1 1 0 1 1 2/5 150000 0 4/5\n\
assembling-machine-3 0 80 0 200 0 0 0 0 0 8 5/4 375000 0 0 2 1 1 9/5 0 3 1 32/9 4000000 0 64/3\n\
assembling-machine-3 0 120 0 240 0 0 0 0 0 8 5/4 375000 0 0 2 1 1 11/5 0 17/5 1 32/11 40800000/11 0 1088/55\n\
assembling-machine-3 0 200 0 280 0 0 0 0 0 8 5/4 375000 0 0 2 1 1 3 0 19/5 1 32/15 3040000 0 1216/75\n\
assembling-machine-3 0 -20 16 160 20 0 0 0 0 15 5/4 375000 0 0 2 1 1 4/5 4/25 13/5 6/5 15 14625000 0 468/5\n\
assembling-machine-3 0 -40 24 240 28 0 0 0 0 15 5/4 375000 0 0 2 1 1 3/5 6/25 17/5 32/25 20 25500000 0 4352/25\n\
assembling-machine-3 0 -60 40 320 40 0 0 0 0 15 5/4 375000 0 0 2 1 1 2/5 2/5 21/5 7/5 30 47250000 0 1764/5\n\
assembling-machine-3 0 -60 40 320 40 4 0 28/5 0 15 5/4 375000 0 0 2 1 1 22/5 2/5 49/5 7/5 30/11 110250000/11 0 4116/55\n\
assembling-machine-3 0 -60 40 320 40 6 0 42/5 0 15 5/4 375000 0 0 2 1 1 32/5 2/5 63/5 7/5 15/8 8859375 0 1323/20\n\
assembling-machine-3 0 -60 40 320 40 8/5 0 4 0 15 5/4 375000 0 0 2 1 1 2 2/5 41/5 7/5 6 18450000 0 3444/25\n\
assembling-machine-3 0 0 0 -120 0 0 0 0 0 15 5/4 375000 0 0 2 1 1 1 0 1/5 1 12 900000 0 24/5\n\
assembling-machine-3 0 0 0 -200 0 0 0 -4 0 15 5/4 375000 0 0 2 1 1 1 0 1/5 1 12 900000 0 24/5\n\
assembling-machine-3 0 5 30 310 30 3/2 0 9/5 0 30 5/4 375000 0 0 2 1 1 51/20 3/10 59/10 13/10 160/17 354000000/17 0 12272/85\n\
burner-mining-drill 0 0 0 0 0 0 0 0 0 1 1/4 150000 1 2000000 10 1 1 1 0 1 1 4 600000 3/10 40\n\
burner-mining-drill 0 0 0 0 0 0 0 0 0 1 1/4 150000 1 4000000 10 1 1 1 0 1 1 4 600000 3/20 40\n\
burner-mining-drill 0 0 0 0 0 0 0 0 0 1 1/4 150000 1 12000000 10 1 1 1 0 1 1 4 600000 1/20 40\n\
electric-mining-drill 0 0 0 0 0 0 0 0 0 1 1/2 90000 0 0 10 1 1 1 0 1 1 2 180000 0 20\n\
electric-mining-drill 0 0 0 0 0 0 0 0 0 2 1/2 90000 0 0 10 1 1 1 0 1 1 4 360000 0 40\n\
electric-mining-drill 0 60 0 150 0 0 0 0 0 1 1/2 90000 0 0 10 1 1 8/5 0 5/2 1 5/4 281250 0 125/4\n\
electric-mining-drill 0 150 0 210 0 0 0 0 0 1 1/2 90000 0 0 10 1 1 5/2 0 31/10 1 4/5 223200 0 124/5\n\
electric-mining-drill 0 -15 12 120 15 0 0 0 0 1 1/2 90000 0 0 10 1 1 17/20 3/25 11/5 23/20 40/17 7920000/17 0 1012/17\n\
electric-mining-drill 0 -45 30 240 30 0 0 0 0 1 1/2 90000 0 0 10 1 1 11/20 3/10 17/5 13/10 40/11 12240000/11 0 1768/11\n\
electric-mining-drill 0 0 0 -90 0 0 0 0 0 1 1/2 90000 0 0 10 1 1 1 0 1/5 1 2 36000 0 4\n\
electric-mining-drill 0 0 0 0 0 4/5 0 2 0 1 1/2 90000 0 0 10 1 1 9/5 0 3 1 10/9 300000 0 100/3\n\
electric-mining-drill 0 -20 12 70 14 3 0 21/5 0 2 1/2 90000 0 0 10 1 1 19/5 3/25 59/10 57/50 20/19 10620000/19 0 354/5\n\
stone-furnace 0 0 0 0 0 0 0 0 0 16/5 1 90000 1 2000000 2 1 1 1 0 1 1 16/5 288000 18/125 32/5\n\
stone-furnace 0 0 0 0 0 0 0 0 0 16/5 1 90000 1 4000000 2 1 1 1 0 1 1 16/5 288000 9/125 32/5\n\
stone-furnace 0 0 0 0 0 0 0 0 0 16 1 90000 1 4000000 2 1 1 1 0 1 1 16 1440000 9/25 32\n\
steel-furnace 0 0 0 0 0 0 0 0 0 16/5 2 90000 1 4000000 4 1 1 1 0 1 1 8/5 144000 9/250 32/5\n\
steel-furnace 0 0 0 0 0 0 0 0 0 16 2 90000 1 12000000 4 1 1 1 0 1 1 8 720000 3/50 32\n\
steel-furnace 0 0 0 0 0 0 0 0 0 16 2 90000 1 100000000 4 1 1 1 0 1 1 8 720000 9/1250 32\n\
steel-furnace 0 0 0 0 0 0 0 0 0 16 2 90000 1 1210000000 4 1 1 1 0 1 1 8 720000 9/15125 32\n\
electric-furnace 0 0 0 0 0 0 0 0 0 16/5 2 180000 0 0 1 1 1 1 0 1 1 8/5 288000 0 8/5\n\
electric-furnace 0 60 0 120 0 0 0 0 0 16/5 2 180000 0 0 1 1 1 8/5 0 11/5 1 1 396000 0 11/5\n\
electric-furnace 0 -30 20 160 20 4 0 28/5 0 16/5 2 180000 0 0 1 1 1 47/10 1/5 41/5 6/5 16/47 23616000/47 0 3936/1175\n\
electric-furnace 0 0 0 -80 0 0 0 0 0 16 2 180000 0 0 1 1 1 1 0 1/5 1 8 288000 0 8/5\n\
chemical-plant 0 0 0 0 0 0 0 0 0 1 1 210000 0 0 4 1 1 1 0 1 1 1 210000 0 4\n\
chemical-plant 0 150 0 210 0 0 0 0 0 1 1 210000 0 0 4 1 1 5/2 0 31/10 1 2/5 260400 0 124/25\n\
chemical-plant 0 -45 30 240 30 4 0 28/5 0 1 1 210000 0 0 4 1 1 91/20 3/10 9 13/10 20/91 5400000/13 0 72/7\n\
chemical-plant 0 -15 12 120 15 3/5 0 3/2 0 24 1 210000 0 0 4 1 1 29/20 3/25 37/10 23/20 480/29 372960000/29 0 40848/145\n\
chemical-plant 0 30 0 -40 0 0 0 0 0 24 1 210000 0 0 4 1 1 13/10 0 3/5 1 240/13 30240000/13 0 576/13";

// Hidden from the proofs, which need not know the rows.
fn setups() -> &'static str {
    SETUPS
}

fn number(words: &[&str], place: usize) -> Ratio {
    match words.get(place) {
        Some(word) => read_ratio(word.as_bytes()).unwrap_or(Ratio::zero()),
        None => Ratio::zero(),
    }
}

fn hundredths(words: &[&str], place: usize) -> i64 {
    match words.get(place) {
        Some(word) => word.parse::<i64>().unwrap_or(0),
        None => 0,
    }
}

fn is_number(number: &Ratio, wanted: &Ratio) -> bool {
    number.cmp(wanted) == Ordering::Equal
}

fn is_word(value: &Ratio, words: &[&str], place: usize) -> bool {
    is_number(value, &number(words, place))
}

fn bonus(words: &[&str]) -> Bonus {
    Bonus {
        speed: hundredths(words, 2),
        productivity: hundredths(words, 3),
        consumption: hundredths(words, 4),
        pollution: hundredths(words, 5),
    }
}

fn beacons(words: &[&str]) -> BeaconSum {
    BeaconSum {
        speed: number(words, 6),
        productivity: number(words, 7),
        consumption: number(words, 8),
        pollution: number(words, 9),
    }
}

fn effects(words: &[&str]) -> Result<Effects, Wide> {
    effects_of(&number(words, 1), &bonus(words), &beacons(words))
}

fn given(words: &[&str]) -> Given {
    Given {
        time: number(words, 10),
        speed: number(words, 11),
        usage: number(words, 12),
        effectivity: number(words, 13),
        value: number(words, 14),
        emissions: number(words, 15),
        of_recipe: number(words, 16),
        of_fuel: number(words, 17),
    }
}

// The rates, where the machine does what it is set to do and has a fuel if it needs one.
#[tactic(auto, using(fractions::proofs::SignLemmas::positive_is))]
fn rates_in(game: &Game, setup: &Setup, effects: &Effects) -> Option<Result<Rates, Wide>>
    requires sound { IsSound game.now }
    requires setup { IsSoundSetup game.now setup.now }
{
    if !is_positive(&effects.speed) || check_machine(game, setup).is_err() {
        return None;
    }
    match fuel_use(game, setup) {
        Ok(_) => Some(rates_of(game, setup, effects)),
        Err(_) => None,
    }
}

fn rates(alloc: Global, words: &[&str], effects: &Effects) -> Option<Result<Rates, Wide>> {
    let given = given(words);
    match game_of(alloc, &given) {
        Some(game) => rates_in(&game, &setup_of(alloc, &given), effects),
        None => None,
    }
}

fn are_effects(effects: &Effects, words: &[&str]) -> bool {
    is_word(&effects.speed, words, 18)
        && is_word(&effects.productivity, words, 19)
        && is_word(&effects.consumption, words, 20)
        && is_word(&effects.pollution, words, 21)
}

// What a burner uses is no electric power.
fn is_power(power: &Ratio, words: &[&str]) -> bool {
    if is_positive(&number(words, 13)) {
        is_number(power, &Ratio::zero())
    } else {
        is_word(power, words, 23)
    }
}

fn are_rates(rates: &Option<Result<Rates, Wide>>, words: &[&str]) -> bool {
    match rates {
        Some(Ok(rates)) => {
            is_word(&rates.machines, words, 22)
                && is_power(&rates.power, words)
                && is_word(&rates.fuel, words, 24)
                && is_word(&rates.pollution, words, 25)
        }
        _ => false,
    }
}

fn is_row_so(alloc: Global, words: &[&str]) -> bool {
    match effects(words) {
        Ok(effects) => {
            are_effects(&effects, words) && are_rates(&rates(alloc, words, &effects), words)
        }
        Err(_) => false,
    }
}

fn is_line_so(alloc: Global, line: &str) -> Result<bool, NoMemory> {
    let words: Vec<&str> = line.split(' ').collect(alloc)?;
    Ok(words.len() == 26 && is_row_so(alloc, words.as_slice()))
}

#[test]
fn setups_of_the_real_game(rt: HostRuntime) -> Result<(), Fail> {
    for line in setups().lines() {
        if !is_line_so(rt.alloc(), line)? {
            panic!(rt; "{line}");
        }
    }
    Ok(())
}

fn is_slowest(effects: &Effects) -> bool {
    is_number(&effects.speed, &Ratio::part(1, 5))
        && is_number(&effects.productivity, &Ratio::zero())
        && is_number(&effects.consumption, &Ratio::one())
        && is_number(&effects.pollution, &Ratio::one())
}

// Modules of -120 hundredths in all: the speed is at its floor.
#[test]
fn speed_has_a_floor(rt: HostRuntime) {
    let words = ["four", "0", "-120", "0", "0", "0"];
    assert!(rt; matches!(&effects(words.as_slice()), Ok(effects) if is_slowest(effects)));
}

#[test]
fn without_modules_all_is_plain(rt: HostRuntime) {
    let plain = plain_effects();
    assert!(rt; is_number(&plain.speed, &Ratio::one()));
    assert!(rt; is_number(&plain.productivity, &Ratio::zero()));
}

fn returned() -> Product {
    Product {
        good: GoodId(0),
        low: Ratio::whole(41),
        high: Ratio::whole(41),
        probability: Ratio::one(),
        catalyst: Ratio::whole(40),
        temperature: None,
    }
}

fn is_yield(amount: &Result<Ratio, Wide>, wanted: &Ratio) -> bool {
    match amount {
        Ok(amount) => is_number(amount, wanted),
        Err(_) => false,
    }
}

#[test]
fn catalyst_is_not_multiplied(rt: HostRuntime) {
    let amount = yield_of(&returned(), &Ratio::part(2, 5));
    assert!(rt; is_yield(&amount, &Ratio::part(207, 5)));
}

// 1/10^32 machines, as fast as 10^17, fit; what they use of 1/10^15 watts doesn't.
const WIDE: &str =
    "m 0 0 0 0 0 0 0 0 0 1/1000000000000000 100000000000000000 1/1000000000000000 0 0 0 1 1";

fn wide() -> &'static str {
    WIDE
}

fn is_wide(rates: &Option<Result<Rates, Wide>>) -> bool {
    match rates {
        Some(Err(wide)) => wide.step == 5,
        _ => false,
    }
}

fn is_use_wide(alloc: Global) -> Result<bool, NoMemory> {
    let words: Vec<&str> = wide().split(' ').collect(alloc)?;
    let rates = rates(alloc, words.as_slice(), &plain_effects());
    Ok(is_wide(&rates))
}

#[test]
fn the_use_is_wide(rt: HostRuntime) -> Result<(), Fail> {
    assert!(rt; is_use_wide(rt.alloc())?);
    Ok(())
}
