//! Plans, prices and weights that are checked: a gear from two plates for nothing, and 10 gears a second wanted.
use fractions::{Ratio, read_ratio};
use linear_table::{Column, Linear, LinearColumn, Plan};
use plan_base::{GoodId, Items, NoMemory};
use plan_certificate::{CheckFault, check_infeasible, check_plan, check_prices};
use std::alloc::Global;
use std::test::Fail;

const PLATE: GoodId = GoodId(3);

const GEAR: GoodId = GoodId(5);

// Each line has the rates of gears and of plates that are brought in at 1, what they cost, and what is said of that plan.
const PLANS: &str = "\
10 20 20 yes\n\
10 -20 19 negative\n\
10 21 19 plates\n\
9 18 19 gears\n\
large 20 19 wide\n\
10 20 19 value";

// Each line has the prices of a plate and of a gear, a cost, and what is said of them.
const PRICES: &str = "\
1 2 20 yes\n\
1 3 20 line gains\n\
2 2 20 import gains\n\
1 1 20 value";

// Each line has the weights of a plate and of a gear where no plate is brought in, and what is said of them.
const WEIGHTS: &str = "\
1/2 1 0 yes\n\
0 0 0 value\n\
0 1 0 line gains";

// Hidden from the proofs, which need not know the lines.
fn plan_lines() -> &'static str {
    PLANS
}

fn price_lines() -> &'static str {
    PRICES
}

fn weight_lines() -> &'static str {
    WEIGHTS
}

// 2^126, which no text writes.
fn large() -> Ratio {
    let half = Ratio::whole(1 << 62);
    let square = half.mul(&half).unwrap_or(half);
    square.mul(&Ratio::whole(4)).unwrap_or(half)
}

fn fraction(text: &str) -> Ratio {
    if text == "large" {
        return large();
    }
    read_ratio(text.as_bytes()).unwrap_or(Ratio::zero())
}

fn said(outcome: &Result<(), CheckFault>) -> &'static str {
    let Err(fault) = outcome else {
        return "yes";
    };
    match fault {
        CheckFault::WrongLength => "length",
        CheckFault::Negative(_) => "negative",
        CheckFault::Unbalanced(good) => if *good == PLATE { "plates" } else { "gears" },
        CheckFault::Gains(Column::Line(_)) => "line gains",
        CheckFault::Gains(_) => "import gains",
        CheckFault::WrongValue => "value",
        CheckFault::WideSum => "wide",
    }
}

fn column(
    alloc: Global,
    column: Column,
    price: Ratio,
    parts: &[(u32, Ratio)],
) -> Result<LinearColumn, NoMemory> {
    let parts = Vec::from_slice(alloc, parts)?;
    Ok(LinearColumn {
        column,
        price,
        parts: Items::from_vec(parts),
    })
}

fn gear_column(alloc: Global) -> Result<LinearColumn, NoMemory> {
    let parts = [(0, Ratio::whole(-2)), (1, Ratio::one())];
    column(alloc, Column::Line(0), Ratio::zero(), &parts)
}

fn plate_column(alloc: Global) -> Result<LinearColumn, NoMemory> {
    column(
        alloc,
        Column::Import(PLATE),
        Ratio::one(),
        &[(0, Ratio::one())],
    )
}

fn one_column(alloc: Global) -> Result<Vec<LinearColumn>, NoMemory> {
    let gear = gear_column(alloc)?;
    let mut columns = Vec::new(alloc);
    columns.push(gear)?;
    Ok(columns)
}

fn two_columns(alloc: Global) -> Result<Vec<LinearColumn>, NoMemory> {
    let plate = plate_column(alloc)?;
    let mut columns = one_column(alloc)?;
    columns.push(plate)?;
    Ok(columns)
}

fn goods(alloc: Global) -> Result<Items<GoodId>, NoMemory> {
    let goods = Vec::from_slice(alloc, &[PLATE, GEAR])?;
    Ok(Items::from_vec(goods))
}

fn numbers(alloc: Global, first: &str, second: &str) -> Result<Items<Ratio>, NoMemory> {
    let numbers = Vec::from_slice(alloc, &[fraction(first), fraction(second)])?;
    Ok(Items::from_vec(numbers))
}

fn table(alloc: Global, columns: Vec<LinearColumn>) -> Result<Linear, NoMemory> {
    let goods = goods(alloc)?;
    let wants = numbers(alloc, "0", "10")?;
    Ok(Linear {
        goods,
        columns: Items::from_vec(columns),
        wants,
    })
}

fn plan(
    alloc: Global,
    rates: (&str, &str),
    prices: (&str, &str),
    cost: &str,
) -> Result<Plan, NoMemory> {
    let rates = numbers(alloc, rates.0, rates.1)?;
    let prices = numbers(alloc, prices.0, prices.1)?;
    Ok(Plan {
        rates,
        cost: fraction(cost),
        prices,
    })
}

fn is_plan_so(linear: &Linear, plan: &Plan, wanted: &str) -> bool {
    linear.is_well_formed() && said(&check_plan(linear, plan)) == wanted
}

fn are_prices_so(linear: &Linear, plan: &Plan, wanted: &str) -> bool {
    linear.is_well_formed() && said(&check_prices(linear, plan)) == wanted
}

fn are_weights_so(linear: &Linear, weights: &[Ratio], wanted: &str) -> bool {
    linear.is_well_formed() && said(&check_infeasible(linear, weights)) == wanted
}

// The three numbers of a line, and what is said.
fn parts(line: &str) -> Option<(&str, &str, &str, &str)> {
    let (first, rest) = line.split_once(' ')?;
    let (second, rest) = rest.split_once(' ')?;
    let (third, said) = rest.split_once(' ')?;
    Some((first, second, third, said))
}

fn says_of_plan(alloc: Global, line: &str) -> Result<bool, NoMemory> {
    let Some((gear, import, cost, wanted)) = parts(line) else {
        return Ok(false);
    };
    let plan = plan(alloc, (gear, import), ("1", "2"), cost)?;
    let linear = table(alloc, two_columns(alloc)?)?;
    Ok(is_plan_so(&linear, &plan, wanted))
}

fn says_of_prices(alloc: Global, line: &str) -> Result<bool, NoMemory> {
    let Some((plate, gear, cost, wanted)) = parts(line) else {
        return Ok(false);
    };
    let plan = plan(alloc, ("10", "20"), (plate, gear), cost)?;
    let linear = table(alloc, two_columns(alloc)?)?;
    Ok(are_prices_so(&linear, &plan, wanted))
}

fn says_of_weights(alloc: Global, line: &str) -> Result<bool, NoMemory> {
    let Some((plate, gear, _, wanted)) = parts(line) else {
        return Ok(false);
    };
    let weights = numbers(alloc, plate, gear)?;
    let linear = table(alloc, one_column(alloc)?)?;
    Ok(are_weights_so(&linear, weights.as_slice(), wanted))
}

fn says_of_one_weight(alloc: Global) -> Result<bool, NoMemory> {
    let linear = table(alloc, one_column(alloc)?)?;
    Ok(are_weights_so(&linear, &[Ratio::one()], "length"))
}

#[test]
fn plans_are_checked(rt: HostRuntime) -> Result<(), Fail> {
    for line in plan_lines().lines() {
        if !says_of_plan(rt.alloc(), line)? {
            panic!(rt; "{line}");
        }
    }
    Ok(())
}

#[test]
fn prices_are_checked(rt: HostRuntime) -> Result<(), Fail> {
    for line in price_lines().lines() {
        if !says_of_prices(rt.alloc(), line)? {
            panic!(rt; "{line}");
        }
    }
    Ok(())
}

#[test]
fn weights_are_checked(rt: HostRuntime) -> Result<(), Fail> {
    for line in weight_lines().lines() {
        if !says_of_weights(rt.alloc(), line)? {
            panic!(rt; "{line}");
        }
    }
    assert!(rt; says_of_one_weight(rt.alloc())?);
    Ok(())
}
