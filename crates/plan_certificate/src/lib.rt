//! Checkers of certificates: a plan, the prices that show that no plan costs less, and the prices that show that there is
//! no plan. They take no memory and know nothing of how a certificate was found.
#![tactic(auto)]

ghost use Rattle.std.specs.Prelude.{◌≡◌, ◌≢◌, ℕ, ◌<◌, ◌↔◌, List, length, slice_get, Some, IfErr, IsOk, IsTrue, OnOk, MatchResult};
ghost use Rattle.std.specs.Result.{OkIff};
ghost use Rattle.std.specs.Bool.{OnTrue, OnFalse};
ghost use Rattle.fractions.specs.Fraction.{Fraction, zero_fraction, ◌+ʳ◌, ◌*ʳ◌, ◌≤ʳ◌, ◌<ʳ◌};
ghost use Rattle.linear_table.specs.Plans.{good_count, column_count, column_part, column_price, number_at, want_at, IsWellFormed, IsPlan, cost_of, value_of, wants_value, AreLeastCostPrices, AreInfeasibilityPrices};
ghost use Rattle.linear_table.specs.Basis.{table_name};
ghost use Rattle.plan_certificate.specs.Formed.{ProductFits, IsFormed, sum_of_products};
ghost use Rattle.plan_certificate.specs.Faults.{HasNoNegative, IsBalanceFormed, balance_of, IsBalanced, IsNegativeAt, IsCostFormed, IsBalanceFault, IsPlanFault, IsAcceptedPlan, limit_at, IsValueFormed, IsWithin, AreWantsFormed, IsGainFault, IsPriceFault, AreAcceptedPrices, AreAcceptedRefusals};

use fractions::{Ratio, Wide};
use linear_table::{Column, Linear, Plan};
use plan_base::GoodId;

/// Why a certificate is refused: the first test that fails.
#[derive(Clone, Copy, Debug, PartialEq, Eq)]
pub enum CheckFault {
    /// There isn't one number per column, or per good.
    WrongLength,
    /// The rate of this column is below 0.
    Negative(Column),
    /// The plan makes another amount of this good than is wanted.
    Unbalanced(GoodId),
    /// At the prices this column is worth more than it costs or, where no plan is to be shown, more than 0.
    Gains(Column),
    /// The cost isn't that of the plan, or the wants aren't worth it or, where no plan is to be shown, not above 0.
    WrongValue,
    /// A step of a sum has a part past the limits of fractions, in place of what the sum would have decided.
    WideSum,
}

// The most that a column may be worth.
#[derive(Clone, Copy, Debug, PartialEq, Eq)]
enum Limit {
    OwnPrice,
    Nothing,
}

// The number at a place.
fn number(numbers: &[Ratio], place: usize) -> Ratio
    requires { place < length numbers.now }
    ensures { result ≡ number_at numbers.now place }
{
    numbers[place]
}

// A sum with one more product.
fn add_product(sum: &Ratio, left: &Ratio, right: &Ratio) -> Result<Ratio, Wide>
    ensures { OkIff result (ProductFits sum.now left.now right.now) (sum.now +ʳ left.now *ʳ right.now) }
{
    let Ok(product) = left.mul(right) else {
        return Err(Wide);
    };
    sum.add(&product)
}

// The sum of a good's parts times the rates, in the order of columns.
fn balance(linear: &Linear, rates: &[Ratio], good: usize) -> Result<Ratio, Wide>
    requires { length rates.now ≡ column_count linear.now }
    ensures { OkIff result (IsBalanceFormed linear.now rates.now good) (balance_of linear.now rates.now good) }
{
    let mut sum = Ratio::zero();
    for j in 0..rates.len() {
        let amount = linear.part(j, good);
        let rate = number(rates, j);
        let Ok(next) = add_product(&sum, &amount, &rate) else {
            return Err(Wide);
        };
        sum = next;
    }
    Ok(sum)
}

// The sum of the rates times the columns' prices, in the order of columns.
fn cost(linear: &Linear, rates: &[Ratio]) -> Result<Ratio, Wide>
    requires { length rates.now ≡ column_count linear.now }
    ensures { OkIff result (IsCostFormed linear.now rates.now) (cost_of linear.now rates.now) }
{
    let mut sum = Ratio::zero();
    for j in 0..rates.len() {
        let rate = number(rates, j);
        let price = linear.price(j);
        let Ok(next) = add_product(&sum, &rate, &price) else {
            return Err(Wide);
        };
        sum = next;
    }
    Ok(sum)
}

// The sum of a column's parts times the prices, in the order of goods.
fn column_value(linear: &Linear, prices: &[Ratio], column: usize) -> Result<Ratio, Wide>
    requires length { length prices.now ≡ good_count linear.now }
    requires inside { column < column_count linear.now }
    ensures { OkIff result (IsValueFormed linear.now prices.now column) (value_of linear.now prices.now column) }
{
    let mut sum = Ratio::zero();
    for g in 0..prices.len() {
        let amount = linear.part(column, g);
        let price = number(prices, g);
        let Ok(next) = add_product(&sum, &amount, &price) else {
            return Err(Wide);
        };
        sum = next;
    }
    Ok(sum)
}

// The sum of the wants times the prices, in the order of goods.
fn value_of_wants(linear: &Linear, prices: &[Ratio]) -> Result<Ratio, Wide>
    requires length { length prices.now ≡ good_count linear.now }
    requires wants { length linear.now.wants ≡ good_count linear.now }
    ensures { OkIff result (AreWantsFormed linear.now prices.now) (wants_value linear.now prices.now) }
{
    let mut sum = Ratio::zero();
    for g in 0..prices.len() {
        let want = linear.want(g);
        let price = number(prices, g);
        let Ok(next) = add_product(&sum, &want, &price) else {
            return Err(Wide);
        };
        sum = next;
    }
    Ok(sum)
}

// Whether no rate is below 0; else the first column whose rate is.
fn check_signs(linear: &Linear, rates: &[Ratio]) -> Result<(), Column>
    requires { length rates.now ≡ column_count linear.now }
    ensures { MatchResult result (λ _. HasNoNegative linear.now rates.now) (IsNegativeAt linear.now rates.now) }
{
    for j in 0..rates.len() {
        let rate = number(rates, j);
        if rate.is_neg() {
            return Err(linear.name(j));
        }
    }
    Ok(())
}

// Whether each good is balanced; else what fails of the first that isn't.
fn check_balance(linear: &Linear, rates: &[Ratio]) -> Result<(), CheckFault>
    requires length { length rates.now ≡ column_count linear.now }
    requires wants { length linear.now.wants ≡ good_count linear.now }
    ensures { MatchResult result (λ _. IsBalanced linear.now rates.now) (IsBalanceFault linear.now rates.now) }
{
    for g in 0..linear.goods.len() {
        let Ok(sum) = balance(linear, rates, g) else {
            return Err(CheckFault::WideSum);
        };
        let want = linear.want(g);
        if sum != want {
            return Err(CheckFault::Unbalanced(linear.good(g)));
        }
    }
    Ok(())
}

// The most that a column may be worth.
fn limit_of(linear: &Linear, limit: Limit, column: usize) -> Ratio
    requires { column < column_count linear.now }
    ensures { result ≡ limit_at linear.now limit column }
{
    match limit {
        Limit::OwnPrice => linear.price(column),
        Limit::Nothing => Ratio::zero(),
    }
}

// Whether no column is worth more than the limit; else what fails of the first that is.
fn check_values(linear: &Linear, limit: Limit, prices: &[Ratio]) -> Result<(), CheckFault>
    requires { length prices.now ≡ good_count linear.now }
    ensures { MatchResult result (λ _. IsWithin linear.now limit prices.now) (IsGainFault linear.now limit prices.now) }
{
    for j in 0..linear.columns.len() {
        let Ok(value) = column_value(linear, prices, j) else {
            return Err(CheckFault::WideSum);
        };
        let most = limit_of(linear, limit, j);
        if value > most {
            return Err(CheckFault::Gains(linear.name(j)));
        }
    }
    Ok(())
}

// Whether these rates are a plan of this cost.
fn check_rates(linear: &Linear, rates: &[Ratio], stated: &Ratio) -> Result<(), CheckFault>
    requires { length linear.now.wants ≡ good_count linear.now }
    ensures { MatchResult result (λ _. IsAcceptedPlan linear.now rates.now stated.now) (IsPlanFault linear.now rates.now stated.now) }
{
    if rates.len() != linear.columns.len() {
        return Err(CheckFault::WrongLength);
    }
    if let Err(column) = check_signs(linear, rates) {
        return Err(CheckFault::Negative(column));
    }
    if let Err(fault) = check_balance(linear, rates) {
        return Err(fault);
    }
    let Ok(sum) = cost(linear, rates) else {
        return Err(CheckFault::WideSum);
    };
    if sum != *stated {
        return Err(CheckFault::WrongValue);
    }
    Ok(())
}

/// Whether the rates of a plan are a plan of the table, and its cost is theirs.
///
/// # Errors
///
/// The first test that fails, in this order: one rate per column, no rate below 0, the balance of each good in turn, the
/// cost. `WideSum` comes in place of what a sum with a wide step would have decided.
pub fn check_plan(linear: &Linear, plan: &Plan) -> Result<(), CheckFault>
    requires { IsWellFormed linear.now }
    ensures ok { IsOk result ↔ IsAcceptedPlan linear.now plan.now.rates plan.now.cost }
    ensures fault { IfErr result (IsPlanFault linear.now plan.now.rates plan.now.cost) }
{
    check_rates(linear, plan.rates.as_slice(), &plan.cost)
}

// Whether these prices show that no plan costs less than this.
fn check_least(linear: &Linear, prices: &[Ratio], stated: &Ratio) -> Result<(), CheckFault>
    requires { length linear.now.wants ≡ good_count linear.now }
    ensures { MatchResult result (λ _. AreAcceptedPrices linear.now prices.now stated.now) (IsPriceFault linear.now Limit.OwnPrice prices.now (wants_value linear.now prices.now ≡ stated.now)) }
{
    if prices.len() != linear.goods.len() {
        return Err(CheckFault::WrongLength);
    }
    if let Err(fault) = check_values(linear, Limit::OwnPrice, prices) {
        return Err(fault);
    }
    let Ok(sum) = value_of_wants(linear, prices) else {
        return Err(CheckFault::WideSum);
    };
    if sum != *stated {
        return Err(CheckFault::WrongValue);
    }
    Ok(())
}

/// Whether the prices of a plan show that no plan of the table costs less than its cost.
///
/// # Errors
///
/// The first test that fails, in this order: one price per good, the value of each column in turn, the value of the wants.
/// `WideSum` comes in place of what a sum with a wide step would have decided.
pub fn check_prices(linear: &Linear, plan: &Plan) -> Result<(), CheckFault>
    requires { IsWellFormed linear.now }
    ensures ok { IsOk result ↔ AreAcceptedPrices linear.now plan.now.prices plan.now.cost }
    ensures fault { IfErr result (IsPriceFault linear.now Limit.OwnPrice plan.now.prices (wants_value linear.now plan.now.prices ≡ plan.now.cost)) }

    // No plan costs less.
    ensures cheapest { OnOk result ((rates : List Fraction) → IsPlan linear.now rates → plan.now.cost ≤ʳ cost_of linear.now rates) }
{
    check_least(linear, plan.prices.as_slice(), &plan.cost)
}

// Whether these prices show that there is no plan.
fn check_none(linear: &Linear, prices: &[Ratio]) -> Result<(), CheckFault>
    requires { length linear.now.wants ≡ good_count linear.now }
    ensures { MatchResult result (λ _. AreAcceptedRefusals linear.now prices.now) (IsPriceFault linear.now Limit.Nothing prices.now (zero_fraction <ʳ wants_value linear.now prices.now)) }
{
    if prices.len() != linear.goods.len() {
        return Err(CheckFault::WrongLength);
    }
    if let Err(fault) = check_values(linear, Limit::Nothing, prices) {
        return Err(fault);
    }
    let Ok(sum) = value_of_wants(linear, prices) else {
        return Err(CheckFault::WideSum);
    };
    if !sum.is_positive() {
        return Err(CheckFault::WrongValue);
    }
    Ok(())
}

/// Whether prices show that the table has no plan.
///
/// # Errors
///
/// The first test that fails, in this order: one price per good, the value of each column in turn, the value of the wants.
/// `WideSum` comes in place of what a sum with a wide step would have decided.
pub fn check_infeasible(linear: &Linear, prices: &[Ratio]) -> Result<(), CheckFault>
    requires { IsWellFormed linear.now }
    ensures ok { IsOk result ↔ AreAcceptedRefusals linear.now prices.now }
    ensures fault { IfErr result (IsPriceFault linear.now Limit.Nothing prices.now (zero_fraction <ʳ wants_value linear.now prices.now)) }
    ensures no_plan { OnOk result ((rates : List Fraction) → ¬ IsPlan linear.now rates) }
{
    check_none(linear, prices)
}
