//! What a column of a plan gives and takes.
ghost use Rattle.std.specs.Prelude.{◌≡◌, IfOk};
ghost use Rattle.page_parts.specs.Flows.{flows_of, product};

use crate::amounts::{Amount, Flow};
use fractions::{Ratio, is_positive};
use plan_base::NoMemory;
use std::alloc::Global;

// The product, within the limits of fractions.
fn product(left: &Ratio, right: &Ratio) -> Amount
    ensures { result ≡ product left.now right.now }
{
    match left.mul(right) {
        Ok(value) => Amount::Exact(value),
        Err(_) => Amount::Wide,
    }
}

#[tactic(auto, using(crate::proofs::FlowLemmas::flows_next, crate::proofs::FlowLemmas::flows_end))]
/// The flows of a column of these parts at a rate: for each part, that part times the rate.
pub fn column_flows(
    alloc: Global,
    parts: &[(u32, Ratio)],
    rate: &Ratio,
) -> Result<Vec<Flow>, NoMemory>
    ensures { IfOk result (λ flows. flows.items ≡ flows_of rate.now parts.now) }
{
    let mut flows = Vec::new(alloc);
    for part in parts {
        let amount = product(&part.1, rate);
        flows.push(Flow {
            good: part.0,
            gives: is_positive(&part.1),
            amount,
        })?;
    }
    Ok(flows)
}
