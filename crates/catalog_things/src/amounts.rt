//! Amounts that are told only where they tell anything, or that may be past the limits.
ghost use Rattle.std.specs.Prelude.{◌≡◌, OnOk};
ghost use Rattle.serde_json.specs.View.{members_view};
ghost use Rattle.catalog_things.specs.Parts.{with_outcome, with_unless_one, with_unless_zero};

use catalog_members::{Members, put_amount, put_text};
use fractions::{Ratio, is_zero};
use game_types::Wide;
use plan_base::NoMemory;
use std::alloc::Global;

/// Puts a fraction, or that it is past the limits.
#[tactic(auto, unfolding(crate::specs::Parts::with_outcome))]
pub fn put_outcome(
    members: &mut Members,
    alloc: Global,
    key: &str,
    amount: Result<Ratio, Wide>,
) -> Result<(), NoMemory>
    ensures { OnOk result (members_view members.new.entries ≡ with_outcome key.now amount (members_view members.old.entries)) }
{
    match amount {
        Ok(amount) => put_amount(members, alloc, key, &amount),
        Err(_) => put_text(members, alloc, key, "wide"),
    }
}

/// Puts a fraction, unless it is 1.
#[tactic(auto, unfolding(crate::specs::Parts::with_unless_one))]
pub fn put_unless_one(
    members: &mut Members,
    alloc: Global,
    key: &str,
    number: &Ratio,
) -> Result<(), NoMemory>
    ensures { OnOk result (members_view members.new.entries ≡ with_unless_one key.now number.now (members_view members.old.entries)) }
{
    if *number == Ratio::one() {
        Ok(())
    } else {
        put_amount(members, alloc, key, number)
    }
}

/// Puts a fraction, unless it is 0.
#[tactic(auto, unfolding(crate::specs::Parts::with_unless_zero))]
pub fn put_unless_zero(
    members: &mut Members,
    alloc: Global,
    key: &str,
    number: &Ratio,
) -> Result<(), NoMemory>
    ensures { OnOk result (members_view members.new.entries ≡ with_unless_zero key.now number.now (members_view members.old.entries)) }
{
    if is_zero(number) {
        Ok(())
    } else {
        put_amount(members, alloc, key, number)
    }
}
