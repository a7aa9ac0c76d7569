//! What a page shows of a thing and no rule reads.
ghost use Rattle.std.specs.Prelude.{◌≡◌, OnOk};
ghost use Rattle.std.specs.Option.{option_copied};
ghost use Rattle.serde_json.specs.View.{members_view};
ghost use Rattle.catalog_text.specs.Things.{with_shown, with_shown_where};

use crate::fields::Shown;
use catalog_members::{Members, put_amount_where, put_true, put_words};
use plan_base::NoMemory;
use std::alloc::Global;

// Puts what is shown of a thing.
#[tactic(auto, unfolding(crate::specs::Things::with_shown))]
fn put_shown(members: &mut Members, alloc: Global, shown: &Shown) -> Result<(), NoMemory>
    ensures { OnOk result (members_view members.new.entries ≡ with_shown shown.now (members_view members.old.entries)) }
{
    put_words(members, alloc, "order", shown.order.as_slice())?;
    put_true(members, alloc, "hidden", shown.hidden)?;
    put_amount_where(members, alloc, "stack", &shown.stack)?;
    put_amount_where(members, alloc, "belt", &shown.belt)
}

/// Puts what is shown, where something is.
#[tactic(auto, unfolding(crate::specs::Things::with_shown_where))]
pub fn put_shown_where(
    members: &mut Members,
    alloc: Global,
    shown: Option<&Shown>,
) -> Result<(), NoMemory>
    ensures { OnOk result (members_view members.new.entries ≡ with_shown_where (option_copied shown.entry) (members_view members.old.entries)) }
{
    match shown {
        Some(shown) => put_shown(members, alloc, shown),
        None => Ok(()),
    }
}
