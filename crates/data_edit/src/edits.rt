//! Edits, and why they are refused.
ghost use Rattle.std.specs.Prelude.{◌≡◌};

use fractions::Ratio;
use plan_base::{Denied, GoodId, NodeId, RecipeId, TechId};

/// The most entries that a list of a recipe or of a technology may have after an edit.
pub const LIST_LIMIT: usize = 1_024;

/// A change of a game or of its marks.
#[derive(Clone, Copy)]
pub enum Edit {
    /// A recipe takes this amount of a good, at any temperature, in place of all that it took of it.
    SetIngredient {
        recipe: RecipeId,
        good: GoodId,
        amount: Ratio,
    },
    /// A recipe takes nothing of a good.
    DropIngredient {
        recipe: RecipeId,
        good: GoodId,
    },
    /// A recipe gives exactly this amount of a good, in place of all that it gave of it.
    SetProduct {
        recipe: RecipeId,
        good: GoodId,
        amount: Ratio,
    },
    /// A recipe gives nothing of a good.
    DropProduct {
        recipe: RecipeId,
        good: GoodId,
    },
    /// A technology unlocks a recipe, or doesn't.
    SetUnlock {
        tech: TechId,
        recipe: RecipeId,
        on: bool,
    },
    /// One craft takes this many seconds at a crafting speed of 1.
    SetTime {
        recipe: RecipeId,
        time: Ratio,
    },
    /// A recipe is known without research, or isn't.
    SetEnabled {
        recipe: RecipeId,
        on: bool,
    },
    /// A node is barred.
    Forbid(NodeId),
    /// A node is barred no more.
    Permit(NodeId),
    /// A node is granted.
    Grant(NodeId),
    /// A node is granted no more.
    Revoke(NodeId),
}

/// Why an edit is refused.
#[derive(Clone, Copy, Debug, PartialEq, Eq)]
pub enum EditFault {
    /// X1: an id isn't below its count.
    Unknown,
    /// X3: an amount or a time isn't positive.
    NotPositive,
    /// X2: the book would be as before.
    NoChange,
    /// X4: a list would be longer than 1,024.
    Limit,
}

impl From<EditFault> for Denied<EditFault> {
    ghost use Rattle.plan_base.specs.declared.denied.Denied.TheVariants.{Refused};

    ghost from_gives = { λ fault denied. denied ≡ Refused fault };

    fn from(fault: EditFault) -> Self {
        Denied::Refused(fault)
    }
}
