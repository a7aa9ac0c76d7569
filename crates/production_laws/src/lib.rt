//! Laws of production tables: every good balances in every plan, electricity and technologies among them, and what one craft
//! takes.
#![tactic(auto)]

mod launches;
mod laws;

pub use launches::{
    dumps_have_their_launches, items_choose_themselves, launches_are_reached_by_their_parts,
    launches_take_item_and_parts, productivity_adds_nothing_to_launches,
};
pub use laws::{
    columns_sum, crafts_give_and_take, goods_balance, labs_take_packs, plans_are_balances,
    power_balances, research_balances,
};
