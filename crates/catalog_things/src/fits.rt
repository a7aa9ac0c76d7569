//! The goods that may stand for an ingredient.
ghost use Rattle.std.specs.Prelude.{◌≡◌, ◌-◌, ◌∷◌, [], IfOk, filter, if◌then◌else◌};
ghost use Rattle.catalog_things.specs.Choices.{fits_among, fits_by_itself, fits_of, is_node_within};

use depend_index::Index;
use game_types::{Game, Part, is_within};
use graph_store::list_of;
use plan_base::{GoodId, NoMemory, NodeId};
use std::alloc::Global;

// Whether a good that has no variants stands for its own ingredient.
fn fits_by_itself(game: &Game, part: &Part) -> bool
    ensures { result ≡ fits_by_itself game.now part.now }
{
    match game.fluid(part.good) {
        Some(fluid) => fluid.of.is_some() || is_within(&part.low, &part.high, &fluid.at),
        None => true,
    }
}

// Whether a node is a fluid within the bounds of an ingredient.
#[tactic(auto, unfolding(crate::specs::Choices::is_node_within))]
fn is_node_within(game: &Game, part: &Part, node: NodeId) -> bool
    ensures { result ≡ is_node_within game.now part.now node }
{
    match game.fluid(GoodId(node.0.saturating_sub(3))) {
        Some(fluid) => is_within(&part.low, &part.high, &fluid.at),
        None => false,
    }
}

// Those of some nodes that are within the bounds of an ingredient.
fn those_within(
    alloc: Global,
    game: &Game,
    part: &Part,
    variants: &[NodeId],
) -> Result<Vec<NodeId>, NoMemory>
    ensures { IfOk result (λ nodes. nodes.items ≡ filter (is_node_within game.now part.now) variants.now) }
{
    Ok(
        variants
            .iter()
            .copied()
            .filter(|node| is_node_within(game, part, *node))
            .collect(alloc)?,
    )
}

// The node of an ingredient's good, where the good stands for it.
fn own_alone(alloc: Global, game: &Game, part: &Part, own: NodeId) -> Result<Vec<NodeId>, NoMemory>
    ensures { IfOk result (λ nodes. nodes.items ≡ (if fits_by_itself game.now part.now then own ∷ [] else [])) }
{
    let mut nodes = Vec::new(alloc);
    if fits_by_itself(game, part) {
        nodes.push(own)?;
    }
    Ok(nodes)
}

fn fits_among(
    alloc: Global,
    game: &Game,
    part: &Part,
    own: NodeId,
    variants: &[NodeId],
) -> Result<Vec<NodeId>, NoMemory>
    ensures { IfOk result (λ nodes. nodes.items ≡ fits_among game.now part.now own variants.now) }
{
    match variants {
        [] => own_alone(alloc, game, part, own),
        [_, ..] => those_within(alloc, game, part, variants),
    }
}

/// The nodes of the goods that may stand for an ingredient whose good has this node: of a fluid that has variants those within the bounds,
/// the coolest first, else the good's own where it fits.
///
/// # Errors
///
/// `NoMemory` where memory could not be had.
#[tactic(auto, unfolding(crate::specs::Choices::fits_of))]
pub fn fits_of(
    alloc: Global,
    game: &Game,
    index: &Index,
    part: &Part,
    own: NodeId,
) -> Result<Vec<NodeId>, NoMemory>
    ensures { IfOk result (λ nodes. nodes.items ≡ fits_of game.now index.now part.now own) }
{
    let variants = list_of(index.coolest_variants.as_slice(), part.good.0);
    fits_among(alloc, game, part, own, variants)
}
