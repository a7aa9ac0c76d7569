//! Where the nodes of each kind begin.
ghost use Rattle.std.specs.Prelude.{◌≡◌, ◌+◌, ◌≤◌, length};
ghost use Rattle.game_types.specs.Sound.{IsSound};
ghost use Rattle.depend_index.specs.Goods.{first_machine, first_recipe, first_source, first_tech, good_count};

use game_types::Game;
use plan_base::Kind;

/// How many goods there are.
pub fn good_count(game: &Game) -> u32
    requires { IsSound game.now }
    ensures goods { result ≡ good_count game.now }
    ensures few { 3 + result ≤ 131072 }
{
    let shape = game.shape();
    shape.items + shape.fluids
}

/// The number of the first fluid's node.
pub fn first_fluid(game: &Game) -> u32
    requires { IsSound game.now }
    ensures first { result ≡ 3 + length game.now.items }
    ensures few { result + length game.now.fluids ≤ 131072 }
{
    game.shape().first_of(Kind::Fluid)
}

/// The number of the first recipe's node.
pub fn first_recipe(game: &Game) -> u32
    requires { IsSound game.now }
    ensures first { result ≡ first_recipe game.now }
    ensures few { result + length game.now.recipes ≤ 131072 }
{
    game.shape().first_of(Kind::Recipe)
}

/// The number of the first source's node.
pub fn first_source(game: &Game) -> u32
    requires { IsSound game.now }
    ensures first { result ≡ first_source game.now }
    ensures few { result + length game.now.sources ≤ 131072 }
{
    game.shape().first_of(Kind::Source)
}

/// The number of the first machine's node.
pub fn first_machine(game: &Game) -> u32
    requires { IsSound game.now }
    ensures first { result ≡ first_machine game.now }
    ensures few { result + length game.now.machines ≤ 131072 }
{
    game.shape().first_of(Kind::Machine)
}

/// The number of the first technology's node.
pub fn first_tech(game: &Game) -> u32
    requires { IsSound game.now }
    ensures first { result ≡ first_tech game.now }
    ensures few { result + length game.now.techs ≤ 131072 }
{
    game.shape().first_of(Kind::Tech)
}
