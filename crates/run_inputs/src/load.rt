// From the bytes of a dump to a planner.
ghost use Rattle.std.specs.Prelude.{◌≡◌, ◌≢◌, ◌≤◌, ◌-◌, ◌<◌, IfOk, MatchResult};
ghost use Rattle.game_types.specs.Sound.{IsSound};
ghost use Rattle.game_types.specs.declared.games.Game.{Game};
ghost use Rattle.graph_store.specs.Rows.{member_count};
ghost use Rattle.depend_rows.specs.Rows.{rows_of};
ghost use Rattle.game_reader.specs.Games.{HasFault, HasGame};
ghost use Rattle.planner_core.specs.Lines.{first_planned};
ghost use Rattle.run_inputs.specs.Base.{HasBase, load_work, members_fault};
ghost use Rattle.run_inputs.specs.Early.{EndsLoading};

use crate::status::Status;
use craft_reader::{DumpCode, DumpFault};
use game_reader::read_dump;
use game_types::Game;
use plan_base::{Steps, Text};
use planner_core::{LoadFault, Planner};
use std::alloc::Global;

// The end by a fault of a dump. Want of memory is none.
fn end_by(fault: DumpFault) -> Status
    ensures memory { fault.code ≡ DumpCode.NoMemory → result ≡ Status.NoMemory }
    ensures refused { fault.code ≢ DumpCode.NoMemory → result ≡ Status.BadDump fault }
{
    match fault.code {
        DumpCode::NoMemory => Status::NoMemory,
        _ => Status::BadDump(fault),
    }
}

// The fault of a game whose rows have too many members.
fn members_fault(alloc: Global) -> DumpFault
    ensures { result.code ≢ DumpCode.NoMemory → result ≡ members_fault }
{
    let Ok(field) = Text::copy(alloc, "members") else {
        return DumpFault::of_code(alloc, DumpCode::NoMemory);
    };
    let mut fault = DumpFault::of_code(alloc, DumpCode::Limit);
    fault.field = field;
    fault
}

// The game of a dump. The dump's bytes are given back.
fn game_of(alloc: Global, dump: Vec<u8>) -> Result<Game, DumpFault>
    ensures sound { IfOk result IsSound }
    ensures game { MatchResult result (HasGame dump.items) (λ fault. fault.code ≢ DumpCode.NoMemory → HasFault dump.items fault) }
{
    read_dump(alloc, &dump)
}

// The planner of a game.
fn plan<L>(alloc: Global, game: Game, steps: &mut Steps<L>) -> Result<Planner, DumpFault>
    requires { IsSound game }
    ensures planner { MatchResult result
        (λ planner. (planner ≡ first_planned game) × (member_count (rows_of game) ≤ 4_194_304) × (steps.new - steps.old ≤ load_work game))
        (λ fault. fault.code ≢ DumpCode.NoMemory → (4_194_304 < member_count (rows_of game)) × (fault ≡ members_fault)) }
    ensures later { steps.old ≤ steps.new }
{
    match Planner::load(alloc, game, steps) {
        Ok(planner) => Ok(planner),
        Err(LoadFault::Members) => Err(members_fault(alloc)),
        Err(LoadFault::NoMemory) => Err(DumpFault::of_code(alloc, DumpCode::NoMemory)),
    }
}

/// The planner of the game of a dump. The dump's bytes are given back before the planner is made.
///
/// # Errors
///
/// `BadDump` with the first fault of the dump, or for the members of its rows, or `NoMemory`.
pub fn load<L>(alloc: Global, dump: Vec<u8>, steps: &mut Steps<L>) -> Result<Planner, Status>
    ensures planner { MatchResult result
        (λ planner. (game : Game) × HasBase dump.items game × (planner ≡ first_planned game) × (steps.new - steps.old ≤ load_work game))
        (λ status. EndsLoading dump.items status (steps.new - steps.old)) }
    ensures later { steps.old ≤ steps.new }
{
    match game_of(alloc, dump) {
        Ok(game) => match plan(alloc, game, steps) {
            Ok(planner) => Ok(planner),
            Err(fault) => Err(end_by(fault)),
        },
        Err(fault) => Err(end_by(fault)),
    }
}
