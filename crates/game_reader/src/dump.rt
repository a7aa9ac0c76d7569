//! From the bytes of a dump to the typed game.
ghost use Rattle.std.specs.Prelude.{◌≡◌, ◌≢◌, Err, IfErr, IfOk, MatchResult, Ok};
ghost use Rattle.dump_reader.specs.Draft.{draft_seen};
ghost use Rattle.dump_reader.specs.Sound.{IsSoundDraft};
ghost use Rattle.craft_reader.specs.Faults.{GivesDump, IsBare};
ghost use Rattle.game_types.specs.Sound.{ArePlain, IsSound};
ghost use Rattle.game_reader.specs.Games.{HasDraft, HasFault, HasGame, finished, json_fault, resolved};

use crate::keys::dump_wanted;
use crate::links::link;
use craft_reader::{DumpCode, DumpFault};
use dump_reader::{Draft, read_draft};
use fluid_variants::split_fluids;
use game_types::Game;
use json_text::{JsonCode, JsonFault, read_spans};
use rocket_launches::add_launches;
use std::alloc::Global;

// The fault of a text that is no JSON.
fn no_json(alloc: Global, fault: JsonFault) -> DumpFault
    ensures json { result.code ≢ DumpCode.NoMemory → result ≡ json_fault fault }
    ensures memory { fault.code ≡ JsonCode.NoMemory → result.code ≡ DumpCode.NoMemory }
    ensures bare { IsBare result }
{
    match fault.code {
        JsonCode::NoMemory => DumpFault::of_code(alloc, DumpCode::NoMemory),
        _ => DumpFault::of_code(alloc, DumpCode::Json(fault)),
    }
}

// What the first pass makes of a dump.
fn draft_of_bytes(alloc: Global, bytes: &[u8]) -> Result<Draft, DumpFault>
    ensures draft { MatchResult result (λ draft. HasDraft bytes.now (draft_seen draft)) (λ fault. fault.code ≢ DumpCode.NoMemory → HasFault bytes.now fault) }
    ensures sound { IfOk result (λ draft. IsSoundDraft (draft_seen draft)) }
    ensures bare { IfErr result IsBare }
{
    let Ok(wanted) = dump_wanted(alloc) else {
        return Err(DumpFault::of_code(alloc, DumpCode::NoMemory));
    };
    let tree = match read_spans(alloc, bytes, &wanted) {
        Ok(tree) => tree,
        Err(fault) => return Err(no_json(alloc, fault)),
    };
    read_draft(alloc, &tree)
}

// A game with its launches, and with its fluids by temperature.
#[tactic(auto, unfolding(crate::specs::Games::finished))]
fn finish(alloc: Global, game: Game) -> Result<Game, DumpFault>
    requires sound { IsSound game }
    requires plain { ArePlain game.fluids }
    ensures gives { GivesDump (finished game) result }
    ensures sound { IfOk result IsSound }
{
    let game = add_launches(alloc, game)?;
    split_fluids(alloc, game)
}

// The game of what a first pass left.
#[tactic(auto, unfolding(crate::specs::Games::resolved))]
fn resolve(alloc: Global, draft: Draft) -> Result<Game, DumpFault>
    requires { IsSoundDraft (draft_seen draft) }
    ensures gives { GivesDump (resolved (draft_seen draft)) result }
    ensures sound { IfOk result IsSound }
{
    let game = link(alloc, draft)?;
    finish(alloc, game)
}

// An answer as the call gives it: of want of memory nothing else is said.
fn settled(alloc: Global, answer: Result<Game, DumpFault>) -> Result<Game, DumpFault>
    ensures same { MatchResult result (λ game. answer ≡ Ok game) (λ fault. fault.code ≢ DumpCode.NoMemory → answer ≡ Err fault) }
    ensures bare { IfErr result IsBare }
{
    match answer {
        Ok(game) => Ok(game),
        Err(fault) => Err(fault.settled(alloc)),
    }
}

/// The game of a dump.
///
/// # Errors
///
/// The first fault of the dump: of its JSON with its place, or else of a prototype with its section, name and field.
/// `NoMemory` alone where memory could not be had.
pub fn read_dump(alloc: Global, bytes: &[u8]) -> Result<Game, DumpFault>
    ensures sound { IfOk result IsSound }
    ensures game { MatchResult result (HasGame bytes.now) (λ fault. fault.code ≢ DumpCode.NoMemory → HasFault bytes.now fault) }
    ensures bare { IfErr result IsBare }
{
    let draft = draft_of_bytes(alloc, bytes)?;
    settled(alloc, resolve(alloc, draft))
}
