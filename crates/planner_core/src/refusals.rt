//! Refusals as replies.
ghost use Rattle.std.specs.Prelude.{◌≡◌, None, IfOk};
ghost use Rattle.plan_lines.specs.declared.reply.Reply.TheVariants as reply;
ghost use Rattle.plan_lines.specs.declared.reply.Detail.TheVariants.{Bare};
ghost use Rattle.state_changes.specs.declared.refusals.Refusal.{Refusal as RefusalOf};
ghost use Rattle.planner_core.specs.Replies.{edit_code, milestone_code, refused, refused_as};
ghost use Rattle.game_types.specs.Sound.{IsSound};

use data_edit::EditFault;
use game_types::Game;
use milestone_masks::MilestoneFault;
use plan_base::{Denied, NoMemory};
use plan_lines::{Detail, Object, RefusalCode, Reply};
use planning_state::Refusal;

fn edit_code(fault: EditFault) -> RefusalCode
    ensures { result ≡ edit_code fault }
{
    match fault {
        EditFault::Unknown => RefusalCode::X1,
        EditFault::NotPositive => RefusalCode::X3,
        EditFault::NoChange => RefusalCode::X2,
        EditFault::Limit => RefusalCode::X4,
    }
}

fn milestone_code(fault: MilestoneFault) -> RefusalCode
    ensures { result ≡ milestone_code fault }
{
    match fault {
        MilestoneFault::Full => RefusalCode::M1,
        MilestoneFault::Already => RefusalCode::M2,
        MilestoneFault::NotOne => RefusalCode::M3,
        MilestoneFault::NoMemory => RefusalCode::M1,
    }
}

/// A refusal without details.
pub fn refused_as(code: RefusalCode) -> Reply
    ensures { result ≡ refused_as code }
{
    Reply::Refused {
        code,
        detail: Detail::Bare,
        at: None,
    }
}

// A refusal without details, of a line of a batch or of the line itself.
fn bare(code: RefusalCode, at: Option<u32>) -> Reply
    ensures { result ≡ reply.Refused code Bare at }
{
    Reply::Refused {
        code,
        detail: Detail::Bare,
        at,
    }
}

/// A refusal, with the name that nothing has, or what tables tell.
pub fn refused(game: &Game, refusal: Refusal, at: Option<u32>) -> Reply
    requires { IsSound game.now }
    ensures { result ≡ refused game.now refusal at }
{
    match refusal {
        Refusal::Unknown(object) => {
            let Object { kind, name } = object;
            Reply::Refused {
                code: RefusalCode::X1,
                detail: Detail::Word {
                    kind: Some(kind),
                    name,
                },
                at,
            }
        }
        Refusal::OfEdit(fault) => bare(edit_code(fault), at),
        Refusal::OfMilestone(fault) => bare(milestone_code(fault), at),
        Refusal::OfTables(refusal) => planner_tables::refused(game, refusal, at),
    }
}

/// The reply where an object can't be found.
pub fn not_found(game: &Game, fault: Denied<Refusal>) -> Result<Reply, NoMemory>
    requires { IsSound game.now }
    ensures { IfOk result (λ answer. (refusal : RefusalOf) × (fault ≡ Denied.Refused refusal) × (answer ≡ refused game.now refusal None)) }
{
    match fault {
        Denied::Refused(refusal) => Ok(refused(game, refusal, None)),
        Denied::NoMemory => Err(NoMemory),
    }
}
