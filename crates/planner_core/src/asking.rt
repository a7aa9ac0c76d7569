//! The commands that are questions.
ghost use Rattle.std.specs.Prelude.{◌≡◌, IfOk};
ghost use Rattle.plan_lines.specs.declared.command.Command.TheVariants as CommandLine;
ghost use Rattle.planner_core.specs.Lines.{IsStep};

use crate::planner::Planner;
use plan_base::{NoMemory, Steps, Text};
use plan_lines::{Command, Object, Reply};

/// At which rank a node is reached.
///
/// # Errors
///
/// `NoMemory` where memory could not be had.
#[tactic(auto, using(crate::proofs::Staying::rank_stays))]
pub fn ask_rank<L>(
    planner: &mut Planner,
    object: Object,
    steps: &mut Steps<L>,
) -> Result<Reply, NoMemory>
    ensures stays { planner.new ≡ planner.old }
    ensures reply { IfOk result (λ answer. IsStep 0 planner.old (CommandLine.Reach object) planner.new answer) }
{
    planner.step(0, Command::Reach(object), steps)
}

/// Without which milestones a node isn't reached.
///
/// # Errors
///
/// `NoMemory` where memory could not be had.
#[tactic(auto, using(crate::proofs::Staying::mask_stays))]
pub fn ask_mask<L>(
    planner: &mut Planner,
    object: Object,
    steps: &mut Steps<L>,
) -> Result<Reply, NoMemory>
    ensures stays { planner.new ≡ planner.old }
    ensures reply { IfOk result (λ answer. IsStep 0 planner.old (CommandLine.Mask object) planner.new answer) }
{
    planner.step(0, Command::Mask(object), steps)
}

/// All milestones.
///
/// # Errors
///
/// `NoMemory` where memory could not be had.
#[tactic(auto, using(crate::proofs::Staying::milestones_stay))]
pub fn ask_milestones<L>(planner: &mut Planner, steps: &mut Steps<L>) -> Result<Reply, NoMemory>
    ensures stays { planner.new ≡ planner.old }
    ensures reply { IfOk result (λ answer. IsStep 0 planner.old CommandLine.Milestones planner.new answer) }
{
    planner.step(0, Command::Milestones, steps)
}

/// The plan of a table.
///
/// # Errors
///
/// `NoMemory` where memory could not be had.
#[tactic(auto, using(crate::proofs::Staying::solve_stays))]
pub fn ask_solve<L>(
    planner: &mut Planner,
    table: Text,
    budget: u32,
    steps: &mut Steps<L>,
) -> Result<Reply, NoMemory>
    ensures stays { planner.new ≡ planner.old }
    ensures reply { IfOk result (λ answer. IsStep 0 planner.old (CommandLine.Solve table budget) planner.new answer) }
{
    planner.step(0, Command::Solve { table, budget }, steps)
}

/// The rates of a row.
///
/// # Errors
///
/// `NoMemory` where memory could not be had.
#[tactic(auto, using(crate::proofs::Staying::rate_stays))]
pub fn ask_rate<L>(
    planner: &mut Planner,
    table: Text,
    label: Text,
    steps: &mut Steps<L>,
) -> Result<Reply, NoMemory>
    ensures stays { planner.new ≡ planner.old }
    ensures reply { IfOk result (λ answer. IsStep 0 planner.old (CommandLine.Rate table label) planner.new answer) }
{
    planner.step(0, Command::Rate { table, label }, steps)
}
