//! Laws of two runs.
ghost use Rattle.std.specs.Prelude.{◌≡◌, ◌≢◌, ℕ, List, Some};
ghost use Rattle.linear_table.specs.declared.SolveAnswer.{SolveAnswer};
ghost use Rattle.run_inputs.specs.declared.status.Status.{Status as AnyStatus};
ghost use Rattle.run_inputs.specs.declared.status.Status.TheVariants as statuses;
ghost use Rattle.planner_cli.specs.Ending.{EndsRun};
ghost use Rattle.planner_cli.specs.Rechecks.{ChecksNoWide, HasSameFiles, IsProved, Side};
ghost use Rattle.run_inputs.specs.Words.{Check, Files};

use game_reader::one_game;

/// A certificate that one run told, of whose lines none was refused and each table was settled, is checked to the end by another
/// over the same dump and script: the run is done where no checker meets a wide sum, unless a file can't be read, writing is cut off
/// or memory is wanted.
pub fn certificates_are_checked_to_the_end()
    ensures { (first second : Side) (cert certificate : List ℕ) (taken : ℕ) (solved : List SolveAnswer) (status : AnyStatus) (text : List ℕ) (work : ℕ)
        → IsProved first certificate → HasSameFiles first second cert certificate → ChecksNoWide second cert → EndsRun second.shelf (Some (Files (Check cert) second.names)) taken solved status text work
        → status ≢ statuses.ReadFault → status ≢ statuses.WriteFault → status ≢ statuses.NoMemory → status ≡ statuses.Done }
{
    one_game();
}
