//! Who hears of the lines of a script beside its report.
use plan_io::Line;
use plan_lines::Reply;
use planner_core::Planner;

/// Who hears of each line of a script and of its reply, as for words that help on standard error. What a listener does changes nothing of
/// what is written.
pub trait Listener {
    /// The lines of a script are going to be answered by this planner.
    fn begins(&mut self, planner: &Planner);

    /// A line of the script got this reply, and the planner is as behind it.
    fn hears(&mut self, planner: &Planner, script: &[u8], line: Line<'_>, reply: &Reply);
}

/// A listener that does nothing.
#[derive(Clone, Copy, Drop)]
pub struct Silent;

impl Listener for Silent {
    fn begins(&mut self, _planner: &Planner) {}

    fn hears(&mut self, _planner: &Planner, _script: &[u8], _line: Line<'_>, _reply: &Reply) {}
}
