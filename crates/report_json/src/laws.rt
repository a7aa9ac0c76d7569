//! What the object of a reply says.
ghost use Rattle.std.specs.Prelude.{◌≡◌};
ghost use Rattle.game_types.specs.declared.games.Game.{Game};
ghost use Rattle.plan_report.specs.Replies.{reply_lines};
ghost use Rattle.plan_lines.specs.declared.reply.Reply.{Reply};
ghost use Rattle.report_json.specs.Reading.{lines_of};
ghost use Rattle.report_json.specs.Replies.{reply_value};

/// Whoever reads the object of a reply gets the reply back: the very words of every line that is printed for it.
pub fn a_reader_gets_the_reply_back()
    ensures { (g : Game) (reply : Reply) → lines_of (reply_value g reply) ≡ reply_lines g reply }
{}
