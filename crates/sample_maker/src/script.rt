// The script of a sample.
ghost use Rattle.std.specs.Prelude.{◌≡◌, ◌+◌, ◌*◌, ◌<◌, ◌≤◌, ◌++◌, min, IfOk, OnOk, string_bytes};
ghost use Rattle.sample_maker.specs.Draws.{after, joined};
ghost use Rattle.sample_maker.specs.Script.{aim, forbid, forbid_at, milestone, row, script_text, summary};

use crate::draws::Draws;
use std::alloc::{AllocError, Global};

#[tactic(auto, unfolding(crate::specs::Script::milestone))]
fn push_milestone(text: &mut String, size: u32, count: u32, j: u32) -> Result<(), AllocError>
    requires size { size ≤ 20000 }
    requires count { 0 < count }
    requires few { j ≤ 8 }
    ensures { OnOk result (string_bytes text.new ≡ string_bytes text.old ++ milestone size count j) }
{
    let item = j * size / count;
    write!(text, "milestone item:i{item}\n")
}

#[tactic(auto, using(crate::proofs::DrawsLemmas::grown, crate::proofs::DrawsLemmas::grown_none))]
fn push_milestones(text: &mut String, size: u32, count: u32) -> Result<(), AllocError>
    requires size { size ≤ 20000 }
    requires few { count ≤ 8 }
    ensures { OnOk result (string_bytes text.new ≡ string_bytes text.old ++ joined (milestone size count) count) }
{
    for j in 1..count + 1 {
        push_milestone(text, size, count, j)?;
    }
    Ok(())
}

#[tactic(auto, unfolding(crate::specs::Script::summary))]
fn summary(j: u32) -> &'static str
    ensures { result.now ≡ summary j }
{
    if j % 8 == 0 { "summary\n" } else { "" }
}

#[tactic(auto, unfolding(crate::specs::Script::forbid))]
fn push_forbid(text: &mut String, j: u32, item: u32) -> Result<(), AllocError>
    ensures { OnOk result (string_bytes text.new ≡ string_bytes text.old ++ forbid j item) }
{
    let summary = summary(j);
    write!(text, "forbid item:i{item}\n{summary}undo\n")
}

#[tactic(auto, using(crate::proofs::DrawsLemmas::grown, crate::proofs::DrawsLemmas::grown_none, crate::proofs::DrawsLemmas::one_more, crate::proofs::DrawsLemmas::one_none))]
fn push_forbids(
    text: &mut String,
    draws: &mut Draws,
    size: u32,
    count: u32,
) -> Result<(), AllocError>
    requires some { 0 < size }
    requires size { size ≤ 20000 }
    requires few { count ≤ 64 }
    ensures { OnOk result (string_bytes text.new ≡ string_bytes text.old ++ joined (forbid_at draws.old.state size) count) }
{
    for j in 1..count + 1 {
        let item = 1 + draws.below(size);
        push_forbid(text, j, item)?;
    }
    Ok(())
}

#[tactic(auto, unfolding(crate::specs::Script::row))]
fn push_row(text: &mut String, j: u32) -> Result<(), AllocError>
    ensures { OnOk result (string_bytes text.new ≡ string_bytes text.old ++ row j) }
{
    write!(text, "row t r{j} recipe:r{j} by machine:m0\n")
}

#[tactic(auto, using(crate::proofs::DrawsLemmas::grown, crate::proofs::DrawsLemmas::grown_none))]
fn push_rows(text: &mut String, count: u32) -> Result<(), AllocError>
    requires { count ≤ 20 }
    ensures { OnOk result (string_bytes text.new ≡ string_bytes text.old ++ joined row count) }
{
    for j in 1..count + 1 {
        push_row(text, j)?;
    }
    Ok(())
}

#[tactic(auto, unfolding(crate::specs::Script::aim))]
fn push_aim(text: &mut String, k: u32) -> Result<(), AllocError>
    ensures { OnOk result (string_bytes text.new ≡ string_bytes text.old ++ aim k) }
{
    write!(
        text,
        "want t item:i{k} 1\nimport t item:i0 1\nsolve t\nsummary\n"
    )
}

/// The script for a dump of a size.
#[tactic(auto, unfolding(crate::specs::Script::script_text))]
pub fn script_text(alloc: Global, draws: &mut Draws, size: u32) -> Result<String, AllocError>
    requires some { 0 < size }
    requires few { size ≤ 20000 }
    ensures { IfOk result (λ text. string_bytes text ≡ script_text draws.old.state size) }
{
    let rows = size.min(20);
    let mut text = String::from_str(alloc, "quiet on\ngrant item:i0\n")?;
    push_milestones(&mut text, size, size.min(8))?;
    push_forbids(&mut text, draws, size, 64)?;
    text.push_str("table t\n")?;
    push_rows(&mut text, rows)?;
    push_aim(&mut text, rows)?;
    Ok(text)
}
