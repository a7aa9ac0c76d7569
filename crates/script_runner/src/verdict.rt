//! What a claim about a linear form comes to.
ghost use Rattle.std.specs.Prelude.{◌≡◌, IfOk, None, Some, find, option_map};
ghost use Rattle.linear_table.specs.Plans.{IsWellFormed};
ghost use Rattle.certificate_file.specs.declared.Claim.TheVariants.{Infeasible as NoPlan};
ghost use Rattle.script_runner.specs.Verdicts.{claim_at, fault_word, is_of_line, is_proved, verdict_line, verdict_words, IsPlanVerdict, IsVerdict};

use certificate_file::{CertEntry, Claim};
use fractions::Ratio;
use linear_table::{Linear, Plan};
use plan_base::{NoMemory, Text};
use plan_certificate::{CheckFault, check_infeasible, check_plan, check_prices};
use plan_report::printed_word;
use std::alloc::Global;

/// What a claim about a linear form comes to.
#[derive(Clone, Copy, Debug, PartialEq, Eq)]
pub enum Verdict {
    /// The plan is one, and its prices show that none costs less.
    ProvedPlan,
    /// The prices show that there is no plan.
    ProvedInfeasible,
    /// Nothing is claimed.
    Open,
    /// The numbers show nothing: the first fault that a checker finds.
    Rejected(CheckFault),
}

fn plan_verdict(linear: &Linear, plan: &Plan) -> Verdict
    requires { IsWellFormed linear.now }
    ensures { IsPlanVerdict linear.now plan.now result }
{
    if let Err(fault) = check_plan(linear, plan) {
        return Verdict::Rejected(fault);
    }
    match check_prices(linear, plan) {
        Ok(()) => Verdict::ProvedPlan,
        Err(fault) => Verdict::Rejected(fault),
    }
}

fn infeasible_verdict(linear: &Linear, prices: &[Ratio]) -> Verdict
    requires { IsWellFormed linear.now }
    ensures { IsVerdict linear.now (Some (NoPlan prices.now)) result }
{
    match check_infeasible(linear, prices) {
        Ok(()) => Verdict::ProvedInfeasible,
        Err(fault) => Verdict::Rejected(fault),
    }
}

fn claim_verdict(linear: &Linear, claim: &Claim) -> Verdict
    requires { IsWellFormed linear.now }
    ensures { IsVerdict linear.now (Some claim.now) result }
{
    match claim {
        Claim::Planned(plan) => plan_verdict(linear, plan),
        Claim::Infeasible(prices) => infeasible_verdict(linear, prices.as_slice()),
        Claim::Unsettled => Verdict::Open,
    }
}

// The first entry of a line.
fn find_entry(entries: &[CertEntry], number: u32) -> Option<&CertEntry>
    ensures { option_map (λ entry. entry.now) result ≡ find (is_of_line number) entries.now }
{
    entries.iter().find(|entry| entry.line == number)
}

/// The verdict on a linear form that a line poses.
pub fn verdict_on(linear: &Linear, entries: &[CertEntry], number: u32) -> Verdict
    requires { IsWellFormed linear.now }
    ensures { IsVerdict linear.now (claim_at entries.now number) result }
{
    match find_entry(entries, number) {
        Some(entry) => claim_verdict(linear, &entry.claim),
        None => Verdict::Open,
    }
}

/// Whether a claim is proved.
pub fn is_proved(verdict: Verdict) -> bool
    ensures { result ≡ is_proved verdict }
{
    match verdict {
        Verdict::ProvedPlan => true,
        Verdict::ProvedInfeasible => true,
        _ => false,
    }
}

fn fault_word(fault: CheckFault) -> &'static str
    ensures { result.now ≡ fault_word fault }
{
    match fault {
        CheckFault::WrongLength => "rejected length",
        CheckFault::Negative(_) => "rejected negative",
        CheckFault::Unbalanced(_) => "rejected unbalanced",
        CheckFault::Gains(_) => "rejected gains",
        CheckFault::WrongValue => "rejected value",
        CheckFault::WideSum => "rejected wide",
    }
}

fn verdict_words(verdict: Verdict) -> &'static str
    ensures { result.now ≡ verdict_words verdict }
{
    match verdict {
        Verdict::ProvedPlan => "proved plan",
        Verdict::ProvedInfeasible => "proved infeasible",
        Verdict::Open => "open",
        Verdict::Rejected(fault) => fault_word(fault),
    }
}

/// The line that tells a verdict.
pub fn verdict_line(
    alloc: Global,
    number: u32,
    verdict: Verdict,
    table: &Text,
) -> Result<Text, NoMemory>
    ensures { IfOk result (λ line. line ≡ verdict_line number verdict table.now) }
{
    let words = verdict_words(verdict);
    let table = printed_word(alloc, table.as_str())?;
    let line = format!(in alloc; "{number} {words} {table}\n")?;
    Ok(Text::from_string(line))
}
