//! The runs that write an output.
use crate::asked::{asked_form, asked_table};
use crate::catalog::CatalogText;
use crate::costs::CostText;
use crate::flow::TableGraph;
use crate::json::ReplyLines;
use crate::output::run_work;
use crate::page::ScriptPage;
use crate::plan::TablePlan;
use clap::ArgMatches;
use program_runs::{End, asked_files};
use std::alloc::Global;
use std::rt::Files;

fn page<R: Files + Print>(rt: &R, alloc: Global, matches: &ArgMatches<'_>) -> End {
    let icons = matches.get_str("icons");
    run_work(rt, alloc, asked_files(matches), &ScriptPage { icons })
}

fn flow<R: Files + Print>(rt: &R, alloc: Global, matches: &ArgMatches<'_>) -> End {
    let table = asked_table(matches);
    run_work(rt, alloc, asked_files(matches), &TableGraph { table })
}

fn json<R: Files + Print>(rt: &R, alloc: Global, matches: &ArgMatches<'_>) -> End {
    run_work(rt, alloc, asked_files(matches), &ReplyLines)
}

fn csv<R: Files + Print>(rt: &R, alloc: Global, matches: &ArgMatches<'_>) -> End {
    let table = asked_table(matches);
    run_work(rt, alloc, asked_files(matches), &TablePlan { table })
}

fn costs<R: Files + Print>(rt: &R, alloc: Global, matches: &ArgMatches<'_>) -> End {
    let form = asked_form(matches);
    run_work(rt, alloc, asked_files(matches), &CostText { form })
}

fn catalog<R: Files + Print>(rt: &R, alloc: Global, matches: &ArgMatches<'_>) -> End {
    let names = asked_files(matches);
    run_work(rt, alloc, names, &CatalogText { dump: names.dump })
}

/// The run that a command asks for by its matched words. None where the command asks for no output.
pub fn run_matched<R: Files + Print>(
    rt: &R,
    alloc: Global,
    command: &str,
    matches: &ArgMatches<'_>,
) -> Option<End> {
    match command {
        "page" => Some(page(rt, alloc, matches)),
        "flow" => Some(flow(rt, alloc, matches)),
        "json" => Some(json(rt, alloc, matches)),
        "csv" => Some(csv(rt, alloc, matches)),
        "costs" => Some(costs(rt, alloc, matches)),
        "catalog" => Some(catalog(rt, alloc, matches)),
        _ => None,
    }
}
