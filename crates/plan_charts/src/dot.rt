//! A chart as a graph for Graphviz.
use crate::amounts::size_of;
use crate::cards::{Card, CardKind, Chart};
use fractions::Ratio;
use page_parts::{Amount, Done, Flow};
use page_rows::{Piece, is_whole, put};
use plan_base::NoMemory;
use std::alloc::Global;

fn look(kind: CardKind) -> &'static str {
    match kind {
        CardKind::Row => "shape=box, style=rounded",
        CardKind::Import => "shape=box, style=\"rounded,dashed\"",
        CardKind::Surplus => "shape=box, style=\"rounded,dashed\"",
        CardKind::Want => "shape=box, style=\"rounded,bold\"",
    }
}

fn push_size(alloc: Global, out: &mut String, size: &Ratio) -> Done {
    if is_whole(size) {
        return put(alloc, out, &[Piece::Exact(size)]);
    }
    put(
        alloc,
        out,
        &[
            Piece::Exact(size),
            Piece::Text(" ("),
            Piece::Near(size),
            Piece::Text(")"),
        ],
    )
}

// An amount without its sign: the fraction, and a decimal where it isn't whole.
pub(crate) fn push_amount(alloc: Global, out: &mut String, amount: &Amount) -> Done {
    match amount {
        Amount::Exact(number) => push_size(alloc, out, &size_of(number)),
        Amount::Wide => put(alloc, out, &[Piece::Text("wide")]),
    }
}

fn push_flow(alloc: Global, out: &mut String, card: usize, flow: &Flow) -> Done {
    let card = Piece::Count(card as u64);
    let good = Piece::Count(flow.good as u64);
    if flow.gives {
        put(
            alloc,
            out,
            &[Piece::Text("  c"), card, Piece::Text(" -> g"), good],
        )?;
    } else {
        put(
            alloc,
            out,
            &[Piece::Text("  g"), good, Piece::Text(" -> c"), card],
        )?;
    }
    put(alloc, out, &[Piece::Text(" [label=\"")])?;
    push_amount(alloc, out, &flow.amount)?;
    put(alloc, out, &[Piece::Text("\"];\n")])
}

// What stands between the title and what is behind it, where there is something.
fn line_break(card: &Card) -> &'static str {
    if card.about.as_str().is_empty() {
        ""
    } else {
        "\\n"
    }
}

fn push_card(alloc: Global, out: &mut String, number: usize, card: &Card) -> Done {
    put(
        alloc,
        out,
        &[
            Piece::Text("  c"),
            Piece::Count(number as u64),
            Piece::Text(" [label=\""),
            Piece::Label(card.title.as_str()),
            Piece::Text(line_break(card)),
            Piece::Label(card.about.as_str()),
            Piece::Text("\", "),
            Piece::Text(look(card.kind)),
            Piece::Text("];\n"),
        ],
    )?;
    for flow in card.flows.as_slice() {
        push_flow(alloc, out, number, flow)?;
    }
    Ok(())
}

// Whether a good flows at all.
fn flows_at_all(cards: &[Card], good: usize) -> bool {
    for card in cards {
        for flow in card.flows.as_slice() {
            if flow.good as usize == good {
                return true;
            }
        }
    }
    false
}

fn push_good(alloc: Global, out: &mut String, number: usize, name: &str) -> Done {
    put(
        alloc,
        out,
        &[
            Piece::Text("  g"),
            Piece::Count(number as u64),
            Piece::Text(" [label=\""),
            Piece::Label(name),
            Piece::Text("\", shape=ellipse];\n"),
        ],
    )
}

fn push_goods(alloc: Global, out: &mut String, chart: &Chart) -> Done {
    for (number, good) in chart.goods.as_slice().iter().enumerate() {
        if flows_at_all(chart.cards.as_slice(), number) {
            push_good(alloc, out, number, good.name.as_str())?;
        }
    }
    Ok(())
}

fn push_cards(alloc: Global, out: &mut String, chart: &Chart) -> Done {
    for (number, card) in chart.cards.as_slice().iter().enumerate() {
        push_card(alloc, out, number, card)?;
    }
    Ok(())
}

fn push_graph(alloc: Global, out: &mut String, table: &str, chart: &Chart) -> Done {
    put(
        alloc,
        out,
        &[
            Piece::Text("digraph plan {\n  rankdir=LR;\n  label=\""),
            Piece::Label(table),
            Piece::Text("\";\n"),
        ],
    )?;
    push_goods(alloc, out, chart)?;
    push_cards(alloc, out, chart)?;
    put(alloc, out, &[Piece::Text("}\n")])
}

/// The graph of a chart: boxes for what is done, ellipses for goods, and on each edge how much flows per second.
pub fn dot_text(alloc: Global, table: &str, chart: &Chart) -> Result<String, NoMemory> {
    let mut out = String::new(alloc);
    push_graph(alloc, &mut out, table, chart)?;
    Ok(out)
}
