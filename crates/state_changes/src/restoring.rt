//! Parts of a book and its tables, put back so that this can be taken back in its turn.
ghost use Rattle.std.specs.Prelude.{◌≡◌, List, IfOk, OnErr, OnOk};
ghost use Rattle.data_edit.specs.declared.books.Book.{Book as BookOf};
ghost use Rattle.production_table.specs.declared.tables.Table.{Table};
ghost use Rattle.state_changes.specs.Undoing.{all_restored, all_tables_restored};
ghost use Rattle.state_changes.specs.Books.{RestoresPart, RestoresTables};

use crate::changes::{put, take_all_back};
use crate::undos::Undo;
use data_edit::{Book, Inverse, exchange};
use plan_base::NoMemory;
use planner_tables::{TableUndo, exchange_tables};
use production_table::Table as ProductionTable;
use std::alloc::Global;

// Puts a part of the book back, and what stood in its place behind the others.
fn restore_part(
    alloc: Global,
    book: &mut Book,
    inverse: &Inverse,
    forward: &mut Vec<Undo>,
) -> Result<(), NoMemory>
    ensures ok { OnOk result (RestoresPart (Undo.Part inverse.now) book.old forward.old.items book.new forward.new.items) }
    ensures tables { OnOk result ((tables : List Table) → RestoresTables (Undo.Part inverse.now) tables forward.old.items tables forward.new.items) }
    ensures err { OnErr result ((book.new ≡ book.old) × (forward.new.items ≡ forward.old.items)) }
{
    let part = inverse.copy(alloc)?;
    forward.reserve(1)?;
    put(forward, Undo::Part(exchange(alloc, book, part)));
    Ok(())
}

// Puts a part of the tables back, and what stood in its place behind the others.
fn restore_tables(
    alloc: Global,
    tables: &mut Vec<ProductionTable>,
    undo: &TableUndo,
    forward: &mut Vec<Undo>,
) -> Result<(), NoMemory>
    ensures ok { OnOk result (RestoresTables (Undo.OfTables undo.now) tables.old.items forward.old.items tables.new.items forward.new.items) }
    ensures book { OnOk result ((book : BookOf) → RestoresPart (Undo.OfTables undo.now) book forward.old.items book forward.new.items) }
    ensures err { OnErr result ((tables.new.items ≡ tables.old.items) × (forward.new.items ≡ forward.old.items)) }
{
    let part = undo.copy(alloc)?;
    forward.reserve(1)?;
    put(
        forward,
        Undo::OfTables(exchange_tables(alloc, tables, part)),
    );
    Ok(())
}

// Puts one part of the book or of the tables back, and what stood in its place behind the others.
fn restore_next(
    alloc: Global,
    book: &mut Book,
    tables: &mut Vec<ProductionTable>,
    undo: &Undo,
    forward: &mut Vec<Undo>,
) -> Result<(), NoMemory>
    ensures book { OnOk result (RestoresPart undo.now book.old forward.old.items book.new forward.new.items) }
    ensures tables { OnOk result (RestoresTables undo.now tables.old.items forward.old.items tables.new.items forward.new.items) }
    ensures err { OnErr result ((book.new ≡ book.old) × (tables.new.items ≡ tables.old.items) × (forward.new.items ≡ forward.old.items)) }
{
    match undo {
        Undo::Part(inverse) => restore_part(alloc, book, inverse, forward),
        Undo::OfTables(part) => restore_tables(alloc, tables, part, forward),
        Undo::Added(_) => Ok(()),
        Undo::Taken { .. } => Ok(()),
    }
}

/// Puts the parts of the book and of the tables that these hold back, the last one first, and answers what takes that back.
///
/// # Errors
///
/// `NoMemory` where memory could not be had; all is as it was.
pub fn restore_parts(
    alloc: Global,
    book: &mut Book,
    tables: &mut Vec<ProductionTable>,
    undos: &[Undo],
) -> Result<Vec<Undo>, NoMemory>
    ensures book { OnOk result (book.new ≡ all_restored undos.now book.old) }
    ensures tables { OnOk result (tables.new.items ≡ all_tables_restored undos.now tables.old.items) }
    ensures book_back { IfOk result (λ forward. all_restored forward.items book.new ≡ book.old) }
    ensures tables_back { IfOk result (λ forward. all_tables_restored forward.items tables.new.items ≡ tables.old.items) }
    ensures err { OnErr result ((book.new ≡ book.old) × (tables.new.items ≡ tables.old.items)) }
{
    let mut forward = Vec::new(alloc);
    for i in 0..undos.len() {
        let undo = &undos[undos.len() - 1 - i];
        if restore_next(alloc, book, tables, undo, &mut forward).is_err() {
            take_all_back(alloc, book, tables, forward);
            return Err(NoMemory);
        }
    }
    Ok(forward)
}
