//! Changes of a book and its tables, and how they are taken back.
ghost use Rattle.std.specs.Prelude.{◌≡◌, true, false, ℕ, ◌<◌, ◌^◌, ◌+◌, ◌∷◌, ◌++◌, [], List, Err, IfErr, IfOk, OnErr, OnOk, length, vec_len, vec_capacity};
ghost use Rattle.std.specs.List.{list_all};
ghost use Rattle.plan_base.specs.declared.ids.NodeId.{NodeId};
ghost use Rattle.data_edit.specs.declared.edits.Edit.{Edit as EditOf};
ghost use Rattle.data_edit.specs.Books.{IsSoundBook};
ghost use Rattle.edit_undo.specs.Edits.{apply_edits, IsFaultOf};
ghost use Rattle.production_table.specs.declared.tables.Table.{Table};
ghost use Rattle.planner_tables.specs.Effects.{AreSoundTables, is_of_tables};
ghost use Rattle.state_changes.specs.declared.refusals.Refusal.{Refusal};
ghost use Rattle.state_changes.specs.Actions.{can_be_held};
ghost use Rattle.state_changes.specs.States.{state_of};
ghost use Rattle.state_changes.specs.Effects.{effect_of};
ghost use Rattle.state_changes.specs.Undoing.{all_restored, all_tables_restored, part_restored, table_part_restored};
ghost use Rattle.state_changes.specs.Books.{Applies, AppliesNext, AppliesOne};

use crate::edits::edit_named;
use crate::entries::is_of_tables;
use crate::refusals::{Refusal, edit_fault, entry_fault, tables_fault};
use crate::undos::Undo;
use data_edit::{Book, Edit, Inverse, apply_edit, exchange};
use edit_undo::EntryFault;
use plan_base::Denied;
use plan_lines::Change;
use planner_tables::{change_tables, exchange_tables};
use production_table::Table as ProductionTable;
use std::alloc::Global;

/// Puts an item into the room that was reserved for it.
pub fn put<T: Drop>(list: &mut Vec<T>, item: T)
    requires { vec_len list.old < vec_capacity list.old }
    ensures { list.new.items ≡ list.old.items ++ item ∷ [] }
{
    match list.push(item) {
        Ok(()) => {}
        Err(_) => unreachable!(),
    }
}

// Makes the edit of the book that a change asks for.
fn apply_change(
    alloc: Global,
    book: &mut Book,
    change: &Change,
) -> Result<(Edit, Inverse), Denied<Refusal>>
    requires sound { IsSoundBook book.old }
    requires held { can_be_held change.now ≡ true }
    requires of_book { is_of_tables change.now ≡ false }
    ensures ok { IfOk result (λ done. AppliesOne book.old change.now done.0 done.1 book.new) }
    ensures fault { IfErr result (λ fault. (refusal : Refusal) (milestones : List NodeId) (tables : List Table) → fault ≡ Denied.Refused refusal → effect_of (state_of book.old milestones tables) change.now ≡ Err refusal) }
    ensures err { OnErr result (book.new ≡ book.old) }
{
    let named = edit_named(alloc, &book.game, change)?;
    let Some(edit) = named else {
        unreachable!();
    };
    match apply_edit(alloc, book, &edit) {
        Ok(inverse) => Ok((edit, inverse)),
        Err(fault) => Err(edit_fault(fault)),
    }
}

// Applies one more change of the book: its edit and what takes it back come behind the others.
fn apply_to_book(
    alloc: Global,
    book: &mut Book,
    change: &Change,
    edits: &mut Vec<Edit>,
    undos: &mut Vec<Undo>,
) -> Result<(), Denied<Refusal>>
    requires sound { IsSoundBook book.old }
    requires held { can_be_held change.now ≡ true }
    requires of_book { is_of_tables change.now ≡ false }
    ensures ok { OnOk result ((tables : List Table) → AreSoundTables book.old.game tables → AppliesNext book.old tables change.now edits.old.items undos.old.items book.new tables edits.new.items undos.new.items) }
    ensures fault { IfErr result (λ fault. (refusal : Refusal) (milestones : List NodeId) (tables : List Table) → fault ≡ Denied.Refused refusal → effect_of (state_of book.old milestones tables) change.now ≡ Err refusal) }
    ensures err { OnErr result ((book.new ≡ book.old) × (edits.new.items ≡ edits.old.items) × (undos.new.items ≡ undos.old.items)) }
{
    if edits.reserve(1).is_err() || undos.reserve(1).is_err() {
        return Err(Denied::NoMemory);
    }
    let (edit, inverse) = apply_change(alloc, book, change)?;
    put(edits, edit);
    put(undos, Undo::Part(inverse));
    Ok(())
}

// Applies one more change of the tables: what takes it back comes behind the others.
fn apply_to_tables(
    alloc: Global,
    book: &Book,
    tables: &mut Vec<ProductionTable>,
    change: &Change,
    undos: &mut Vec<Undo>,
) -> Result<(), Denied<Refusal>>
    requires sound { IsSoundBook book.now }
    requires tables { AreSoundTables book.now.game tables.old.items }
    requires of_tables { is_of_tables change.now ≡ true }
    ensures ok { OnOk result ((edits : List EditOf) → AppliesNext book.now tables.old.items change.now edits undos.old.items book.now tables.new.items edits undos.new.items) }
    ensures fault { IfErr result (λ fault. (refusal : Refusal) (milestones : List NodeId) → fault ≡ Denied.Refused refusal → effect_of (state_of book.now milestones tables.old.items) change.now ≡ Err refusal) }
    ensures err { OnErr result ((tables.new.items ≡ tables.old.items) × (undos.new.items ≡ undos.old.items)) }
{
    if undos.reserve(1).is_err() {
        return Err(Denied::NoMemory);
    }
    match change_tables(alloc, &book.game, tables, change) {
        Ok(undo) => {
            put(undos, Undo::OfTables(undo));
            Ok(())
        }
        Err(fault) => Err(tables_fault(fault)),
    }
}

// Applies one more change of the book or of the tables.
fn apply_next(
    alloc: Global,
    book: &mut Book,
    tables: &mut Vec<ProductionTable>,
    change: &Change,
    edits: &mut Vec<Edit>,
    undos: &mut Vec<Undo>,
) -> Result<(), Denied<Refusal>>
    requires sound { IsSoundBook book.old }
    requires tables { AreSoundTables book.old.game tables.old.items }
    requires held { can_be_held change.now ≡ true }
    ensures ok { OnOk result (AppliesNext book.old tables.old.items change.now edits.old.items undos.old.items book.new tables.new.items edits.new.items undos.new.items) }
    ensures fault { IfErr result (λ fault. (refusal : Refusal) (milestones : List NodeId) → fault ≡ Denied.Refused refusal → effect_of (state_of book.old milestones tables.old.items) change.now ≡ Err refusal) }
    ensures err { OnErr result ((book.new ≡ book.old) × (tables.new.items ≡ tables.old.items) × (edits.new.items ≡ edits.old.items) × (undos.new.items ≡ undos.old.items)) }
{
    if is_of_tables(change) {
        apply_to_tables(alloc, book, tables, change, undos)
    } else {
        apply_to_book(alloc, book, change, edits, undos)
    }
}

// Puts the part that this holds back.
fn take_one_back(alloc: Global, book: &mut Book, tables: &mut Vec<ProductionTable>, undo: Undo)
    ensures book { book.new ≡ part_restored undo book.old }
    ensures tables { tables.new.items ≡ table_part_restored undo tables.old.items }
{
    match undo {
        Undo::Part(part) => {
            let _old = exchange(alloc, book, part);
        }
        Undo::OfTables(part) => {
            let _old = exchange_tables(alloc, tables, part);
        }
        Undo::Added(_) => {}
        Undo::Taken { .. } => {}
    }
}

// Puts the part that the last of these holds back, which goes.
fn take_last_back(
    alloc: Global,
    book: &mut Book,
    tables: &mut Vec<ProductionTable>,
    undos: &mut Vec<Undo>,
)
    ensures book { all_restored undos.new.items book.new ≡ all_restored undos.old.items book.old }
    ensures tables { all_tables_restored undos.new.items tables.new.items ≡ all_tables_restored undos.old.items tables.old.items }
    ensures count { 0 < length undos.old.items → length undos.new.items + 1 ≡ length undos.old.items }
{
    if let Some(undo) = undos.pop() {
        take_one_back(alloc, book, tables, undo);
    }
}

/// Puts the parts of the book and of the tables that these hold back, the last one first. It takes no memory.
pub fn take_all_back(
    alloc: Global,
    book: &mut Book,
    tables: &mut Vec<ProductionTable>,
    undos: Vec<Undo>,
)
    ensures book { book.new ≡ all_restored undos.items book.old }
    ensures tables { tables.new.items ≡ all_tables_restored undos.items tables.old.items }
{
    let mut left = undos;
    for _ in 0..left.len() {
        take_last_back(alloc, book, tables, &mut left);
    }
}

/// Applies changes of a book and its tables in order, or none of them, and answers the edits that they ask for and what takes
/// them back.
///
/// # Errors
///
/// The place and the refusal of the first change that is refused. Or `NoMemory`.
pub fn apply_changes(
    alloc: Global,
    book: &mut Book,
    tables: &mut Vec<ProductionTable>,
    changes: &[Change],
) -> Result<(Vec<Edit>, Vec<Undo>), EntryFault<Refusal>>
    requires sound { IsSoundBook book.old }
    requires tables { AreSoundTables book.old.game tables.old.items }
    requires held { list_all can_be_held changes.now ≡ true }
    requires few { length changes.now < 2 ^ 32 }
    ensures ok { IfOk result (λ done. Applies book.old tables.old.items changes.now done.0.items done.1.items book.new tables.new.items) }
    ensures fault { IfErr result (λ fault. (milestones : List NodeId) → IsFaultOf (apply_edits effect_of (state_of book.old milestones tables.old.items) changes.now) fault) }
    ensures err { OnErr result ((book.new ≡ book.old) × (tables.new.items ≡ tables.old.items)) }
{
    let mut edits = Vec::new(alloc);
    let mut undos = Vec::new(alloc);
    for i in 0..changes.len() {
        match apply_next(alloc, book, tables, &changes[i], &mut edits, &mut undos) {
            Ok(()) => {}
            Err(fault) => {
                take_all_back(alloc, book, tables, undos);
                return Err(entry_fault(i as u32, fault));
            }
        }
    }
    Ok((edits, undos))
}
