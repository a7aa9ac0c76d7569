//! Categories, marked.
ghost use Rattle.std.specs.Prelude.{◌≡◌, ℕ, ◌<◌, false, IfOk, length, slice_index_or};
ghost use Rattle.game_types.specs.Making.{holds};
ghost use Rattle.depend_index.specs.Marks.{AreMarks};

use game_types::holds;
use plan_base::NoMemory;
use std::alloc::Global;

fn mark_all(marks: &mut [bool], categories: &[u32])
    requires { (k : ℕ) → k < length marks.old → slice_index_or marks.old k false ≡ false }
    ensures { AreMarks categories.now marks.new }
{
    for category in categories {
        let place = *category as usize;
        if place < marks.len() {
            marks[place] = true;
        }
    }
}

/// So many marks, of which those of the categories are set.
pub fn marks_of(alloc: Global, count: u32, categories: &[u32]) -> Result<Vec<bool>, NoMemory>
    ensures { IfOk result (λ marks. AreMarks categories.now marks.items) }
{
    let mut marks = vec![in alloc; false; count as usize]?;
    mark_all(marks.as_mut_slice(), categories);
    Ok(marks)
}

/// Whether a category is one of some, by its mark where it has one.
pub fn is_marked(marks: &[bool], categories: &[u32], category: u32) -> bool
    requires { AreMarks categories.now marks.now }
    ensures { result ≡ holds categories.now category }
{
    if (category as usize) < marks.len() {
        marks[category as usize]
    } else {
        holds(categories, category)
    }
}
