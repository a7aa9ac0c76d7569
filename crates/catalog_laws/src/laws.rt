//! What holds of every catalog of a state.
ghost use Rattle.std.specs.Prelude.{◌≡◌, ◌≤◌, ℕ, List, Option, Some, false};
ghost use Rattle.plan_base.specs.declared.ids.NodeId.{NodeId};
ghost use Rattle.plan_base.specs.declared.shape.Kind.{Kind};
ghost use Rattle.depend_index.specs.declared.index.Index.{Index};
ghost use Rattle.state_changes.specs.States.{State};
ghost use Rattle.serde_json.specs.Data.{depth};
ghost use Rattle.serde_json.specs.Read.{read};
ghost use Rattle.serde_json.specs.Written.{compact_text, has_float};
ghost use Rattle.catalog_things.specs.Nodes.{thing_node};
ghost use Rattle.catalog_text.specs.declared.fields.Shown.{Shown};
ghost use Rattle.catalog_text.specs.Catalog.{IsCatalog};
ghost use Rattle.catalog_text.specs.Things.{IsThingText, value_in};
ghost use Rattle.catalog_laws.specs.Value.{ReadsBack, catalog_value};

/// Law: no thing of a catalog has a float, and each nests at most four deep.
pub fn things_are_shallow()
    ensures float { (s : State) (index : Index) (shown : Option Shown) (kind : Kind) (number : ℕ) (node : NodeId) → has_float (value_in s index shown kind number node) ≡ false }
    ensures depth { (s : State) (index : Index) (shown : Option Shown) (kind : Kind) (number : ℕ) (node : NodeId) → depth (value_in s index shown kind number node) ≤ 4 }
{}

/// Law: each text of a thing is the thing with no blanks, and reads back as it.
pub fn things_read_back()
    ensures compact { (s : State) (index : Index) (kind : Kind) (number : ℕ) (text : List ℕ) (is : IsThingText s index kind number text)
        → text ≡ compact_text (value_in s index is.shown kind number (thing_node s.book.game kind number)) }
    ensures reads_back { (s : State) (index : Index) (kind : Kind) (number : ℕ) (text : List ℕ) (is : IsThingText s index kind number text)
        → read text ≡ Some (value_in s index is.shown kind number (thing_node s.book.game kind number)) }
{}

/// Law: no catalog has a float, and each nests at most six deep.
pub fn catalogs_are_shallow()
    ensures float { (s : State) (index : Index) (shown : Kind → ℕ → Option Shown) → has_float (catalog_value s index shown) ≡ false }
    ensures depth { (s : State) (index : Index) (shown : Kind → ℕ → Option Shown) → depth (catalog_value s index shown) ≤ 6 }
{}

/// Law: the whole text of a catalog is the stated object with no blanks, on one line with its end, and reads back as that object.
pub fn catalogs_read_back()
    ensures { (s : State) (text : List ℕ) → IsCatalog s text → ReadsBack s text }
{}
