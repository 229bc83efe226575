//! Laws of what is written. Each function does nothing: its contract is the law, and is proved.
ghost use Rattle.std.specs.Prelude.{◌≡◌, ◌<◌, ◌++◌, [], ℕ, List, codes, length, slice_index_or, true};
ghost use Rattle.std.specs.List.{list_all};
ghost use Rattle.iso_html.specs.KeyUses.{locks_on};
ghost use Rattle.iso_html.specs.Markup.{is_no_markup};
ghost use Rattle.iso_html.specs.Trees.{inside_text, node_text, opening_text};
ghost use Rattle.iso_junit.specs.Escapes.{escaped};
ghost use Rattle.iso_junit.specs.Runs.{RunView};
ghost use Rattle.iso_plan.specs.KeyTable.{keys};
ghost use Rattle.iso_plan.specs.Locks.{lock_of, locks, taken};
ghost use Rattle.iso_plan.specs.Paths.{IsTree};
ghost use Rattle.iso_plan.specs.Tree.{Row};
ghost use Rattle.iso_settings.specs.declared.settings.Settings.{Settings};

/// The text of a node has that of its children between its beginning and its end.
pub fn pages_go_down_the_tree()
    ensures { (r : RunView) → (settings : Settings) → IsTree r.tree → (n : ℕ) → 0 < n
        → n < length r.tree
        → node_text r settings n ≡ opening_text r settings n
        ++ inside_text r (node_text r settings) n ++ codes "</details></li>\n" }
{}

/// No byte of a text begins or ends a tag or a quoted attribute where the text stands escaped,
/// whatever bytes it has.
pub fn texts_are_no_markup()
    ensures { (text : List ℕ) → list_all is_no_markup (escaped text) ≡ true }
{}

/// A node that takes a key has one lock on it, as it takes it, and another none: so it stands once
/// in the key's row, and is counted once.
pub fn nodes_take_a_key_once()
    ensures { (tree : List Row) (key n : ℕ) → key < length (keys tree)
        → locks_on key (locks tree n) ≡ lock_of key
        (taken tree n (slice_index_or (keys tree) key [])) }
{}
