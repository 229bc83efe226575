//! Laws of the sites of nodes.
ghost use Rattle.std.specs.Prelude.{◌≡◌, ◌<◌, ◌+◌, ℕ, List, length, map};
ghost use Rattle.iso_model.specs.ScriptView.{script_of};
ghost use Rattle.iso_places.specs.Located.{HasStranger, WereRead, site_by_path};
ghost use Rattle.iso_places.specs.Sites.{all_sites, site_at};
ghost use Rattle.iso_places.specs.declared.site.Site.{Site};
ghost use Rattle.iso_plan.specs.PathTexts.{path_text};
ghost use Rattle.iso_plan.specs.KeptNodes.{is_kept_by, those_of};
ghost use Rattle.iso_plan.specs.Tree.{tree};
ghost use Rattle.iso_script.specs.declared.place.NodePlace.{NodePlace};

use iso_model::script::Script;

/// Each node of scripts that were read has a site, and there is no other site.
pub fn each_node_has_a_site(scripts: &[Script])
    ensures { let scripts = map script_of scripts.now in
        (places : List (List NodePlace)) → WereRead scripts places
        → length (tree scripts) ≡ length (all_sites places) + 1 }
{}

/// A node whose path is that of no earlier one has its own site.
pub fn nodes_have_their_own_sites(scripts: &[Script])
    ensures { let nodes = tree (map script_of scripts.now) in
        (sites : List Site) (n : ℕ) → length nodes ≡ length sites + 1 → 0 < n → n < length nodes
        → ((m : ℕ) → 0 < m → m < n → path_text nodes m ≡ path_text nodes n → ⊥)
        → site_by_path nodes sites (path_text nodes n) ≡ site_at sites n }
{}

/// No plan of scripts that were read has a node without a site, be it of all nodes or of those that
/// some paths keep.
pub fn nodes_of_plans_have_sites(scripts: &[Script])
    ensures all { let nodes = tree (map script_of scripts.now) in
        (sites : List Site) → length nodes ≡ length sites + 1 → HasStranger nodes sites nodes → ⊥ }
    ensures kept { let nodes = tree (map script_of scripts.now) in
        (sites : List Site) (paths : List (List ℕ)) → length nodes ≡ length sites + 1
        → HasStranger nodes sites (those_of (is_kept_by nodes paths) nodes) → ⊥ }
{}
