//! Laws of suites as they are written. Each function does nothing that lasts: its contract is the
//! law, and is proved.
ghost use Rattle.std.specs.Prelude.{◌≡◌, ℕ, List, false, map};
ghost use Rattle.iso_model.specs.ScriptView.{script_of};
ghost use Rattle.iso_model.specs.declared.outcome.Outcome.{Outcome};
ghost use Rattle.iso_places.specs.Located.{HasStranger};
ghost use Rattle.iso_places.specs.Sites.{all_sites};
ghost use Rattle.iso_places.specs.declared.site.Site.{Site};
ghost use Rattle.iso_plan.specs.KeptNodes.{is_kept_by, those_of};
ghost use Rattle.iso_plan.specs.Tree.{Row, tree};
ghost use Rattle.iso_script.specs.declared.place.NodePlace.{NodePlace};
ghost use Rattle.iso_telling.specs.ToldLines.{line_told};
ghost use Rattle.iso_telling.specs.ToldPlaces.{located, located_told, told};
ghost use Rattle.iso_telling.specs.Written.{ArePlaced};

use iso_model::script::Script;
use iso_places::laws;

/// Where what mends a fault isn't asked for, a node is told with its line alone.
pub fn nodes_are_told_with_their_lines_alone()
    ensures { (names texts : List (List ℕ)) (tree : List Row) (sites : List Site)
        (outcome : ℕ → Outcome) (n : ℕ)
        → located_told names texts (told false tree sites outcome n)
        ≡ located names texts (line_told tree sites outcome n) }
{}

/// No plan of scripts that were read with these places has a node without a place, be it of all
/// nodes or of those that some paths keep.
pub fn nodes_of_suites_have_places(scripts: &[Script])
    ensures all { let scripts = map script_of scripts.now in
        (texts : List (List ℕ)) (places : List (List NodePlace)) → ArePlaced texts scripts places
        → HasStranger (tree scripts) (all_sites places) (tree scripts) → ⊥ }
    ensures kept { let scripts = map script_of scripts.now in
        (texts paths : List (List ℕ)) (places : List (List NodePlace))
        → ArePlaced texts scripts places
        → HasStranger (tree scripts) (all_sites places)
        (those_of (is_kept_by (tree scripts) paths) (tree scripts)) → ⊥ }
{
    laws::each_node_has_a_site(scripts);
    laws::nodes_of_plans_have_sites(scripts);
}
