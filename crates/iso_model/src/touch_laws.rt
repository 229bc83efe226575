//! Laws of asks and changes. Each function does nothing: its contract is the law, and is proved.
ghost use Rattle.std.specs.Prelude.{◌≡◌, ℕ, List, Option, Some, None, option_map, bytes_eq, false};
ghost use Rattle.std.specs.Borrow.{Bor};
ghost use Rattle.iso_model.specs.Resources.{Resources, changed_at};
ghost use Rattle.iso_model.specs.Touch.{HasKind, Kind, answered, kind_of_change, kind_of_value};
ghost use Rattle.iso_model.specs.declared.resource.Ask.{Ask};
ghost use Rattle.iso_model.specs.declared.resource.Ask.TheVariants as Asks;
ghost use Rattle.iso_model.specs.declared.resource.Change.{Change};
ghost use Rattle.iso_model.specs.declared.resource.Change.TheVariants as Changes;

/// A change at one key leaves the values of all others, and the kind of every value.
#[tactic(auto, using(crate::proofs::TouchLemmas::leaving))]
pub fn change_leaves_the_other_keys()
    ensures others { (m : Resources) (k q : List ℕ) (change : Change)
        → bytes_eq q k ≡ false → changed_at m k change q ≡ m q }
    ensures kinds { (m : Resources) (k q : List ℕ) (change : Change)
        → option_map kind_of_value (changed_at m k change q) ≡ option_map kind_of_value (m q) }
{}

/// What a change wrote is what is looked at next.
#[tactic(auto, using(crate::proofs::TouchLemmas::looking))]
pub fn changed_value_is_looked_at()
    ensures set { (m : Resources) (k : List ℕ) (name : Bor (List ℕ)) (text : List ℕ)
        → HasKind (m k) Kind.properties
        → answered (changed_at m k (Changes.SetProp name.now text) k) (Asks.Prop name) ≡ Some text }
    ensures cleared { (m : Resources) (k : List ℕ) (name : Bor (List ℕ))
        → answered (changed_at m k (Changes.ClearProp name.now) k) (Asks.Prop name) ≡ None }
    ensures locale { (m : Resources) (k text : List ℕ)
        → HasKind (m k) Kind.locale
        → answered (changed_at m k (Changes.SetLocale text) k) Asks.Locale ≡ Some text }
    ensures written { (m : Resources) (k text : List ℕ)
        → HasKind (m k) Kind.file
        → answered (changed_at m k (Changes.WriteFile text) k) Asks.File ≡ Some text }
    ensures deleted { (m : Resources) (k : List ℕ)
        → answered (changed_at m k Changes.DeleteFile k) Asks.File ≡ None }
{}

/// Setting or clearing one property leaves what is looked at in the others.
#[tactic(auto, using(crate::proofs::TouchLemmas::other_properties))]
pub fn change_leaves_the_other_properties()
    ensures set { (m : Resources) (k : List ℕ) (name : List ℕ) (other : Bor (List ℕ))
        (text : List ℕ)
        → bytes_eq other.now name ≡ false
        → answered (changed_at m k (Changes.SetProp name text) k) (Asks.Prop other)
        ≡ answered (m k) (Asks.Prop other) }
    ensures cleared { (m : Resources) (k : List ℕ) (name : List ℕ) (other : Bor (List ℕ))
        → bytes_eq other.now name ≡ false
        → answered (changed_at m k (Changes.ClearProp name) k) (Asks.Prop other)
        ≡ answered (m k) (Asks.Prop other) }
{}
