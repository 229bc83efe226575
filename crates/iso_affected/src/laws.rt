//! Laws of what agrees. Each function does nothing: its contract is the law, and is proved.
ghost use Rattle.std.specs.Prelude.{◌≡◌, ◌↔◌, ◌<◌, ℕ, List, Option, Some, None, true, ◌∷◌, length, slice_index_or};
ghost use Rattle.std.specs.List.{list_any};
ghost use Rattle.iso_affected.specs.Agreeing.{MayComeTo, NodesAgree, OwnAgree};
ghost use Rattle.iso_affected.specs.Fates.{AreFates, IsFate, suites};
ghost use Rattle.iso_affected.specs.Namesakes.{namesake};
ghost use Rattle.iso_affected.specs.Reasons.{AllAgree, IsDifference, is_nothing};
ghost use Rattle.iso_affected.specs.declared.difference.Difference.{Difference};
ghost use Rattle.iso_affected.specs.declared.affected.Fate.{Fate};
ghost use Rattle.iso_affected.specs.declared.affected.Fate.TheVariants.{Changed, New, Same};
ghost use Rattle.iso_affected.specs.Told.{AreDifferences, tells};
ghost use Rattle.iso_lifecycle.specs.Subjects.{started, subject};
ghost use Rattle.iso_model.specs.ChainAgreement.{ClassesAgree, TestsAgree};
ghost use Rattle.iso_model.specs.Chains.{ClassHead, TestHead};
ghost use Rattle.iso_model.specs.declared.outcome.Outcome.{Outcome};
ghost use Rattle.iso_plan.specs.NodeChains.{chain_classes, chain_test};
ghost use Rattle.iso_plan.specs.Paths.{path};
ghost use Rattle.iso_plan.specs.PathTexts.{path_text};
ghost use Rattle.iso_plan.specs.RowView.{tree_of};
ghost use Rattle.iso_settings.specs.Worlds.{Start};
ghost use Rattle.iso_suites.specs.ScriptLanguage.{Head};

use iso_plan::laws;
use iso_plan::plan::Plan;

/// A node that agrees with one of another plan has in each run the outcome that the other has in
/// each run of its plan, on any numbers of workers, in any orders of events that the locks allow
/// and under whatever settings.
pub fn nodes_that_agree_have_equal_outcomes(old: &Plan, new: &Plan)
    ensures { (before after : Start) (m n : ℕ) (p q : Outcome) → m < length old.now.rows
        → NodesAgree (subject old.now before m) (subject new.now after n)
        → MayComeTo old.now before m p → MayComeTo new.now after n q → p ≡ q }
{
    laws::nodes_are_a_tree(old);
    laws::nodes_are_a_tree(new);
}

/// What a change doesn't alter: a node of the new suite whose fate is `Same` has in each run the
/// outcome that its namesake in the old suite has in each run of that.
pub fn same_nodes_have_the_outcomes_that_they_had(old: &Plan, new: &Plan)
    ensures { (before after : Start) (n m : ℕ) (p q : Outcome)
        → IsFate (suites old.now before new.now after) n (Same m)
        → MayComeTo old.now before m p → MayComeTo new.now after n q → p ≡ q }
{
    nodes_that_agree_have_equal_outcomes(old, new);
}

/// Why a node is changed: it agrees with its namesake just where each node on its path, the node
/// and its enclosing classes, agrees with its own on what it has itself. So where it
/// doesn't, one of these has another head or a mark whose key starts with another value.
pub fn nodes_agree_where_all_on_their_paths_do(old: &Plan, new: &Plan)
    ensures { (before after : Start) (n m : ℕ) → n < length new.now.rows
        → namesake (tree_of old.now) (tree_of new.now) n ≡ Some m
        → (AllAgree (suites old.now before new.now after) n
        ↔ NodesAgree (subject old.now before m) (subject new.now after n)) }
{
    laws::nodes_are_a_tree(old);
    laws::nodes_are_a_tree(new);
}

/// Each reason is a difference, and there is one where two heads don't agree: they agree just where
/// nothing is told to differ.
pub fn heads_agree_where_nothing_differs()
    ensures { (before after : Start) (h g : Head) (d : Difference) → IsDifference before after h g d
        → ((is_nothing d ≡ true) ↔ OwnAgree before after h g) }
{}

/// A changed node is told of with a reason: something differs of what it has itself, or of what
/// an enclosing class has.
pub fn changed_nodes_have_a_reason(old: &Plan, new: &Plan)
    ensures { (before after : Start) (fates : List Fate) (told : List (Option Difference))
        → AreFates (suites old.now before new.now after) fates
        → AreDifferences (suites old.now before new.now after) fates told → (n m : ℕ)
        → n < length new.now.rows
        → slice_index_or fates n New ≡ Changed m
        → list_any (tells told) (path (tree_of new.now) n) ≡ true }
{
    laws::nodes_are_a_tree(old);
    laws::nodes_are_a_tree(new);
}

/// A node and its namesake have one path, as `jtap plan` prints it.
pub fn namesakes_have_equal_paths(old: &Plan, new: &Plan)
    ensures { (n m : ℕ) → namesake (tree_of old.now) (tree_of new.now) n ≡ Some m
        → path_text (tree_of old.now) m ≡ path_text (tree_of new.now) n }
{
    laws::nodes_are_a_tree(old);
    laws::nodes_are_a_tree(new);
}

/// Tests, and classes, that agree so agree as the law
/// `iso_suites::laws::what_agrees_has_equal_outcomes` asks: on their heads, on those of the classes
/// around them, and on the starting values of the keys that these are marked with.
pub fn nodes_that_agree_keep_the_premises_of_the_theorem(old: &Plan, new: &Plan)
    ensures tests { (before after : Start) (m n : ℕ) (t u : TestHead)
        → chain_test (tree_of old.now) m ≡ Some t → chain_test (tree_of new.now) n ≡ Some u
        → NodesAgree (subject old.now before m) (subject new.now after n)
        → TestsAgree t (chain_classes (tree_of old.now) m) (started before) u
        (chain_classes (tree_of new.now) n) (started after) }
    ensures classes { (before after : Start) (m n : ℕ) (c d : ClassHead) (cs ds : List ClassHead)
        → chain_test (tree_of old.now) m ≡ None
        → chain_classes (tree_of old.now) m ≡ c ∷ cs → chain_classes (tree_of new.now) n ≡ d ∷ ds
        → NodesAgree (subject old.now before m) (subject new.now after n)
        → ClassesAgree c cs (started before) d ds (started after) }
{}
