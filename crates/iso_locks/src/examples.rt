//! Worked examples of the definitions, as public laws.

ghost use Rattle.std.specs.Prelude.{◌≡◌, ◌∷◌, [], None, Some, codes};
ghost use Rattle.iso_locks.specs.Examples.{a_alone, both, file_a, file_b, first_lent, missing, one_reader, second_lent, two_writers, written};
ghost use Rattle.iso_locks.specs.Trays.{kept, number_of, resources, restored};
ghost use Rattle.iso_model.specs.declared.resource.Resource.TheVariants.{File};
ghost use Rattle.iso_settings.specs.Worlds.{empty_start, starting_value_in};

/// Going back to a mark of a class restores what that class may write, and leaves what another open
/// class wrote.
#[tactic(auto, unfolding(iso_plan::specs::Paths::path))]
pub fn undo_leaves_what_another_class_wrote()
    ensures kept { kept two_writers 1 (both missing missing) ≡ a_alone missing }
    ensures of_a_test { kept two_writers 2 (both missing missing) ≡ a_alone missing }
    ensures restored { restored (a_alone missing) (both written written) ≡ both missing written }
{}

/// A class's mark keeps nothing that the class may only look at, and nothing that only a test of it
/// may write.
#[tactic(auto, unfolding(iso_plan::specs::Paths::path))]
pub fn mark_keeps_what_the_chain_may_write()
    ensures class { kept one_reader 1 (both missing missing) ≡ None ∷ None ∷ None ∷ [] }
    ensures test { kept one_reader 3 (both missing written) ≡ None ∷ None ∷ Some written ∷ [] }
{}

/// A value that was moved into a tray is seen as it stands; a key that no node lent to the tray
/// takes isn't there.
#[tactic(auto, unfolding(iso_plan::specs::Paths::path))]
pub fn moved_values_are_seen_as_they_stand()
    ensures number { number_of two_writers file_b ≡ Some 2 }
    ensures unknown { number_of two_writers (codes "file:c") ≡ None }
    ensures moved { resources two_writers empty_start first_lent (a_alone written) file_a
        ≡ Some (File (Some (codes "m"))) }
    ensures other { resources two_writers empty_start first_lent (a_alone written) file_b ≡ None }
{}

/// A test that takes no key itself sees what its locking node holds for READ, as it starts.
#[tactic(auto, unfolding(iso_plan::specs::Paths::path))]
pub fn locking_nodes_open_keys_for_looking()
    ensures read { resources one_reader empty_start second_lent (None ∷ None ∷ None ∷ []) file_a
        ≡ Some (starting_value_in empty_start file_a) }
    ensures unread { resources one_reader empty_start second_lent
        (None ∷ None ∷ None ∷ []) file_b ≡ None }
{}
