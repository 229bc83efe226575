//! Worked examples of the grammar of scripts, as public laws: these bytes are this script.
ghost use Rattle.std.specs.Prelude.{[], ◌∷◌};
ghost use Rattle.iso_model.specs.Chains.{empty_head};
ghost use Rattle.iso_model.specs.Scripts.{class_member};
ghost use Rattle.iso_script.specs.Examples.{AreClasses, AreCrlfClasses, a_class, blocks_text, commented_class, commented_text, empty_test};
ghost use Rattle.iso_script.specs.Examples.{ArePlacedClasses, class_at, placed_class, placed_text, test_at};
ghost use Rattle.iso_script.specs.Examples.{marked_class, marked_text, members_text, variables_text, with_blocks, with_field, with_variables};

/// A team has any number of classes, which may have one name.
pub fn teams_have_classes()
    ensures none { AreClasses [] [] }
    ensures two { AreClasses ("class C { test t { } } class C { test t { } }" ∷ [])
        (a_class "C" empty_head (empty_test "t" ∷ [])
        ∷ a_class "C" empty_head (empty_test "t" ∷ []) ∷ []) }
{}

/// Marks stand in any order, and each that declares a key stands for itself. Display texts follow
/// names.
pub fn marks_and_display_texts_are_read()
    ensures { AreClasses marked_text (marked_class ∷ []) }
{}

/// Statics and fields begin at their literals. Lifecycle blocks stand in any order, and each counts
/// its own rows.
pub fn heads_of_classes_are_read()
    ensures variables { AreClasses variables_text
        (a_class "C" with_variables (empty_test "t" ∷ []) ∷ []) }
    ensures blocks { AreClasses blocks_text (a_class "C" with_blocks (empty_test "t" ∷ []) ∷ []) }
{}

/// Tests and classes are the members of a class as they are written.
pub fn members_are_read()
    ensures { AreClasses members_text
        (a_class "C" empty_head
        (empty_test "C" ∷ class_member (a_class "D" with_field (empty_test "C" ∷ []))
        ∷ class_member (a_class "E" with_field (empty_test "C" ∷ [])) ∷ empty_test "F" ∷ []) ∷ []) }
{}

/// Lines may end with a carriage return before the line feed, and comments may have tabs and
/// carriage returns.
pub fn comments_and_line_ends_are_left_out()
    ensures { AreCrlfClasses commented_text (commented_class ∷ []) }
{}

/// A node stands where its name does, with the lines of its blocks' opening braces, and a class
/// stands before its members.
pub fn nodes_stand_where_their_names_do()
    ensures { ArePlacedClasses placed_text (placed_class ∷ [])
        (class_at 2 7 4 0 0 5 ∷ test_at 6 6 7 ∷ class_at 7 13 0 0 7 0 ∷ test_at 8 8 8
        ∷ test_at 9 6 9 ∷ []) }
{}
