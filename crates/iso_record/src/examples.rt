//! Worked examples of the definitions, as public laws.
ghost use Rattle.std.specs.Prelude.{◌≡◌, ◌∷◌, [], codes};
ghost use Rattle.iso_record.specs.Texts.{schedule_text};
ghost use Rattle.iso_standing.specs.declared.event.Event.TheVariants.{Enter, Leave, Shut, Step};

/// Each event has a line with its word, the worker, and then the node where one is named.
pub fn events_have_a_line_each()
    ensures each { schedule_text (Enter 2 10 ∷ Step 2 ∷ Leave 2 ∷ Shut 2 10 ∷ [])
        ≡ codes "enter 2 10\nstep 2\nleave 2\nshut 2 10\n" }
    ensures none { schedule_text [] ≡ [] }
{}
