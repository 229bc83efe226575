//! Worked examples of the format, as public laws.

ghost use Rattle.std.specs.Prelude.{[], ◌∷◌};
ghost use Rattle.iso_schedule.specs.Examples.{HasBadLine, HasBigNumber, IsSchedule};
ghost use Rattle.iso_standing.specs.declared.event.Event.TheVariants.{Enter, Leave, Shut, Step};

/// A line has the word of an event, the worker, and then the node where one is named. No line, no
/// event.
pub fn lines_write_events()
    ensures each { IsSchedule "enter 2 1\nstep 2\nleave 2\nshut 2 1\n"
        (Enter 2 1 ∷ Step 2 ∷ Leave 2 ∷ Shut 2 1 ∷ []) }
    ensures none { IsSchedule "" [] }
{}

/// The last line needs no line feed. Empty lines are skipped, and counted.
pub fn lines_end_at_line_feeds()
    ensures last { IsSchedule "step 0\nleave 0" (Step 0 ∷ Leave 0 ∷ []) }
    ensures empty { IsSchedule "\n\nstep 0\n\n" (Step 0 ∷ []) }
    ensures counted { HasBadLine "\n\nstop 0" 3 }
{}

/// One carriage return is dropped, right before a line feed. Elsewhere it makes a bad line.
pub fn carriage_returns_stand_before_line_feeds()
    ensures dropped { IsSchedule "step 0\r\n\r\nleave 0\r\n" (Step 0 ∷ Leave 0 ∷ []) }
    ensures two { HasBadLine "step 0\r\r\n" 1 }
    ensures inside { HasBadLine "step\r0\n" 1 }
    ensures at_the_end { HasBadLine "step 0\r" 1 }
{}

/// One or more spaces stand between words, and none around them.
pub fn spaces_stand_between_words()
    ensures more { IsSchedule "enter  0   1" (Enter 0 1 ∷ []) }
    ensures before { HasBadLine " step 0" 1 }
    ensures after { HasBadLine "step 0 \n" 1 }
    ensures none { HasBadLine "step0" 1 }
    ensures alone { HasBadLine "  " 1 }
    ensures tab { HasBadLine "step\t0" 1 }
{}

/// Numbers are decimal digits, at most nine of them, and zeros in front count.
pub fn numbers_have_up_to_nine_digits()
    ensures nine { IsSchedule "enter 999999999 000000001" (Enter 999999999 1 ∷ []) }
    ensures worker { HasBigNumber "leave 0000000000" 1 }
    ensures node { HasBigNumber "shut 0 1000000000" 1 }
    ensures sign { HasBadLine "step +1" 1 }
    ensures letter { HasBadLine "step 1a" 1 }
{}

/// Any other line is bad.
pub fn other_lines_are_bad()
    ensures word { HasBadLine "Step 0" 1 }
    ensures no_worker { HasBadLine "step" 1 }
    ensures no_node { HasBadLine "enter 0" 1 }
    ensures node_of_leave { HasBadLine "leave 0 1" 1 }
    ensures third { HasBadLine "shut 0 1 2" 1 }
{}

/// The first fault is answered. A bad line is bad whatever its numbers are.
pub fn first_fault_is_answered()
    ensures lines { HasBadLine "step 0\nstop 0\nleave 0000000000\n" 2 }
    ensures number { HasBigNumber "leave 0000000000\nstop 0\n" 1 }
    ensures bad_first { HasBadLine "step 0000000000 1" 1 }
{}
