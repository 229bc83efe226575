//! Laws of records. Each function does nothing: its contract is the law, and is proved.
ghost use Rattle.std.specs.List.{AllByRecursion};
ghost use Rattle.std.specs.Prelude.{ℕ, ◌≤◌, ◌<◌, ◌^◌, Err, List, Ok, length};
ghost use Rattle.iso_core.specs.EventRuns.{AreAccepted};
ghost use Rattle.iso_model.specs.declared.limits.TheConstants.{FILE_BYTES};
ghost use Rattle.iso_plan.specs.Planned.{Planned};
ghost use Rattle.iso_record.specs.Texts.{IsShort, schedule_text};
ghost use Rattle.iso_schedule.specs.Schedules.{AreRead};
ghost use Rattle.iso_schedule.specs.declared.fault.ScheduleFaultKind.TheVariants.{TooLong};
ghost use Rattle.iso_settings.specs.Worlds.{Start};
ghost use Rattle.iso_standing.specs.declared.event.Event.{Event};

/// What is written of events is read as these events, where no number has more than nine digits and
/// the text no more bytes than a schedule may have. With more it is TooLong.
pub fn written_events_are_read_back()
    ensures read { (es : List Event) → AllByRecursion IsShort es
        → length (schedule_text es) ≤ FILE_BYTES
        → AreRead (schedule_text es) (Ok es) }
    ensures too_long { (es : List Event) → FILE_BYTES < length (schedule_text es)
        → AreRead (schedule_text es) (Err (record { kind = TooLong; line = 1 })) }
{}

/// The events that a core accepts have numbers of at most nine digits, where there are no more
/// workers and nodes.
pub fn accepted_events_are_short()
    ensures { (plan : Planned) (world : Start) (workers : ℕ) (es : List Event)
        → AreAccepted plan world workers es
        → workers ≤ 10 ^ 9 → length plan.rows ≤ 10 ^ 9 → AllByRecursion IsShort es }
{}
