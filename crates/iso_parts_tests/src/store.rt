//! Values that are changed and go back, with memory at hand and without.
ghost use Rattle.std.specs.Prelude.{OnOk};
ghost use Rattle.iso_store.specs.Histories.{History, IsEarlier};

use crate::shared::set_property;
use iso_model::properties::Properties;
use iso_model::resource::{Ask, Change, Resource};
use iso_model::text::Text;
use iso_store::held::Held;
use std::alloc::{AllocError, Global};
use std::process::Abort;

/// A value under test. It is spent wherever the test ends.
struct Trial {
    held: Held,
}

impl Drop for Trial {
    fn drop(self) {
        let Trial { held } = self;
        held.discard();
    }
}

fn set(alloc: Global, name: &str, text: &str) -> Result<Change, AllocError> {
    Ok(Change::SetProp(Text::copied(alloc, name)?, Text::copied(alloc, text)?))
}

fn clear(alloc: Global, name: &str) -> Result<Change, AllocError> {
    Ok(Change::ClearProp(Text::copied(alloc, name)?))
}

fn write(alloc: Global, text: &str) -> Result<Change, AllocError> {
    Ok(Change::WriteFile(Text::copied(alloc, text)?))
}

fn set_locale(alloc: Global, locale: &str) -> Result<Change, AllocError> {
    Ok(Change::SetLocale(Text::copied(alloc, locale)?))
}

/// Properties of which a is "1".
fn with_a(alloc: Global) -> Result<Resource, AllocError> {
    let mut properties = Properties::new(alloc);
    set_property(alloc, &mut properties, "a", "1")?;
    Ok(Resource::Props(properties))
}

/// A value under test, of properties of which a is "1".
fn a_is_1(alloc: Global) -> Result<Trial, AllocError> {
    Ok(Trial {
        held: Held::new(alloc, with_a(alloc)?),
    })
}

/// Makes a change. What could be gone back to before can be gone back to after it.
fn make(held: &mut Held, change: Result<Change, AllocError>) -> Result<(), AllocError>
    ensures { OnOk result ((mark : History) → IsEarlier mark held.old → IsEarlier mark held.new) }
{
    held.apply(change?)?;
    Ok(())
}

/// Asserts what a value answers.
fn expect(rt: &impl Abort, held: &Held, ask: Ask<'_>, want: Option<&str>) {
    assert_eq!(rt; held.look(ask), want);
}

fn a_and_b_go_back(rt: &impl Abort, alloc: Global, held: &mut Held) -> Result<(), AllocError> {
    let mark = held.mark()?;
    make(held, clear(alloc, "a"))?;
    expect(rt, held, Ask::Prop("a"), None);
    make(held, set(alloc, "b", "2"))?;
    expect(rt, held, Ask::Prop("b"), Some("2"));
    held.undo_to(mark);
    expect(rt, held, Ask::Prop("a"), Some("1"));
    expect(rt, held, Ask::Prop("b"), None);
    Ok(())
}

#[test]
fn properties_go_back_to_a_mark(rt: HostRuntime) -> Result<(), AllocError> {
    let mut trial = a_is_1(rt.alloc())?;
    a_and_b_go_back(&rt, rt.alloc(), &mut trial.held)
}

fn file_goes_back(rt: &impl Abort, alloc: Global, held: &mut Held) -> Result<(), AllocError> {
    let missing = held.mark()?;
    make(held, write(alloc, "made"))?;
    let made = held.mark()?;
    make(held, Ok(Change::DeleteFile))?;
    expect(rt, held, Ask::File, None);
    make(held, write(alloc, "made again"))?;
    expect(rt, held, Ask::File, Some("made again"));
    held.undo_to(made);
    expect(rt, held, Ask::File, Some("made"));
    held.undo_to(missing);
    expect(rt, held, Ask::File, None);
    Ok(())
}

#[test]
fn file_that_was_missing_is_missing_again(rt: HostRuntime) -> Result<(), AllocError> {
    let mut trial = Trial {
        held: Held::new(rt.alloc(), Resource::File(None)),
    };
    file_goes_back(&rt, rt.alloc(), &mut trial.held)
}

fn a_goes_back_twice(rt: &impl Abort, alloc: Global, held: &mut Held) -> Result<(), AllocError> {
    let outer = held.mark()?;
    make(held, set(alloc, "a", "2"))?;
    let inner = held.mark()?;
    make(held, set(alloc, "a", "3"))?;
    held.undo_to(inner);
    expect(rt, held, Ask::Prop("a"), Some("2"));
    make(held, clear(alloc, "a"))?;
    held.undo_to(outer);
    expect(rt, held, Ask::Prop("a"), Some("1"));
    Ok(())
}

#[test]
fn marks_stand_inside_marks(rt: HostRuntime) -> Result<(), AllocError> {
    let mut trial = a_is_1(rt.alloc())?;
    a_goes_back_twice(&rt, rt.alloc(), &mut trial.held)
}

fn locale_goes_back(rt: &impl Abort, alloc: Global, held: &mut Held) -> Result<(), AllocError> {
    let mark = held.mark()?;
    make(held, set_locale(alloc, "fr"))?;
    expect(rt, held, Ask::Locale, Some("fr"));
    held.undo_to(mark);
    expect(rt, held, Ask::Locale, Some("en"));
    Ok(())
}

#[test]
fn locale_comes_back_as_it_started(rt: HostRuntime) -> Result<(), AllocError> {
    let locale = Text::copied(rt.alloc(), "en")?;
    let mut trial = Trial {
        held: Held::new(rt.alloc(), Resource::Locale(locale)),
    };
    locale_goes_back(&rt, rt.alloc(), &mut trial.held)
}

/// What a is in a value that came back.
fn text_of_a(value: &Resource) -> Option<&str> {
    match value {
        Resource::Props(properties) => properties.get("a").map(|text| text.as_str()),
        Resource::Locale(_) | Resource::File(_) | Resource::Plain => None,
    }
}

#[test]
fn value_comes_back_where_it_started(rt: HostRuntime) -> Result<(), AllocError> {
    let held = Held::new(rt.alloc(), with_a(rt.alloc())?);
    let value = held.into_resource();
    assert_eq!(rt; text_of_a(&value), Some("1"));
    Ok(())
}

fn deletion_changes_no_property(
    rt: &impl Abort,
    alloc: Global,
    held: &mut Held,
) -> Result<(), AllocError> {
    let mark = held.mark()?;
    make(held, Ok(Change::DeleteFile))?;
    expect(rt, held, Ask::Prop("a"), Some("1"));
    expect(rt, held, Ask::Locale, None);
    held.undo_to(mark);
    expect(rt, held, Ask::Prop("a"), Some("1"));
    Ok(())
}

#[test]
fn change_of_another_kind_changes_nothing(rt: HostRuntime) -> Result<(), AllocError> {
    let mut trial = a_is_1(rt.alloc())?;
    deletion_changes_no_property(&rt, rt.alloc(), &mut trial.held)
}

/// A text of 4,096 bytes, the longest.
fn longest(alloc: Global) -> Result<String, AllocError> {
    let mut text = String::new(alloc);
    for _ in 0..4_096 {
        text.push('x')?;
    }
    Ok(text)
}

/// Sets 9,999 properties to this text.
fn set_many(alloc: Global, held: &mut Held, text: &str) -> Result<(), AllocError>
    ensures { OnOk result ((mark : History) → IsEarlier mark held.old → IsEarlier mark held.new) }
{
    for n in 0..9_999 {
        let name = format!(in alloc; "{n}")?;
        make(held, set(alloc, name.as_str(), text))?;
    }
    Ok(())
}

fn many_changes_are_undone(
    rt: &impl Abort,
    alloc: Global,
    held: &mut Held,
    long: &str,
) -> Result<(), AllocError> {
    make(held, set(alloc, long, long))?;
    let mark = held.mark()?;
    set_many(alloc, held, long)?;
    expect(rt, held, Ask::Prop("9998"), Some(long));
    held.undo_to(mark);
    expect(rt, held, Ask::Prop("9998"), None);
    expect(rt, held, Ask::Prop(long), Some(long));
    Ok(())
}

#[test]
fn as_many_changes_as_a_block_has_steps_are_undone(rt: HostRuntime) -> Result<(), AllocError> {
    let long = longest(rt.alloc())?;
    let mut trial = a_is_1(rt.alloc())?;
    many_changes_are_undone(&rt, rt.alloc(), &mut trial.held, long.as_str())
}

/// Whether a change was made, or was refused and left all as it was.
fn changes_or_stays(
    held: &mut Held,
    change: Change,
    before: Option<&str>,
    after: Option<&str>,
) -> bool
    ensures { (mark : History) → IsEarlier mark held.old → IsEarlier mark held.new }
{
    match held.apply(change) {
        Ok(()) => held.look(Ask::Prop("a")) == after,
        Err(_) => held.look(Ask::Prop("a")) == before,
    }
}

/// Makes two changes that may be refused, and goes back.
fn refused_changes_go_back(
    rt: &impl Abort,
    held: &mut Held,
    cleared: Change,
    again: Change,
) -> Result<(), AllocError> {
    let mark = held.mark()?;
    assert!(rt; changes_or_stays(held, cleared, Some("1"), None));
    let before = held.look(Ask::Prop("a")).is_some();
    let before = if before { Some("1") } else { None };
    assert!(rt; changes_or_stays(held, again, before, Some("2")));
    held.undo_to(mark);
    expect(rt, held, Ask::Prop("a"), Some("1"));
    Ok(())
}

/// Run with each growth refused in turn, by `rt try --test --fail-alloc N`.
#[test]
fn refused_growth_changes_nothing(rt: HostRuntime) {
    if let Ok(mut trial) = a_is_1(rt.alloc())
        && let Ok(cleared) = clear(rt.alloc(), "a")
        && let Ok(again) = set(rt.alloc(), "a", "2")
    {
        let _ = refused_changes_go_back(&rt, &mut trial.held, cleared, again);
    }
}
