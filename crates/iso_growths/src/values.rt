//! Values that change and go back.
ghost use Rattle.std.specs.Prelude.{◌≡◌, IfOk};
ghost use Rattle.iso_store.specs.Histories.{IsEarlier};

use crate::answer::{Answer, expect, out_of_memory};
use crate::calls::Calls;
use crate::host::Host;
use iso_model::properties::Properties;
use iso_model::resource::{Ask, Change, Resource};
use iso_model::text::Text;
use iso_store::held::{Held, Savepoint};
use std::alloc::{AllocError, Global};

/// What a value answers when it is asked for the properties a and b, the locale and the file.
#[derive(Clone, Copy)]
struct Looks {
    a: Option<&'static str>,
    b: Option<&'static str>,
    locale: Option<&'static str>,
    file: Option<&'static str>,
}

/// It has none of them.
const NOTHING: Looks = Looks {
    a: None,
    b: None,
    locale: None,
    file: None,
};

const A_IS_1: Looks = Looks {
    a: Some("1"),
    ..NOTHING
};

const A_IS_2: Looks = Looks {
    a: Some("2"),
    ..NOTHING
};

const ENGLISH: Looks = Looks {
    locale: Some("en"),
    ..NOTHING
};

const POLISH: Looks = Looks {
    locale: Some("pl"),
    ..NOTHING
};

const FILE_IS_M: Looks = Looks {
    file: Some("m"),
    ..NOTHING
};

/// A change that can be written down.
#[derive(Clone, Copy)]
enum Wanted {
    /// Sets the property a.
    SetA(&'static str),
    /// Clears a property.
    Clear(&'static str),
    Locale(&'static str),
    Write(&'static str),
    Delete,
}

impl Wanted {
    fn made(self, alloc: Global) -> Result<Change, AllocError> {
        match self {
            Wanted::SetA(text) => set_a(alloc, text),
            Wanted::Clear(name) => Ok(Change::ClearProp(Text::copied(alloc, name)?)),
            Wanted::Locale(tag) => Ok(Change::SetLocale(Text::copied(alloc, tag)?)),
            Wanted::Write(text) => Ok(Change::WriteFile(Text::copied(alloc, text)?)),
            Wanted::Delete => Ok(Change::DeleteFile),
        }
    }
}

fn set_a(alloc: Global, text: &str) -> Result<Change, AllocError> {
    Ok(Change::SetProp(Text::copied(alloc, "a")?, Text::copied(alloc, text)?))
}

/// A change, and what the value answers after it.
struct Row {
    wanted: Wanted,
    after: Looks,
}

/// Sets and clears properties, none of which is there at first.
static PROPERTIES: [Row; 4] = [
    Row {
        wanted: Wanted::SetA("1"),
        after: A_IS_1,
    },
    Row {
        wanted: Wanted::Clear("b"),
        after: A_IS_1,
    },
    Row {
        wanted: Wanted::SetA("2"),
        after: A_IS_2,
    },
    Row {
        wanted: Wanted::Clear("a"),
        after: NOTHING,
    },
];

/// Writes and deletes a file.
static FILE: [Row; 2] = [
    Row {
        wanted: Wanted::Write("m"),
        after: FILE_IS_M,
    },
    Row {
        wanted: Wanted::Delete,
        after: NOTHING,
    },
];

/// Sets a locale that was another one.
static LOCALE: [Row; 1] = [Row {
    wanted: Wanted::Locale("pl"),
    after: POLISH,
}];

/// Whether a value answers so.
fn answers(held: &Held, want: Looks) -> bool {
    held.look(Ask::Prop("a")) == want.a
        && held.look(Ask::Prop("b")) == want.b
        && held.look(Ask::Locale) == want.locale
        && held.look(Ask::File) == want.file
}

/// Changes a value, which answers as before where memory ran out.
fn apply<H: Host>(
    calls: &Calls<'_, H>,
    held: &mut Held,
    change: Change,
    before: Looks,
    after: Looks,
) -> Result<(), Answer>
    ensures { IsEarlier held.old held.new }
{
    calls.begin("Held::apply");
    let applied = held.apply(change);
    calls.end("Held::apply");
    match applied {
        Ok(()) => expect(answers(held, after), "another value"),
        Err(_) => Err(out_of_memory(answers(held, before), "another value after no change")),
    }
}

/// Changes a value, which answers so before, by each row in turn.
fn apply_rows<H: Host>(
    calls: &Calls<'_, H>,
    held: &mut Held,
    first: Looks,
    rows: &[Row],
) -> Result<(), Answer>
    ensures { IsEarlier held.old held.new }
{
    let mut before = first;
    'rows: for row in rows {
        let change = row.wanted.made(calls.alloc())?;
        apply(calls, held, change, before, row.after)?;
        before = row.after;
    }
    Ok(())
}

/// Marks where a value is.
fn marked<H: Host>(calls: &Calls<'_, H>, held: &Held) -> Result<Savepoint, Answer>
    ensures { IfOk result (λ m. m ≡ held.now) }
{
    calls.begin("Held::mark");
    let marked = held.mark();
    calls.end("Held::mark");
    Ok(marked?)
}

/// Changes a value by each row, marks where it is then, and goes back to where it was.
fn change_and_go_back<H: Host>(
    calls: &Calls<'_, H>,
    held: &mut Held,
    first: Looks,
    rows: &[Row],
) -> Result<(), Answer> {
    let mark = marked(calls, held)?;
    apply_rows(calls, held, first, rows)?;
    let _changed = marked(calls, held)?;
    calls.begin("Held::undo_to");
    held.undo_to(mark);
    calls.end("Held::undo_to");
    expect(answers(held, first), "another value after going back")
}

/// Changes a value of some kind.
fn change<H: Host>(
    calls: &Calls<'_, H>,
    value: Resource,
    first: Looks,
    rows: &[Row],
) -> Result<(), Answer> {
    let mut held = Held::new(calls.alloc(), value);
    let changed = change_and_go_back(calls, &mut held, first, rows);
    held.discard();
    changed
}

/// Changes a value of each kind.
pub(crate) fn change_each<H: Host>(calls: &Calls<'_, H>) -> Result<(), Answer> {
    let alloc = calls.alloc();
    let properties = Resource::Props(Properties::new(alloc));
    change(calls, properties, NOTHING, PROPERTIES.as_slice())?;
    change(calls, Resource::File(None), NOTHING, FILE.as_slice())?;
    let english = Resource::Locale(Text::copied(alloc, "en")?);
    change(calls, english, ENGLISH, LOCALE.as_slice())
}
