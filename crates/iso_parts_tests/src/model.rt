//! Each call once with memory at hand, on the texts that the language gives.
use crate::shared::{check_text, expect, push_lines, set_property};
use iso_model::access::Access;
use iso_model::bindings::Bindings;
use iso_model::data::Data;
use iso_model::fault::Fault;
use iso_model::heads::{Mark, Target};
use iso_model::key::Key;
use iso_model::lines::{LineSlice, Lines};
use iso_model::names::{AssignFault, Names, Sort};
use iso_model::place::{BlockName, Lifecycle, Place};
use iso_model::properties::Properties;
use iso_model::resource::Resource;
use iso_model::rights::Rights;
use iso_model::text::Text;
use std::alloc::{AllocError, Global};
use std::process::Abort;

/// A text, if there was memory for it, is this.
fn check(rt: &impl Abort, text: Result<Text, AllocError>, want: &str) -> Result<(), AllocError> {
    let text = text?;
    check_text(rt, "a text", text.as_str(), want);
    Ok(())
}

/// `text` gives this of a copy of a value.
fn check_written(
    rt: &impl Abort,
    alloc: Global,
    value: &Data,
    want: &str,
) -> Result<(), AllocError> {
    let copied = value.copy(alloc)?;
    check(rt, copied.text(alloc), want)
}

/// Numbers, with how they are written.
static NUMBERS: [(i64, &str); 4] = [
    (i64::MIN, "-9223372036854775808"),
    (-5, "-5"),
    (0, "0"),
    (i64::MAX, "9223372036854775807"),
];

#[test]
fn values_are_written_in_decimal_and_words(rt: HostRuntime) -> Result<(), AllocError> {
    let alloc = rt.alloc();
    for (number, want) in &NUMBERS {
        check_written(&rt, alloc, &Data::Whole(*number), want)?;
    }
    check_written(&rt, alloc, &Data::Flag(true), "true")?;
    check_written(&rt, alloc, &Data::Flag(false), "false")?;
    let text = Data::Text(Text::copied(alloc, "a b")?);
    check_written(&rt, alloc, &text, "a b")
}

/// Lines: empty ones, one with a line feed, and the first and last characters of each length in
/// UTF-8.
static LINES: [&str; 5] = [
    "",
    "a\nb",
    "",
    "\0\u{7F}\u{80}\u{7FF}",
    "\u{800}\u{FFFF}\u{10000}\u{10FFFF}",
];

/// Lines that were added one by one.
fn lines_of(alloc: Global, texts: &[&str]) -> Result<Lines, AllocError> {
    let mut lines = Lines::new(alloc);
    for text in texts {
        lines.push(text)?;
    }
    Ok(lines)
}

#[test]
fn lines_are_told_apart(rt: HostRuntime) -> Result<(), AllocError> {
    let alloc = rt.alloc();
    let mut lines = lines_of(alloc, &LINES[..3])?;
    lines.append(lines_of(alloc, &LINES[3..])?)?;
    lines.shrink_to_fit();
    let mut told = String::new(alloc);
    push_lines(alloc, &mut told, lines.as_slice(), "|")?;
    check_text(
        &rt,
        "lines",
        told.as_str(),
        "|a\nb||\0\u{7F}\u{80}\u{7FF}|\u{800}\u{FFFF}\u{10000}\u{10FFFF}|",
    );
    assert!(rt; !lines.as_slice().is_empty());
    assert!(rt; LineSlice::empty().is_empty());
    Ok(())
}

/// A fault says this.
fn check_fault(rt: &impl Abort, alloc: Global, fault: Fault, want: &str) -> Result<(), AllocError> {
    check(rt, fault.message(alloc), want)
}

#[test]
fn faults_say_what_is_wrong(rt: HostRuntime) -> Result<(), AllocError> {
    let alloc = rt.alloc();
    check_fault(&rt, alloc, Fault::Overflow, "overflow")?;
    check_fault(&rt, alloc, Fault::WrongKind, "wrong kind")?;
    check_fault(&rt, alloc, Fault::BadCount, "bad count")?;
    check_fault(&rt, alloc, Fault::OutputFull, "output is full")?;
    check_fault(&rt, alloc, Fault::TextTooLong, "text is too long")?;
    Ok(())
}

#[test]
fn faults_name_the_name(rt: HostRuntime) -> Result<(), AllocError> {
    let alloc = rt.alloc();
    let unknown = Fault::UnknownName(Text::copied(alloc, "x")?);
    check_fault(&rt, alloc, unknown, "unknown name x")?;
    let double = Fault::DoubleName(Text::copied(alloc, "x")?);
    check_fault(&rt, alloc, double, "name x is taken")?;
    let frozen = Fault::Frozen(Text::copied(alloc, "n")?);
    check_fault(&rt, alloc, frozen, "n is frozen")?;
    Ok(())
}

#[test]
fn faults_name_the_resource(rt: HostRuntime) -> Result<(), AllocError> {
    let alloc = rt.alloc();
    let looked = Fault::Undeclared(Access::Read, Key::of_file(alloc, "a")?);
    check_fault(&rt, alloc, looked, "undeclared READ of file:a")?;
    let changed = Fault::Undeclared(Access::Write, Key::of_file(alloc, "a")?);
    check_fault(&rt, alloc, changed, "undeclared READ_WRITE of file:a")?;
    let property = Fault::MissingProperty(Text::copied(alloc, "a")?);
    check_fault(&rt, alloc, property, "missing property a")?;
    let file = Fault::MissingFile(Text::copied(alloc, "a")?);
    check_fault(&rt, alloc, file, "missing file a")?;
    Ok(())
}

/// Places, with how they are named.
static PLACES: [(Place, &str); 4] = [
    (Place::Row(BlockName::Test, 1), "test row 1"),
    (
        Place::Row(BlockName::Class(1, Lifecycle::BeforeAll), 1),
        "class 1 before_all row 1",
    ),
    (
        Place::Row(BlockName::Class(8, Lifecycle::AfterEach), 12),
        "class 8 after_each row 12",
    ),
    (Place::Disabled, "disabled"),
];

#[test]
fn places_name_their_block(rt: HostRuntime) -> Result<(), AllocError> {
    let alloc = rt.alloc();
    for (place, want) in &PLACES {
        check(&rt, place.text(alloc), want)?;
    }
    Ok(())
}

/// A value in a word.
fn word(value: &Resource) -> &str {
    match value {
        Resource::Props(_) => "properties",
        Resource::Locale(locale) => locale.as_str(),
        Resource::File(None) => "missing",
        Resource::File(Some(_)) => "file",
        Resource::Plain => "lock",
    }
}

/// The value that a key starts with.
fn start(alloc: Global, key: &str) -> Result<Resource, AllocError> {
    let key = Key::new(alloc, Text::copied(alloc, key)?)?;
    Resource::starting(alloc, &key)
}

/// Keys, with what they start at.
static STARTS: [(&str, &str); 4] = [
    ("java.lang.System.properties", "properties"),
    ("java.util.Locale.default", "en"),
    ("file:a", "missing"),
    ("k", "lock"),
];

#[test]
fn keys_start_at_their_value(rt: HostRuntime) -> Result<(), AllocError> {
    let alloc = rt.alloc();
    for (key, want) in &STARTS {
        let value = start(alloc, key)?;
        check_text(&rt, key, word(&value), want);
    }
    Ok(())
}

/// Whether a property is this text, or is absent.
fn is_set(properties: &Properties, name: &str, want: Option<&str>) -> bool {
    properties.get(name).map(|text| text.as_str()) == want
}

/// Sets a and b in empty properties, and clears a and c.
fn check_cleared(
    rt: &impl Abort,
    alloc: Global,
    properties: &mut Properties,
) -> Result<(), AllocError> {
    set_property(alloc, properties, "a", "1")?;
    set_property(alloc, properties, "b", "")?;
    expect(rt, is_set(properties, "a", Some("1")), "a");
    properties.clear("a");
    properties.clear("c");
    expect(rt, is_set(properties, "a", None), "a, cleared");
    expect(rt, is_set(properties, "b", Some("")), "b");
    expect(rt, is_set(properties, "c", None), "c");
    Ok(())
}

#[test]
fn cleared_property_is_absent(rt: HostRuntime) -> Result<(), AllocError> {
    let mut properties = Properties::new(rt.alloc());
    check_cleared(&rt, rt.alloc(), &mut properties)
}

/// Names of which the only one is the local x, which is 1.
fn x_is_1(alloc: Global) -> Result<Names, AllocError> {
    let name = Text::copied(alloc, "x")?;
    let mut names = Names::new(Bindings::new(alloc, Vec::new(alloc)), 0, BlockName::Test);
    names.declare(name, Data::Whole(1))?;
    Ok(names)
}

/// Whether a name stands for a local.
fn is_local(names: &Names, name: &str) -> bool {
    names
        .get(name)
        .is_some_and(|binding| binding.sort == Sort::Local)
}

#[test]
fn local_is_visible_until_it_is_dropped(rt: HostRuntime) -> Result<(), AllocError> {
    let mut names = x_is_1(rt.alloc())?;
    assert!(rt; is_local(&names, "x"));
    names.keep(0);
    assert!(rt; names.get("x").is_none());
    Ok(())
}

#[test]
fn visible_name_is_assigned(rt: HostRuntime) -> Result<(), AllocError> {
    let mut names = x_is_1(rt.alloc())?;
    let unknown = names.assign("y", Data::Whole(2)).expect(&rt, "memory");
    expect(&rt, unknown == Err(AssignFault::UnknownName), "y");
    let visible = names.assign("x", Data::Flag(true)).expect(&rt, "memory");
    expect(&rt, visible.is_ok(), "x");
    expect(&rt, names.take_step(), "a step");
    Ok(())
}

/// Names that are declared again and again: so often that they are few, some more than few, and
/// many.
static AGAIN: [&str; 11] = ["a", "b", "c", "d", "e", "f", "g", "h", "i", "j", "k"];

static TURNS: [i64; 3] = [2, 3, 10];

/// Declares each of them, as the turn.
fn declare_again(alloc: Global, names: &mut Names, turn: i64) -> Result<(), AllocError> {
    for name in &AGAIN {
        names.declare(Text::copied(alloc, name)?, Data::Whole(turn))?;
    }
    Ok(())
}

/// The names of `turns` turns.
fn turned(alloc: Global, turns: i64) -> Result<Names, AllocError> {
    let mut names = Names::new(Bindings::new(alloc, Vec::new(alloc)), 0, BlockName::Test);
    for turn in 0..turns {
        declare_again(alloc, &mut names, turn)?;
    }
    Ok(names)
}

/// Whether a name stands for this number.
fn is_whole(names: &Names, name: &str, want: i64) -> bool {
    names.get(name).is_some_and(
        |binding| matches!(binding.value, Data::Whole(number) if *number == want),
    )
}

/// Assigns a name, declares one more, drops it with others, and declares one of those again.
fn check_first_of_each(
    rt: &impl Abort,
    alloc: Global,
    names: &mut Names,
) -> Result<(), AllocError> {
    names.index()?;
    expect(rt, is_whole(names, "k", 0), "k");
    let assigned = names.assign("k", Data::Whole(-1))?;
    expect(rt, assigned.is_ok(), "k may be assigned");
    expect(rt, is_whole(names, "k", -1), "k as it is assigned");
    names.declare(Text::copied(alloc, "z")?, Data::Whole(-2))?;
    expect(rt, is_whole(names, "z", -2), "z");
    names.keep(8);
    expect(rt, names.get("z").is_none(), "z is dropped");
    expect(rt, names.get("k").is_none(), "k is dropped");
    names.declare(Text::copied(alloc, "k")?, Data::Whole(-3))?;
    expect(rt, is_whole(names, "k", -3), "k as it is declared again");
    expect(rt, is_whole(names, "h", 0), "h");
    Ok(())
}

#[test]
fn first_of_equal_names_counts(rt: HostRuntime) -> Result<(), AllocError> {
    for turns in &TURNS {
        let mut names = turned(rt.alloc(), *turns)?;
        check_first_of_each(&rt, rt.alloc(), &mut names)?;
    }
    Ok(())
}

/// A mark on the key of file `a`.
fn mark(alloc: Global, access: Access) -> Result<Mark, AllocError> {
    let key = Key::of_file(alloc, "a")?;
    Ok(Mark {
        access,
        target: Target::Itself,
        key,
    })
}

/// The rights of a test with the one mark in a class with the other.
fn rights_of(alloc: Global, class: Access, test: Access) -> Result<Rights, AllocError> {
    let class = [mark(alloc, class)?];
    let test = [mark(alloc, test)?];
    Rights::new(alloc)
        .within(alloc, &class)?
        .within(alloc, &test)
}

/// Whether a file is declared so.
fn is_declared(
    alloc: Global,
    rights: &Rights,
    path: &str,
    want: Option<Access>,
) -> Result<bool, AllocError> {
    let key = Key::of_file(alloc, path)?;
    Ok(rights.access(&key) == want)
}

#[test]
fn strongest_mark_of_a_chain_counts(rt: HostRuntime) -> Result<(), AllocError> {
    let alloc = rt.alloc();
    let rights = rights_of(alloc, Access::Write, Access::Read)?;
    assert!(rt; is_declared(alloc, &rights, "a", Some(Access::Write))?);
    assert!(rt; is_declared(alloc, &rights, "b", None)?);
    Ok(())
}

/// Declares file `a`.
fn declare(alloc: Global, rights: &mut Rights, access: Access) -> Result<(), AllocError> {
    rights.declare(alloc, Key::of_file(alloc, "a")?, access)
}

/// Declares file `a` twice, where nothing is declared.
fn check_newest(rt: &impl Abort, alloc: Global, rights: &mut Rights) -> Result<(), AllocError> {
    assert!(rt; is_declared(alloc, rights, "a", None)?);
    declare(alloc, rights, Access::Read)?;
    declare(alloc, rights, Access::Write)?;
    assert!(rt; is_declared(alloc, rights, "a", Some(Access::Write))?);
    Ok(())
}

#[test]
fn newest_access_of_a_key_counts(rt: HostRuntime) -> Result<(), AllocError> {
    let mut rights = Rights::new(rt.alloc());
    check_newest(&rt, rt.alloc(), &mut rights)
}
