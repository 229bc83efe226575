//! The table of a scheduler: who waits in its lines, who is called, and what is on offer.
ghost use Rattle.std.specs.Prelude.{◌≡◌, IfOk};

use iso_desk::crew::Crew;
use iso_desk::line::{KeyLine, Line, Party};
use iso_desk::marks::Marks;
use iso_desk::place::Place;
use iso_desk::scene::{Scene, has_nothing_for};
use iso_desk::table::Table;
use std::alloc::{AllocError, Global};
use std::test::Fail;

/// The lines of everyone's nodes that write key 0, and key 200.
const LOW: Line = Line::Key(KeyLine {
    party: Party::Everyone,
    key: 0,
    writes: true,
});

const HIGH: Line = Line::Key(KeyLine {
    party: Party::Everyone,
    key: 200,
    writes: true,
});

/// A table in which 1, 2 and 3 wait for key 0, and 4 for key 200, all to write it.
fn table_of_waiters(alloc: Global) -> Result<Table, AllocError>
    ensures { IfOk result (λ table. table.workers ≡ 2) }
{
    let mut table = Table::new(alloc, 5, 2)?;
    table.line_up(1, LOW)?;
    table.line_up(2, LOW)?;
    table.line_up(4, HIGH)?;
    table.line_up(3, LOW)?;
    Ok(table)
}

/// The first of the nodes that write key 0, who leaves its line.
fn take(table: &mut Table) -> Option<u32> {
    let first = table.first(LOW)?;
    table.leave(first, LOW, Place::With(0));
    Some(first)
}

#[test]
fn first_in_first_out(rt: HostRuntime) -> Result<(), Fail> {
    let mut table = table_of_waiters(rt.alloc())?;
    assert_eq!(&rt; take(&mut table), Some(1));
    assert_eq!(&rt; take(&mut table), Some(2));
    assert_eq!(&rt; take(&mut table), Some(3));
    assert_eq!(&rt; take(&mut table), None);
    assert_eq!(&rt; table.first(HIGH), Some(4));
    Ok(())
}

#[test]
fn front_comes_first(rt: HostRuntime) -> Result<(), Fail> {
    let mut table = Table::new(rt.alloc(), 4, 2)?;
    table.line_up_first(1, Line::Own(1))?;
    table.line_up_first(2, Line::Own(1))?;
    table.line_up(3, Line::Own(1))?;
    assert_eq!(&rt; table.first(Line::Own(1)), Some(2));
    assert!(&rt; table.is_empty(Line::Own(0)));
    Ok(())
}

#[test]
fn lowest_key_that_excludes_nobody_is_on_offer(rt: HostRuntime) -> Result<(), Fail> {
    let table = table_of_waiters(rt.alloc())?;
    let mut held = Marks::new(rt.alloc(), 256)?;
    let written = Marks::new(rt.alloc(), 256)?;
    assert_eq!(&rt; table.on_offer(Party::Everyone, &held, &written), Some(0));
    held.set(0, true);
    assert_eq!(&rt; table.on_offer(Party::Everyone, &held, &written), Some(200));
    held.set(200, true);
    assert_eq!(&rt; table.on_offer(Party::Everyone, &held, &written), None);
    assert_eq!(&rt; table.on_offer(Party::Worker(1), &held, &written), None);
    Ok(())
}

#[test]
fn each_that_has_something_is_called_once(rt: HostRuntime) -> Result<(), Fail> {
    let mut table = Table::new(rt.alloc(), 3, 2)?;
    let none = Marks::new(rt.alloc(), 256)?;
    let mut crew = Crew::new(rt.alloc(), 2)?;
    crew.wait(0, Some(1));
    crew.wait(1, Some(1));
    table.line_up(2, Line::Own(1))?;
    let scene = Scene {
        table: &table,
        held: &none,
        written: &none,
        is_over: false,
        is_loose: false,
        rounds: 1,
    };
    assert!(&rt; has_nothing_for(&scene, 0, Some(1)));
    assert_eq!(&rt; crew.call(&scene), Some(1));
    assert_eq!(&rt; crew.call(&scene), None);
    Ok(())
}
