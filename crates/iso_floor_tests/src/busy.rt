//! How many workers a plan can keep busy.
use crate::shared::check;
use crate::suites::read_suite;
use iso_floor::busy::busy_workers;
use std::alloc::Global;
use std::process::Abort;

/// The classes of a suite, and how many of 64 workers they keep busy at most, as counted by hand: a
/// CONCURRENT node one, but all of them that write one key one together, and all that is on the
/// root's thread one.
static ROWS: [(&str, u32); 10] = [
    ("", 1),
    (
        "same_thread class A { same_thread test a { } same_thread test b { } }",
        1,
    ),
    // A class and its tests.
    ("class A { test a { } test b { } }", 3),
    (
        "class A { same_thread test a { } same_thread test b { } }",
        1,
    ),
    ("same_thread class A { concurrent test a { } }", 2),
    // What stands in a writer is on its thread.
    (
        "write \"K\" class A { test a { } } write \"K\" class B { test b { } }",
        1,
    ),
    (
        "write \"K\" class A { test a { } } write \"L\" class B { test b { } }",
        2,
    ),
    (
        "write \"K\" class A { test a { } } read \"K\" class B { same_thread test b { } }",
        2,
    ),
    (
        "class A { write \"K\" test a { } write \"K\" test b { } write \"L\" test c { } }",
        3,
    ),
    (
        "isolated class A { test a { } } isolated class B { test b { } }",
        1,
    ),
];

/// How many of `workers` workers the suite of these classes keeps busy.
fn busy_of<R: Abort>(rt: &R, alloc: Global, classes: &str, workers: u32) -> u32 {
    let script = format!(in alloc; "team shop\n{classes}\n").expect(rt, "memory");
    let suite = read_suite(rt, alloc, script.as_str());
    busy_workers(alloc, &suite.plan, workers).expect(rt, "memory")
}

#[test]
fn as_many_workers_are_busy_as_nodes_can_be_under_way(rt: HostRuntime) {
    for (classes, busy) in ROWS.as_slice() {
        check(&rt, classes, &busy_of(&rt, rt.alloc(), classes, 64), busy);
        check(&rt, classes, &busy_of(&rt, rt.alloc(), classes, 1), &1);
    }
}

/// The script of a class of `tests` tests.
fn wide(rt: &impl Abort, alloc: Global, tests: u32) -> String {
    let mut script = String::from_str(alloc, "class C {\n").expect(rt, "memory");
    for test in 0..tests {
        let line = format!(in alloc; "test t{test} {{ }}\n").expect(rt, "memory");
        script.push_str(line.as_str()).expect(rt, "memory");
    }
    script.push_str("}\n").expect(rt, "memory");
    script
}

#[test]
fn no_more_workers_are_busy_than_there_are(rt: HostRuntime) {
    let widest = wide(&rt, rt.alloc(), 4_094);
    for workers in [64, 2] {
        let busy = busy_of(&rt, rt.alloc(), widest.as_str(), workers);
        check(&rt, "the widest class", &busy, &workers);
    }
}
