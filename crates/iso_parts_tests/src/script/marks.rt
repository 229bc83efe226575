//! Marks for children and disabled nodes: what is read.
use crate::script::made::check_script;
use iso_model::access::Access;
use iso_model::heads::{Mark, Target};
use iso_model::script::{Class, Member, Mode, Script, Test};
use iso_model::text::Text;
use iso_script::fault::ScriptError;

/// What a mark says: its access, what it is for, and its key.
pub(crate) type Said<'a> = (Access, Target, &'a str);

/// Whether these are the marks, in this order.
pub(crate) fn is_marked(marks: &[Mark], expected: &[Said<'_>]) -> bool {
    for (index, (access, target, key)) in expected.iter().enumerate() {
        let Some(mark) = marks.get(index) else {
            return false;
        };
        if mark.access != *access || mark.target != *target || mark.key.as_str() != *key {
            return false;
        }
    }
    marks.len() == expected.len()
}

/// Whether this is the reason, or there is none.
fn is_reason(found: &Option<Text>, expected: Option<&str>) -> bool {
    match (found, expected) {
        (Some(text), Some(reason)) => text.as_str() == reason,
        (None, None) => true,
        _ => false,
    }
}

/// Marks for children and reasons, in several orders.
const SHOP: &str = "team shop
read children \"a\" disabled \"closed \\\"today\\\"\" write \"a\" isolated write children \"b\" concurrent
class Outer {
  disabled \"later\" read // all in it
  children \"a\" class Inner { test on { } }
  read \"k\" same_thread disabled \"no key\" test off { }
}
";

/// Whether a class is `Outer`, its members aside.
fn is_outer(class: &Class) -> bool {
    let marks = [
        (Access::Read, Target::Children, "a"),
        (Access::Write, Target::Itself, "a"),
        (Access::Write, Target::Children, "b"),
    ];
    class.isolated
        && class.mode == Some(Mode::Concurrent)
        && is_marked(class.head.marks.as_slice(), &marks)
        && is_reason(&class.head.contents.disabled, Some("closed \"today\""))
}

/// Whether a test is that of `Inner`, which has no marks.
fn is_on(test: &Test) -> bool {
    test.mode.is_none()
        && test.head.marks.is_empty()
        && is_reason(&test.head.contents.disabled, None)
}

/// Whether a member is `Inner`, with its test.
fn is_inner(member: &Member) -> bool {
    let Member::Class(class) = member else {
        return false;
    };
    is_marked(
        class.head.marks.as_slice(),
        &[(Access::Read, Target::Children, "a")],
    ) && is_reason(&class.head.contents.disabled, Some("later"))
        && matches!(class.members.get(0), Some(Member::Test(test)) if is_on(test))
}

/// Whether a member is the test beside `Inner`.
fn is_off(member: &Member) -> bool {
    let Member::Test(test) = member else {
        return false;
    };
    test.mode == Some(Mode::SameThread)
        && is_marked(
            test.head.marks.as_slice(),
            &[(Access::Read, Target::Itself, "k")],
        )
        && is_reason(&test.head.contents.disabled, Some("no key"))
}

/// Whether a script is `SHOP`.
fn is_shop(script: &Script) -> bool {
    let Some(outer) = script.classes.get(0) else {
        return false;
    };
    is_outer(outer)
        && matches!(outer.members.get(0), Some(inner) if is_inner(inner))
        && matches!(outer.members.get(1), Some(off) if is_off(off))
}

#[test]
fn targets_and_reasons_are_read(rt: HostRuntime) -> Result<(), ScriptError> {
    check_script(&rt, rt.alloc(), SHOP.as_bytes(), is_shop)
}
