//! The nodes of scripts, in preorder.
ghost use Rattle.std.specs.Prelude.{◌≡◌, ◌<◌, ◌+◌, ◌≤◌, ◌++◌, ◌∷◌, [], ℕ, IfOk, IfErr, OnOk, length, map, vec_len};
ghost use Rattle.std.specs.Option.{option_map};
ghost use Rattle.iso_model.specs.ScriptView.{class_of, member_of, members_of, script_of, test_of};
ghost use Rattle.iso_plan.specs.Faults.{IsFull};
ghost use Rattle.iso_plan.specs.Merged.{merged};
ghost use Rattle.iso_plan.specs.RowView.{display_in, nodes_in, row_of, title_of, written_in};
ghost use Rattle.iso_plan.specs.Tree.{in_team, class_row, class_rows, member_rows, members_rows, root_row, script_rows, team_rows, test_row, top_row, top_rows, written_tree};

use crate::fault::{PlanError, PlanFault};
use crate::merged::merged;
use crate::row::{Extras, Kind, Row};
use iso_model::heads::Mark;
use iso_model::script::{Class, Member, Script, Test};
use iso_model::text::Text;
use iso_model::tree_text::TreeText;
use std::alloc::{AllocError, Global};

/// The nodes of scripts as they are written, in preorder, after the root: scripts as handed in,
/// members as written. More than `most`, at least the root, are `TooManyNodes`.
pub(crate) fn written_tree(
    alloc: Global,
    scripts: &[Script],
    most: u32,
) -> Result<Vec<Row>, PlanError>
    requires { 0 < most }
    ensures tree { IfOk result (λ v. nodes_in v.items ≡ written_tree (map script_of scripts.now)) }
    ensures fits { IfOk result (λ v. vec_len v ≤ most) }
    ensures full { IfErr result (IsFull most (length (written_tree (map script_of scripts.now)))) }
{
    let mut rows = Vec::with_capacity(alloc, room_for(scripts, most))?;
    rows.push(root(alloc)?)?;
    'scripts: for script in scripts {
        add_team(alloc, &mut rows, script, most)?;
    }
    Ok(rows)
}

/// For how many nodes of scripts room is made at once: for all of them and the root, but for no more
/// than `most`.
fn room_for(scripts: &[Script], most: u32) -> usize {
    let mut count = 1usize;
    'scripts: for script in scripts {
        count = count.saturating_add(count_classes(&script.classes));
    }
    count.min(most as usize)
}

/// How many nodes classes have.
fn count_classes(classes: &[Class]) -> usize {
    let mut count = 0usize;
    'classes: for class in classes {
        count = count.saturating_add(count_class(class));
    }
    count
}

/// How many nodes a class has. It calls itself once for each class around the innermost one.
#[cycle(count)]
fn count_class(class: &Class) -> usize {
    let mut count = 1usize;
    'members: for member in &class.members {
        count = count.saturating_add(count_member(member));
    }
    count
}

/// How many nodes a member has.
#[cycle(count)]
fn count_member(member: &Member) -> usize {
    match member {
        Member::Class(class) => count_class(class),
        Member::Test(_) => 1,
    }
}

/// The root.
fn root(alloc: Global) -> Result<Row, AllocError>
    ensures { IfOk result (λ r. row_of r ≡ root_row) }
{
    Ok(Row {
        parent: 0,
        mode: None,
        kind: Kind::Root,
        name: TreeText::copied(alloc, "")?,
        extras: None,
    })
}

/// Adds a node. Inlined, so that its row is made where it stands.
#[inline(always)]
fn add(rows: &mut Vec<Row>, row: Row, most: u32) -> Result<(), PlanError>
    ensures ok { OnOk result (nodes_in rows.new.items ≡ nodes_in rows.old.items
        ++ row_of row ∷ []) }
    ensures fits { OnOk result (vec_len rows.new ≤ most) }
    ensures full { IfErr result (IsFull most (vec_len rows.old + 1)) }
{
    if rows.len() >= most as usize {
        return Err(PlanError::Fault(PlanFault::TooManyNodes));
    }
    rows.push(row)?;
    Ok(())
}

/// Adds the nodes of a team's classes.
fn add_team(alloc: Global, rows: &mut Vec<Row>, script: &Script, most: u32) -> Result<(), PlanError>
    requires { vec_len rows.old ≤ most }
    ensures ok { OnOk result (nodes_in rows.new.items ≡ nodes_in rows.old.items
        ++ team_rows script.now.team (vec_len rows.old) (map class_of script.now.classes.items)) }
    ensures fits { OnOk result (vec_len rows.new ≤ most) }
    ensures full { IfErr result (IsFull most (vec_len rows.old
        + length (team_rows script.now.team (vec_len rows.old)
        (map class_of script.now.classes.items)))) }
{
    'classes: for class in &script.classes {
        add_top(alloc, rows, &script.team, class, most)?;
    }
    Ok(())
}

/// Adds the nodes of a top-level class of a team.
fn add_top(
    alloc: Global,
    rows: &mut Vec<Row>,
    team: &Text,
    class: &Class,
    most: u32,
) -> Result<(), PlanError>
    requires { vec_len rows.old ≤ most }
    ensures ok { OnOk result (nodes_in rows.new.items ≡ nodes_in rows.old.items
        ++ top_rows team.now (vec_len rows.old) (class_of class.now)) }
    ensures fits { OnOk result (vec_len rows.new ≤ most) }
    ensures full { IfErr result (IsFull most (vec_len rows.old
        + length (top_rows team.now (vec_len rows.old) (class_of class.now)))) }
{
    let number = rows.len() as u32;
    add(rows, top_row(alloc, team, class)?, most)?;
    add_members(alloc, rows, number, &class.members, most)
}

/// Adds the nodes of a class that is a child of the class with this number.
#[cycle(growth)]
fn add_class(
    alloc: Global,
    rows: &mut Vec<Row>,
    parent: u32,
    class: &Class,
    most: u32,
) -> Result<(), PlanError>
    requires { vec_len rows.old ≤ most }
    ensures ok { OnOk result (nodes_in rows.new.items ≡ nodes_in rows.old.items
        ++ class_rows parent (vec_len rows.old) (class_of class.now)) }
    ensures fits { OnOk result (vec_len rows.new ≤ most) }
    ensures full { IfErr result (IsFull most (vec_len rows.old
        + length (class_rows parent (vec_len rows.old) (class_of class.now)))) }
{
    let number = rows.len() as u32;
    add(rows, class_row(alloc, parent, class)?, most)?;
    add_members(alloc, rows, number, &class.members, most)
}

/// Adds the nodes of the members of the class with this number.
#[cycle(growth)]
fn add_members(
    alloc: Global,
    rows: &mut Vec<Row>,
    parent: u32,
    members: &[Member],
    most: u32,
) -> Result<(), PlanError>
    requires { vec_len rows.old ≤ most }
    ensures ok { OnOk result (nodes_in rows.new.items ≡ nodes_in rows.old.items
        ++ members_rows parent (vec_len rows.old) (members_of (map member_of members.now))) }
    ensures fits { OnOk result (vec_len rows.new ≤ most) }
    ensures full { IfErr result (IsFull most (vec_len rows.old
        + length (members_rows parent (vec_len rows.old)
        (members_of (map member_of members.now))))) }
{
    'members: for member in members {
        add_member(alloc, rows, parent, member, most)?;
    }
    Ok(())
}

/// Adds the nodes of a member of the class with this number.
#[cycle(growth)]
fn add_member(
    alloc: Global,
    rows: &mut Vec<Row>,
    parent: u32,
    member: &Member,
    most: u32,
) -> Result<(), PlanError>
    requires { vec_len rows.old ≤ most }
    ensures ok { OnOk result (nodes_in rows.new.items ≡ nodes_in rows.old.items
        ++ member_rows parent (vec_len rows.old) (member_of member.now)) }
    ensures fits { OnOk result (vec_len rows.new ≤ most) }
    ensures full { IfErr result (IsFull most (vec_len rows.old
        + length (member_rows parent (vec_len rows.old) (member_of member.now)))) }
{
    match member {
        Member::Class(class) => add_class(alloc, rows, parent, class, most),
        Member::Test(test) => add(rows, test_row(alloc, parent, test)?, most),
    }
}

/// A test of the class with this number.
fn test_row(alloc: Global, parent: u32, test: &Test) -> Result<Row, AllocError>
    ensures { IfOk result (λ r. row_of r ≡ test_row parent (test_of test.now)) }
{
    Ok(Row {
        parent,
        mode: test.mode,
        name: TreeText::copied(alloc, test.name.as_str())?,
        extras: extras(
            alloc,
            test.head.marks.as_slice(),
            copy(alloc, &test.display)?,
        )?,
        kind: Kind::Test {
            head: test.head.clone()?,
        },
    })
}

/// A class in the class with this number.
fn class_row(alloc: Global, parent: u32, class: &Class) -> Result<Row, AllocError>
    ensures { IfOk result (λ r. row_of r ≡ class_row parent (title_of class.now)) }
{
    Ok(Row {
        parent,
        mode: class.mode,
        name: TreeText::copied(alloc, class.name.as_str())?,
        extras: extras(
            alloc,
            class.head.marks.as_slice(),
            copy(alloc, &class.display)?,
        )?,
        kind: Kind::Class {
            isolated: class.isolated,
            head: class.head.clone()?,
        },
    })
}

/// A top-level class of a team.
fn top_row(alloc: Global, team: &Text, class: &Class) -> Result<Row, AllocError>
    ensures { IfOk result (λ r. row_of r ≡ top_row team.now (title_of class.now)) }
{
    Ok(Row {
        parent: 0,
        mode: class.mode,
        name: TreeText::copied(alloc, in_team(alloc, team, &class.name)?.as_str())?,
        extras: extras(
            alloc,
            class.head.marks.as_slice(),
            display_in_team(alloc, team, &class.display)?,
        )?,
        kind: Kind::Class {
            isolated: class.isolated,
            head: class.head.clone()?,
        },
    })
}

/// What a node with these marks and this display text has beside what all have, if it is anything.
fn extras(
    alloc: Global,
    marks: &[Mark],
    display: Option<Text>,
) -> Result<Option<Box<Extras>>, AllocError>
    ensures written { IfOk result (λ e. written_in e ≡ merged marks.now) }
    ensures display { IfOk result (λ e. display_in e ≡ display) }
{
    if marks.is_empty() && display.is_none() {
        return Ok(None);
    }
    let written = merged(alloc, marks)?;
    Ok(Some(Box::new(alloc, Extras { written, display })?))
}

/// The same text, if there is one.
fn copy(alloc: Global, text: &Option<Text>) -> Result<Option<Text>, AllocError>
    ensures { IfOk result (λ t. t ≡ text.now) }
{
    match text {
        Some(text) => Ok(Some(text.copy(alloc)?)),
        None => Ok(None),
    }
}

/// A display text after the team's name and a dot, if there is one.
fn display_in_team(
    alloc: Global,
    team: &Text,
    display: &Option<Text>,
) -> Result<Option<Text>, AllocError>
    ensures { IfOk result (λ t. t ≡ option_map (in_team team.now) display.now) }
{
    match display {
        Some(text) => Ok(Some(in_team(alloc, team, text)?)),
        None => Ok(None),
    }
}

/// A text after the team's name and a dot.
pub(crate) fn in_team(alloc: Global, team: &Text, text: &Text) -> Result<Text, AllocError>
    ensures { IfOk result (λ t. t ≡ in_team team.now text.now) }
{
    let team = team.as_str();
    let text = text.as_str();
    Ok(Text::new(format!(in alloc; "{team}.{text}")?))
}
