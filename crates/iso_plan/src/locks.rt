//! The locks of each node: what is marked on it and below it, gathered where it is the locking
//! node.
ghost use Rattle.std.specs.Prelude.{◌≡◌, ◌<◌, ◌≤◌, ◌+◌, ◌-◌, ◌&&◌, ℕ, List, Bool, None, Some, [], false, true, IfOk, IfSome, ◌||◌, cond, length, map, not, replicate, slice_index_or, slice_set, bytes_eq};
ghost use Rattle.std.specs.List.{IsDistinct};
ghost use Rattle.iso_model.specs.Rights.{declared_by, rights_of, strongest};
ghost use Rattle.iso_model.specs.declared.access.Access.TheVariants.{Read, Write};
ghost use Rattle.iso_model.specs.declared.limits.TheConstants.{KEYS, NODES};
ghost use Rattle.iso_plan.specs.KeyTable.{keys};
ghost use Rattle.iso_plan.specs.Locks.{holds_isolated, is_that, locking_node, locks, locks_from};
ghost use Rattle.iso_plan.specs.Paths.{IsTree, column, is_root};
ghost use Rattle.iso_plan.specs.Repeated.{AreRepeats};
ghost use Rattle.iso_plan.specs.RowView.{nodes_in};
ghost use Rattle.iso_plan.specs.Tables.{own_table, with_first};
ghost use Rattle.iso_plan.specs.declared.lock.Lock.{Lock};

use crate::lock::Lock;
use crate::row::Row;
use indexmap::IndexSet;
use iso_model::access::Access;
use iso_model::heads::Mark;
use iso_model::shared_list::SharedList;
use std::alloc::{AllocError, Global};

/// The locks of each node, by key number, where these nodes repeat the one before them.
pub(crate) fn locks(
    alloc: Global,
    rows: &[Row],
    key_table: &IndexSet<&str>,
    isolated: &[bool],
    locking: &[Option<u32>],
    repeated: &[bool],
) -> Result<Vec<SharedList<Lock>>, AllocError>
    requires tree { IsTree (nodes_in rows.now) }
    requires fits { length rows.now ≤ NODES }
    requires keys { map (λ k. k.now) key_table.now.keys ≡ keys (nodes_in rows.now) }
    requires few { length (keys (nodes_in rows.now)) ≤ KEYS + 1 }
    requires isolated { isolated.now ≡ column (holds_isolated (nodes_in rows.now))
        (length rows.now) }
    requires locking { locking.now ≡ column (locking_node (nodes_in rows.now)) (length rows.now) }
    requires repeated { AreRepeats (nodes_in rows.now) repeated.now }
    ensures { IfOk result (λ v. v.items ≡ column (locks (nodes_in rows.now)) (length rows.now)) }
{
    let mut followers = vec![in alloc; 0; key_table.len()]?;
    let mut tables = own_tables(alloc, rows, key_table.len(), isolated, locking, repeated)?;
    'nodes: for n in 0..rows.len() {
        if repeated[n] {
            continue;
        }
        if let Some(m) = locking[n] {
            let marks = rows[n].kind.marks();
            gather(&mut tables[m as usize], key_table, &mut followers, marks);
        }
    }
    listed_tables(alloc, &tables, repeated)
}

/// For each node that takes keys an access by key number: a top-level class takes the global key,
/// and nothing is gathered yet. All other nodes have empty tables, and so have those that repeat
/// the node before them.
fn own_tables(
    alloc: Global,
    rows: &[Row],
    count: usize,
    isolated: &[bool],
    locking: &[Option<u32>],
    repeated: &[bool],
) -> Result<Vec<Vec<Option<Access>>>, AllocError>
    requires fits { length rows.now ≤ NODES }
    requires isolated { isolated.now ≡ column (holds_isolated (nodes_in rows.now))
        (length rows.now) }
    requires locking { locking.now ≡ column (locking_node (nodes_in rows.now)) (length rows.now) }
    requires repeated { length repeated.now ≡ length rows.now }
    ensures { IfOk result (λ v. map (λ t. t.items) v.items
        ≡ column (λ n. cond (slice_index_or repeated.now n false) []
        (own_table (nodes_in rows.now) count n)) (length rows.now)) }
{
    let mut tables = Vec::with_capacity(alloc, rows.len())?;
    'nodes: for n in 0..rows.len() {
        let table = if repeated[n] {
            Vec::new(alloc)
        } else {
            let top = is_top(n, rows[n].parent);
            let locks = is_that(locking[n], n as u32);
            own_table(alloc, top, isolated[n], locks, count)?
        };
        tables.push(table)?;
    }
    Ok(tables)
}

/// Whether the node of a number, which has this parent, is a top-level class.
fn is_top(node: usize, parent: u32) -> bool
    ensures { result ≡ (not (is_root node) && is_root parent) }
{
    node != 0 && parent == 0
}

/// Whether a node is this one.
fn is_that(node: Option<u32>, number: u32) -> bool
    ensures { result ≡ is_that node number }
{
    match node {
        Some(node) => node == number,
        None => false,
    }
}

/// The table of a node before anything is gathered, of `count` keys.
fn own_table(
    alloc: Global,
    top: bool,
    isolated: bool,
    locking: bool,
    count: usize,
) -> Result<Vec<Option<Access>>, AllocError>
    ensures { IfOk result (λ v. v.items ≡ with_first
        (cond top (Some (cond isolated Write Read)) None)
        (replicate (cond (top || locking) count 0) None)) }
{
    let size = if top || locking { count } else { 0 };
    let global = if isolated {
        Access::Write
    } else {
        Access::Read
    };
    let mut table = vec![in alloc; None; size]?;
    if let Some(first) = table.first_mut() {
        *first = top.then_some(global);
    }
    Ok(table)
}

/// Adds what marks declare to a table of accesses by key number.
///
/// Many nodes have the same marks in the same order. So the key that followed another one last, by
/// number, is the guess for what follows it now.
fn gather(
    table: &mut Vec<Option<Access>>,
    keys: &IndexSet<&str>,
    followers: &mut Vec<usize>,
    marks: &[Mark],
)
    requires distinct { IsDistinct bytes_eq (map (λ k. k.now) keys.now.keys) }
    requires fits { length table.old.items ≡ length keys.now.keys }
    ensures gathered { (i : ℕ) → i < length keys.now.keys → slice_index_or table.new.items i None
        ≡ strongest (rights_of marks.now (slice_index_or (map (λ k. k.now) keys.now.keys) i []))
        (slice_index_or table.old.items i None) }
    ensures fits { length table.new.items ≡ length table.old.items }
{
    let mut last = 0;
    'marks: for mark in marks {
        let number = add_mark(table, keys, follower(followers, last), mark);
        note_follower(followers, last, number);
        last = number;
    }
}

/// The key that followed another one last.
fn follower(followers: &[usize], last: usize) -> usize
    ensures { result ≡ slice_index_or followers.now last 0 }
{
    match followers.get(last) {
        Some(number) => *number,
        None => 0,
    }
}

/// Notes which key follows another one.
fn note_follower(followers: &mut Vec<usize>, last: usize, number: usize)
    ensures { followers.new.items ≡ slice_set followers.old.items last number }
{
    if let Some(follower) = followers.get_mut(last) {
        *follower = number;
    }
}

/// Adds what a mark declares to a table of accesses by key number, and answers the number of its
/// key, or 0 where it has none. The next guess alone depends on that.
fn add_mark(
    table: &mut Vec<Option<Access>>,
    keys: &IndexSet<&str>,
    guess: usize,
    mark: &Mark,
) -> usize
    requires distinct { IsDistinct bytes_eq (map (λ k. k.now) keys.now.keys) }
    requires fits { length table.old.items ≡ length keys.now.keys }
    ensures added { (i : ℕ) → i < length keys.now.keys → slice_index_or table.new.items i None
        ≡ strongest (declared_by mark.now (slice_index_or (map (λ k. k.now) keys.now.keys) i []))
        (slice_index_or table.old.items i None) }
    ensures fits { length table.new.items ≡ length table.old.items }
{
    let Some(number) = number_of(keys, guess, mark.key.as_str()) else {
        return 0;
    };
    table[number] = Some(strongest(mark.access, table[number]));
    number
}

/// The stronger of two accesses, of which the second may be absent.
fn strongest(access: Access, taken: Option<Access>) -> Access
    ensures { Some result ≡ strongest (Some access) taken }
{
    match taken {
        Some(taken) => access.stronger(taken),
        None => access,
    }
}

/// The number of a key, if it has one. It isn't looked up where the guess is right.
fn number_of(keys: &IndexSet<&str>, guess: usize, key: &str) -> Option<usize>
    requires { IsDistinct bytes_eq (map (λ k. k.now) keys.now.keys) }
    ensures within { IfSome result (λ i. i < length keys.now.keys) }
    ensures exact { (i : ℕ) → i < length keys.now.keys
        → bytes_eq (slice_index_or (map (λ k. k.now) keys.now.keys) i []) key.now
        ≡ is_that result i }
{
    let known = keys.as_slice();
    if guess < known.len() && known[guess] == key {
        return Some(guess);
    }
    keys.get_index_of(key)
}

/// The locks of each table. A node that repeats the one before it shares that one's.
fn listed_tables(
    alloc: Global,
    tables: &[Vec<Option<Access>>],
    repeated: &[bool],
) -> Result<Vec<SharedList<Lock>>, AllocError>
    requires fits { (n : ℕ) → n < length tables.now
        → length (slice_index_or (map (λ t. t.items) tables.now) n []) ≤ KEYS + 1 }
    requires each { length repeated.now ≡ length tables.now }
    requires later { (n : ℕ) → slice_index_or repeated.now n false ≡ true → 0 < n }
    ensures { (locks : ℕ → List Lock)
        → ((n : ℕ) → n < length tables.now → slice_index_or repeated.now n false ≡ false
        → locks_from 0 (slice_index_or (map (λ t. t.items) tables.now) n []) ≡ locks n)
        → ((n : ℕ) → n < length tables.now → slice_index_or repeated.now n false ≡ true
        → locks (n - 1) ≡ locks n)
        → IfOk result (λ v. v.items ≡ column locks (length tables.now)) }
{
    let mut locks: Vec<SharedList<Lock>> = Vec::with_capacity(alloc, tables.len())?;
    'tables: for n in 0..tables.len() {
        let own = if repeated[n] {
            locks[n - 1].share()?
        } else {
            SharedList::new(alloc, listed(alloc, &tables[n])?)?
        };
        locks.push(own)?;
    }
    Ok(locks)
}

/// The locks of a table of accesses by key number.
fn listed(alloc: Global, table: &[Option<Access>]) -> Result<Vec<Lock>, AllocError>
    requires { length table.now ≤ KEYS + 1 }
    ensures { IfOk result (λ v. v.items ≡ locks_from 0 table.now) }
{
    let mut locks = Vec::new(alloc);
    'keys: for number in 0..table.len() {
        if let Some(access) = table[number] {
            let key = number as u32;
            locks.push(Lock { key, access })?;
        }
    }
    Ok(locks)
}
