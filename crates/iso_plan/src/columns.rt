//! The columns of a plan: what each of its nodes has, made before the plan is.
ghost use Rattle.std.specs.Prelude.{◌≡◌, ◌≤◌, ◌+◌, [], IfErr, IfOk, length, map};
ghost use Rattle.iso_model.specs.declared.limits.TheConstants.{KEYS, NODES};
ghost use Rattle.iso_plan.specs.Faults.{IsCrowded};
ghost use Rattle.iso_plan.specs.Columns.{IsChained, IsKeyed, IsLocked};
ghost use Rattle.iso_plan.specs.KeyTable.{keys};
ghost use Rattle.iso_plan.specs.Paths.{IsTree};
ghost use Rattle.iso_plan.specs.RowView.{nodes_in};

use crate::chains::chains;
use crate::child_lists::children;
use crate::fault::PlanError;
use crate::isolated::isolated;
use crate::keys::{copied, number_keys, numbers};
use crate::lock::Lock;
use crate::locking::locking_nodes;
use crate::locks::locks;
use crate::modes::modes;
use crate::repeated::repeated;
use crate::rights::rights;
use crate::row::Row;
use indexmap::IndexSet;
use iso_model::heads::ClassHead;
use iso_model::key_map::KeyMap;
use iso_model::rights::Rights;
use iso_model::script::Mode;
use iso_model::shared_list::SharedList;
use iso_model::text::Text;
use iso_settings::settings::Settings;
use std::alloc::{AllocError, Global};
use std::sync::Arc;

/// The children of the nodes of a plan, their class chains, and the rights that these give.
#[derive(Drop)]
pub(crate) struct Chained {
    pub children: Vec<Vec<u32>>,
    pub chains: Vec<Arc<Vec<Arc<ClassHead>>>>,
    pub rights: Vec<Arc<Rights>>,
}

/// What the nodes of a plan lock.
#[derive(Drop)]
pub(crate) struct Locked {
    pub locking: Vec<Option<u32>>,
    pub locks: Vec<SharedList<Lock>>,
    /// Which nodes repeat the one before them.
    pub repeated: Vec<bool>,
}

/// The keys of a plan by number, with what its nodes lock of them, and their modes.
#[derive(Drop)]
pub(crate) struct Keyed {
    pub keys: Vec<Text>,
    pub numbers: KeyMap<usize>,
    pub locked: Locked,
    pub modes: Vec<Mode>,
}

/// The children, chains and rights of nodes.
pub(crate) fn chain_all(alloc: Global, rows: &[Row]) -> Result<Chained, AllocError>
    requires tree { IsTree (nodes_in rows.now) }
    requires fits { length rows.now ≤ NODES }
    ensures { IfOk result (IsChained rows.now) }
{
    let children = children(alloc, rows)?;
    let chains = chains(alloc, rows)?;
    let rights = rights(alloc, rows)?;
    Ok(Chained {
        children,
        chains,
        rights,
    })
}

/// The keys, locks and modes of nodes. More than 255 different declared keys are `TooManyKeys`.
pub(crate) fn key_all(alloc: Global, rows: &[Row], settings: Settings) -> Result<Keyed, PlanError>
    requires tree { IsTree (nodes_in rows.now) }
    requires fits { length rows.now ≤ NODES }
    ensures keyed { IfOk result (IsKeyed rows.now settings) }
    ensures few { IfOk result (λ l. length l.keys.items ≤ KEYS + 1) }
    ensures crowded { IfErr result (IsCrowded (length (keys (nodes_in rows.now)))) }
{
    let mut table = IndexSet::new(alloc);
    key_in(alloc, rows, settings, &mut table)
}

/// The same, by a table in which the keys are numbered. More than 255 different declared keys are
/// `TooManyKeys`.
fn key_in<'a>(
    alloc: Global,
    rows: &'a [Row],
    settings: Settings,
    table: &mut IndexSet<&'a str>,
) -> Result<Keyed, PlanError>
    requires tree { IsTree (nodes_in rows.now) }
    requires fits { length rows.now ≤ NODES }
    requires empty { table.old.keys ≡ [] }
    ensures keyed { IfOk result (IsKeyed rows.now settings) }
    ensures few { IfOk result (λ l. length l.keys.items ≤ KEYS + 1) }
    ensures crowded { IfErr result (IsCrowded (length (keys (nodes_in rows.now)))) }
{
    number_keys(table, rows)?;
    Ok(key_by(alloc, rows, settings, table)?)
}

/// The keys, locks and modes of nodes whose keys are numbered.
fn key_by(
    alloc: Global,
    rows: &[Row],
    settings: Settings,
    table: &IndexSet<&str>,
) -> Result<Keyed, AllocError>
    requires tree { IsTree (nodes_in rows.now) }
    requires fits { length rows.now ≤ NODES }
    requires keys { map (λ k. k.now) table.now.keys ≡ keys (nodes_in rows.now) }
    requires few { length (keys (nodes_in rows.now)) ≤ KEYS + 1 }
    ensures { IfOk result (IsKeyed rows.now settings) }
{
    let locked = lock_all(alloc, rows, table)?;
    let modes = modes(alloc, rows, settings, &locked.locks)?;
    let keys = copied(alloc, table.as_slice())?;
    let numbers = numbers(alloc, &keys)?;
    Ok(Keyed {
        keys,
        numbers,
        locked,
        modes,
    })
}

/// The locking nodes and the locks of nodes whose keys are numbered.
fn lock_all(alloc: Global, rows: &[Row], table: &IndexSet<&str>) -> Result<Locked, AllocError>
    requires tree { IsTree (nodes_in rows.now) }
    requires fits { length rows.now ≤ NODES }
    requires keys { map (λ k. k.now) table.now.keys ≡ keys (nodes_in rows.now) }
    requires few { length (keys (nodes_in rows.now)) ≤ KEYS + 1 }
    ensures { IfOk result (IsLocked rows.now) }
{
    let isolated = isolated(alloc, rows)?;
    let locking = locking_nodes(alloc, rows, &isolated)?;
    let repeated = repeated(alloc, rows)?;
    let locks = locks(alloc, rows, table, &isolated, &locking, &repeated)?;
    Ok(Locked {
        locking,
        locks,
        repeated,
    })
}
