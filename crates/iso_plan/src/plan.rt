//! The plan of a run.
ghost use Rattle.std.specs.Prelude.{◌≡◌, ◌<◌, ◌≤◌, ◌↔◌, ◌+◌, [], IfErr, IfOk, IsTrue, None, length, map, slice_index_or};
ghost use Rattle.std.specs.List.{All};
ghost use Rattle.std.specs.Option.{option_map};
ghost use Rattle.iso_model.specs.ChainView.{innermost_first};
ghost use Rattle.iso_model.specs.ResourceKeys.{spelling};
ghost use Rattle.iso_model.specs.Rights.{access_in};
ghost use Rattle.iso_model.specs.ScriptView.{script_of, test_head_of};
ghost use Rattle.iso_model.specs.declared.limits.TheConstants.{KEYS, NODES};
ghost use Rattle.iso_plan.specs.Faults.{IsFaultOf, keys_fault, plan_fault};
ghost use Rattle.iso_plan.specs.KeyGroups.{lead, lead_locks};
ghost use Rattle.iso_plan.specs.KeyNumbers.{number_below};
ghost use Rattle.iso_plan.specs.KeyTable.{keys};
ghost use Rattle.iso_plan.specs.Locks.{effective_marks, isolates, locking_node, locks, takes_write};
ghost use Rattle.iso_plan.specs.Modes.{mode};
ghost use Rattle.iso_plan.specs.NodeChains.{chain_classes, chain_test, depth, largest, node_rights};
ghost use Rattle.iso_plan.specs.Paths.{IsTree, children, is_test, parent_of, row_at};
ghost use Rattle.iso_plan.specs.PathTexts.{found};
ghost use Rattle.iso_plan.specs.Preorder.{IsPreorder};
ghost use Rattle.iso_plan.specs.RowView.{heads_in, nodes_in, tree_of};
ghost use Rattle.iso_plan.specs.SameNodes.{KeepsChains};
ghost use Rattle.iso_plan.specs.KeptNodes.{plan_tree, texts_of};
ghost use Rattle.iso_plan.specs.Tree.{tree};

use crate::columns::{Locked, chain_all, key_all};
use crate::fault::PlanError;
use crate::key_groups::group_keys;
use crate::lock::{Lock, takes_write};
use crate::names::check_scripts;
use crate::nodes::kept_rows;
use crate::paths::is_path_of;
use crate::row::{Kind, Row};
use crate::same::same_rows;
use iso_model::chain::Chain;
use iso_model::heads::{ClassHead, Mark};
use iso_model::key_map::KeyMap;
use iso_model::resource_key::ResourceKey;
use iso_model::rights::Rights;
use iso_model::script::{Mode, Script};
use iso_model::shared_list::SharedList;
use iso_model::text::Text;
use iso_settings::settings::Settings;
use std::alloc::Global;
use std::marker::Model;
use std::sync::Arc;

/// The plan that every run follows: the tree of classes and tests, its nodes numbered in preorder
/// from the root, which is number 0, each with its class chain; and the keys that are marked on
/// them, numbered. It lends what it answers, and takes no memory for it.
pub struct Plan {
    rows: Vec<Row>,
    settings: Settings,
    children: Vec<Vec<u32>>,
    chains: Vec<Arc<Vec<Arc<ClassHead>>>>,
    rights: Vec<Arc<Rights>>,
    keys: Vec<Text>,
    numbers: KeyMap<usize>,
    locking: Vec<Option<u32>>,
    locks: Vec<SharedList<Lock>>,
    modes: Vec<Mode>,
    /// How many classes the longest of the chains has: each tray asks for it.
    depth: usize,
    leads: Vec<u32>,
    /// None where each key is the lead of its group: then they are all locks.
    lead_locks: Option<Vec<SharedList<Lock>>>,
}

impl Drop for Plan {
    fn drop(self) {
        let Plan {
            rows: _,
            settings: _,
            children: _,
            chains: _,
            rights: _,
            keys: _,
            numbers: _,
            locking: _,
            locks: _,
            modes: _,
            depth: _,
            leads: _,
            lead_locks: _,
        } = self;
    }
}

impl Model for Plan {
    ghost use Rattle.std.specs.Prelude.{map};
    ghost use Rattle.iso_model.specs.SyntaxCodes.{acts_code};
    ghost use Rattle.std.specs.Coded.{codes};
    ghost use Rattle.std.specs.Option.{option_map};
    ghost use Rattle.iso_plan.specs.IsPlan.{IsPlan};
    ghost use Rattle.iso_plan.specs.Planned.{Planned};
    ghost use Rattle.iso_plan.specs.RowView.{heads_in, nodes_in, rights_in};

    ghost Value = { Planned };

    ghost coded = { Prim.hlevel (codes, acts_code) };

    ghost view = { λ p. record { rows = nodes_in p.rows.items; settings = p.settings } };

    ghost invariant = { λ p. IsPlan (nodes_in p.rows.items) p.settings
        (map (λ c. c.items) p.children.items)
        (map heads_in p.chains.items) (map rights_in p.rights.items) p.keys.items p.numbers
        p.locking.items p.locks.items p.modes.items p.depth
        p.leads.items (option_map (λ v. v.items) p.lead_locks) };
}

/// The plan of scripts under settings.
///
/// More than 64 scripts are `TooManyScripts`; two top-level classes of one team and name
/// `DoubleClass`; more than 4,096 nodes, the root among them, `TooManyNodes`; more than 255
/// different declared keys `TooManyKeys`. They are tested in this order. Out of memory may be
/// answered at each growth.
pub fn build(alloc: Global, scripts: &[Script], settings: &Settings) -> Result<Plan, PlanError>
    ensures tree { IfOk result (λ p. tree_of p ≡ tree (map script_of scripts.now)) }
    ensures settings { IfOk result (λ p. p.settings ≡ settings.now) }
    ensures accepted { IfOk result (λ p. plan_fault (map script_of scripts.now) [] ≡ None) }
    ensures refused { IfErr result (IsFaultOf (plan_fault (map script_of scripts.now) [])) }
{
    build_only(alloc, scripts, settings, &[])
}

/// The plan of those nodes of scripts that these paths name, under settings: the paths are as `jtap
/// plan` prints them, the names of the team, the enclosing classes and the node with dots between
/// them. Kept are the named nodes, their descendants, and their enclosing classes, each
/// with all its own marks and blocks; nodes and keys are numbered anew. Without paths all nodes are
/// kept.
///
/// The chain of a kept node is the one that it has where all nodes are kept. What isn't kept costs
/// its row and its path: it gets no effective marks.
///
/// More than 64 scripts are `TooManyScripts`; two top-level classes of one team and name
/// `DoubleClass`; a path that names no node, as an empty one does, `NotSelected`; more than 4,096
/// kept nodes, the root among them, `TooManyNodes`; more than 255 different keys that are declared
/// on them `TooManyKeys`. They are tested in this order. Out of memory may be answered at each
/// growth.
pub fn build_only(
    alloc: Global,
    scripts: &[Script],
    settings: &Settings,
    only: &[&str],
) -> Result<Plan, PlanError>
    ensures tree { IfOk result (λ p. tree_of p
        ≡ plan_tree (map script_of scripts.now) (texts_of only.now)) }
    ensures settings { IfOk result (λ p. p.settings ≡ settings.now) }
    ensures accepted { IfOk result
        (λ p. plan_fault (map script_of scripts.now) (texts_of only.now) ≡ None) }
    ensures refused { IfErr result
        (IsFaultOf (plan_fault (map script_of scripts.now) (texts_of only.now))) }
    ensures chains { IfOk result
        (KeepsChains (tree (map script_of scripts.now)) (texts_of only.now)) }
{
    check_scripts(alloc, scripts)?;
    let rows = kept_rows(alloc, scripts, only)?;
    plan_of(alloc, rows, *settings)
}

/// The plan of nodes. More than 255 different declared keys are `TooManyKeys`.
fn plan_of(alloc: Global, rows: Vec<Row>, settings: Settings) -> Result<Plan, PlanError>
    requires tree { IsTree (nodes_in rows.items) }
    requires order { IsPreorder (nodes_in rows.items) }
    requires fits { length rows.items ≤ NODES }
    ensures tree { IfOk result (λ p. tree_of p ≡ nodes_in rows.items) }
    ensures settings { IfOk result (λ p. p.settings ≡ settings) }
    ensures accepted { IfOk result (λ p. keys_fault (nodes_in rows.items) ≡ None) }
    ensures refused { IfErr result (IsFaultOf (keys_fault (nodes_in rows.items))) }
{
    let keyed = key_all(alloc, &rows, settings)?;
    let chained = chain_all(alloc, &rows)?;
    let depth = longest(&chained.chains);
    let Locked {
        locking,
        locks,
        repeated,
    } = keyed.locked;
    let groups = group_keys(alloc, &locks, &repeated, keyed.keys.len())?;
    Ok(Plan {
        rows,
        settings,
        children: chained.children,
        chains: chained.chains,
        rights: chained.rights,
        keys: keyed.keys,
        numbers: keyed.numbers,
        locking,
        locks,
        modes: keyed.modes,
        depth,
        leads: groups.leads,
        lead_locks: groups.lists,
    })
}

/// How many classes the longest of some chains has.
fn longest(chains: &[Arc<Vec<Arc<ClassHead>>>]) -> usize
    ensures { result ≡ largest (map (λ heads. length heads) (map heads_in chains.now)) }
{
    let mut longest = 0;
    'nodes: for chain in chains {
        longest = longest.max(chain.len());
    }
    longest
}

impl Plan {
    /// How many nodes it has, the root among them.
    pub fn len(&self) -> u32
        ensures { result ≡ length self.now.rows }
    {
        self.rows.len() as u32
    }

    /// A node's parent, a class or the root; the root has none.
    pub fn parent(&self, node: u32) -> Option<u32>
        requires { node < length self.now.rows }
        ensures { result ≡ parent_of (tree_of self.now) node }
    {
        if node == 0 {
            return None;
        }
        Some(self.rows[node as usize].parent)
    }

    /// The nodes that stand directly in a node, in the order in which they are written.
    pub fn children(&self, node: u32) -> &[u32]
        requires { node < length self.now.rows }
        ensures { result.now ≡ children (tree_of self.now) node }
    {
        &self.children[node as usize]
    }

    /// For a runner of one's own: the node with this path, as `jtap plan` prints it, which is the
    /// names of the team, the enclosing classes and the node, with dots between them. Of several
    /// the first. The root has no path. Takes no memory.
    pub fn find(&self, path: &str) -> Option<u32>
        ensures { result ≡ found (tree_of self.now) path.now }
    {
        let path = path.as_bytes();
        'nodes: for node in 1..self.rows.len() {
            if is_path_of(&self.rows, node, path) {
                return Some(node as u32);
            }
        }
        None
    }

    /// Whether a node is a test.
    pub fn is_test(&self, node: u32) -> bool
        requires { node < length self.now.rows }
        ensures { result ≡ is_test (row_at (tree_of self.now) node).kind }
    {
        matches!(self.rows[node as usize].kind, Kind::Test { .. })
    }

    /// What a node is called in a report: its display text, or its name where it has none. A
    /// top-level class's begins with the team's name and a dot, the root's is empty.
    pub fn title(&self, node: u32) -> &str
        requires { node < length self.now.rows }
        ensures { result.now ≡ (row_at (tree_of self.now) node).title }
    {
        self.rows[node as usize].title()
    }

    /// A node's name. A top-level class's begins with the team's name and a dot, the root's is
    /// empty.
    pub fn name(&self, node: u32) -> &str
        requires { node < length self.now.rows }
        ensures { result.now ≡ (row_at (tree_of self.now) node).name }
    {
        self.rows[node as usize].name.as_str()
    }

    /// A node's class chain: the heads of its enclosing classes, with its own. They are the
    /// script's.
    pub fn chain(&self, node: u32) -> Chain<'_>
        requires { node < length self.now.rows }
        ensures classes { innermost_first result.classes.now
            ≡ chain_classes (tree_of self.now) node }
        ensures test { option_map (λ t. test_head_of t.now) result.test
            ≡ chain_test (tree_of self.now) node }
    {
        let test = match &self.rows[node as usize].kind {
            Kind::Test { head } => Some(&**head),
            Kind::Root | Kind::Class { .. } => None,
        };
        Chain {
            classes: &self.chains[node as usize],
            test,
        }
    }

    /// How many classes its longest class chain has: no body is given more frames. Takes no memory.
    pub fn depth(&self) -> usize
        ensures { result ≡ depth (tree_of self.now) }
    {
        self.depth
    }

    /// The execution mode of a node (JUnit 5 User Guide, parallel execution): its own mark, else
    /// that of the nearest enclosing class that has one, else the default for top-level classes or
    /// that for all other nodes. The root, all descendants of a node that takes a key for
    /// READ_WRITE, and every node where parallel execution is off are on the same thread.
    pub fn mode(&self, node: u32) -> Mode
        requires { node < length self.now.rows }
        ensures { result ≡ mode (tree_of self.now) self.now.settings node }
    {
        self.modes[node as usize]
    }

    /// The keys that a node takes and how, by key number: what is marked on it and below it where
    /// it is the locking node of its path, each key in the strongest access, and the global key
    /// where it is a top-level class. Other nodes take none.
    pub fn locks(&self, node: u32) -> &[Lock]
        requires { node < length self.now.rows }
        ensures locks { result.now ≡ locks (tree_of self.now) node }
        ensures known { All (λ l. l.key < length (keys (tree_of self.now))) result.now }
    {
        self.locks[node as usize].as_slice()
    }

    /// The lead of a key: the lowest of the keys that each node takes in the same access as this
    /// one, or doesn't take where it doesn't take this one. Takes no memory.
    pub fn lead(&self, key: u32) -> u32
        requires { key < length (keys (tree_of self.now)) }
        ensures { result ≡ lead (tree_of self.now) key }
    {
        self.leads[key as usize]
    }

    /// The keys that a node takes and how, of each group of keys its lead alone: it takes the
    /// others alike. Takes no memory.
    pub fn lead_locks(&self, node: u32) -> &[Lock]
        requires { node < length self.now.rows }
        ensures locks { result.now ≡ lead_locks (tree_of self.now) node }
        ensures known { All (λ l. l.key < length (keys (tree_of self.now))) result.now }
    {
        match &self.lead_locks {
            Some(lists) => lists[node as usize].as_slice(),
            None => self.locks(node),
        }
    }

    /// Whether a node takes a key for READ_WRITE: then it takes the key's lead so. Takes no memory.
    pub fn is_writer(&self, node: u32) -> bool
        requires { node < length self.now.rows }
        ensures { result ≡ takes_write (tree_of self.now) node }
    {
        takes_write(self.lead_locks(node))
    }

    /// The locking node of a node's path, which takes the keys of all its descendants: a
    /// top-level class that is isolated or holds an isolated class, else the first node of the path
    /// from the root with a `read` or `write` mark. A path without one has none.
    pub fn locking_node(&self, node: u32) -> Option<u32>
        requires { node < length self.now.rows }
        ensures { result ≡ locking_node (tree_of self.now) node }
    {
        self.locking[node as usize]
    }

    /// Whether its nodes may run in parallel at all, by its settings.
    pub fn is_parallel(&self) -> bool
        ensures { result ≡ self.now.settings.parallel }
    {
        self.settings.parallel
    }

    /// The execution mode that is marked on a node itself, if one is.
    pub fn marked_mode(&self, node: u32) -> Option<Mode>
        requires { node < length self.now.rows }
        ensures { result ≡ (row_at (tree_of self.now) node).mode }
    {
        self.rows[node as usize].mode
    }

    /// The marks that count for a node: its effective marks.
    pub fn marks(&self, node: u32) -> &[Mark]
        requires { node < length self.now.rows }
        ensures { result.now ≡ effective_marks (tree_of self.now) node }
    {
        self.rows[node as usize].kind.marks()
    }

    /// Whether a node asks for isolation, as an isolated class does.
    pub fn isolates(&self, node: u32) -> bool
        requires { node < length self.now.rows }
        ensures { result ≡ isolates (tree_of self.now) node }
    {
        self.rows[node as usize].kind.isolates()
    }

    /// A node's access rights: those that its class chain gives.
    pub fn rights(&self, node: u32) -> &Rights
        requires { node < length self.now.rows }
        ensures { access_in result.now ≡ node_rights (tree_of self.now) node }
    {
        &self.rights[node as usize]
    }

    /// How many keys it numbers, the global key among them.
    pub fn key_count(&self) -> u32
        ensures { result ≡ length (keys (tree_of self.now)) }
    {
        self.keys.len() as u32
    }

    /// A key by its number: the global key is number 0, the others follow in the order in which
    /// they are first marked.
    pub fn key(&self, number: u32) -> &str
        requires { number < length (keys (tree_of self.now)) }
        ensures { result.now ≡ slice_index_or (keys (tree_of self.now)) number [] }
    {
        self.keys[number as usize].as_str()
    }

    /// The number of the key of a resource, if a node is marked with it. Takes no memory.
    pub fn key_number(&self, resource: ResourceKey<'_>) -> Option<usize>
        ensures { result ≡ number_below (keys (tree_of self.now)) (spelling resource.entry)
            (length (keys (tree_of self.now))) }
    {
        self.numbers.get(resource)
    }

    /// Whether two plans say the same: nodes of one tree with the same heads, marks, names and
    /// titles, and the same settings. Takes no memory. It goes over the scripts of both, so a
    /// caller who knows the answer otherwise needn't ask under a lock.
    pub fn same(&self, other: &Plan) -> bool
        ensures { IsTrue result ↔ (self.now ≡ other.now) }
    {
        self.settings.same(other.settings) && same_rows(&self.rows, &other.rows)
    }

    /// Its nodes are a tree.
    pub(crate) fn hold_a_tree(&self)
        ensures { IsTree (tree_of self.now) }
    {
        let _rows = &self.rows;
    }

    /// Its nodes stand in preorder.
    pub(crate) fn hold_an_order(&self)
        ensures { IsPreorder (tree_of self.now) }
    {
        let _rows = &self.rows;
    }

    /// It has no more nodes than a plan may have.
    pub(crate) fn hold_few_nodes(&self)
        ensures { length self.now.rows ≤ NODES }
    {
        let _rows = &self.rows;
    }

    /// It has no more keys than a plan may have, the global key among them.
    pub(crate) fn hold_few_keys(&self)
        ensures { length (keys (tree_of self.now)) ≤ KEYS + 1 }
    {
        let _keys = &self.keys;
    }
}
