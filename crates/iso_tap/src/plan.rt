//! The plan as text.
ghost use Rattle.std.specs.Prelude.{◌≡◌, ◌<◌, ◌-◌, cond, codes, length};
ghost use Rattle.iso_plan.specs.KeyTable.{keys};
ghost use Rattle.iso_plan.specs.Locks.{locks};
ghost use Rattle.iso_plan.specs.PathTexts.{path_text};
ghost use Rattle.iso_plan.specs.RowView.{tree_of};
ghost use Rattle.iso_tap.specs.PlanText.{access_word, locks_text, mode_word, node_fields, node_line, node_lines, plan_text, test_line, tests_text};
ghost use Rattle.iso_tap.specs.Printers.{Writes};

use crate::fault::TapFault;
use crate::printer::{Piece, Printer};
use crate::sink::{Sink, SinkFailed};
use iso_model::access::Access;
use iso_model::script::Mode;
use iso_plan::laws;
use iso_plan::plan::Plan;

/// Writes a plan for `workers` workers: the line `workers W`, then for each node but the root, in
/// preorder, a line `N KIND MODE [LOCKS] PATH`. KIND is `class` or `test`, MODE `same_thread` or
/// `concurrent`. LOCKS are `r:KEY` for READ and `w:KEY` for READ_WRITE, by key number, with commas
/// between them. PATH is the names of the team, the enclosing classes and the node, with dots
/// between them. Takes no memory.
///
/// The sink is asked again where it takes only some bytes, and no more once it has failed.
pub fn write_plan<W: Sink>(plan: &Plan, workers: u32, sink: &mut W) -> Result<(), TapFault>
    ensures { Writes (W.account sink.old) (W.account sink.new)
        (plan_text (tree_of plan.now) plan.now.settings workers) result }
{
    let mut printer = Printer::new(sink);
    match printer.plan(plan, workers) {
        Ok(()) => Ok(()),
        Err(_) => Err(TapFault {
            written: printer.written(),
        }),
    }
}

/// Writes of a plan the lines of its tests alone, as `write_plan` has them. Takes no memory.
///
/// The sink is asked again where it takes only some bytes, and no more once it has failed.
pub fn write_tests<W: Sink>(plan: &Plan, sink: &mut W) -> Result<(), TapFault>
    ensures { Writes (W.account sink.old) (W.account sink.new)
        (tests_text (tree_of plan.now) plan.now.settings) result }
{
    let mut printer = Printer::new(sink);
    match printer.tests(plan) {
        Ok(()) => Ok(()),
        Err(_) => Err(TapFault {
            written: printer.written(),
        }),
    }
}

impl<'a, W: Sink> Printer<'a, W> {
    ghost use Rattle.iso_plan.specs.Paths.{row_at};
    ghost use Rattle.iso_tap.specs.Printers.{Prints};

    /// Writes a plan.
    fn plan(&mut self, plan: &Plan, workers: u32) -> Result<(), SinkFailed>
        ensures { Prints self.old self.new
            (plan_text (tree_of plan.now) plan.now.settings workers) result }
    {
        self.pieces(&[
            Piece::Plain(b"workers "),
            Piece::Number(u64::from(workers)),
            Piece::Plain(b"\n"),
        ])?;
        self.nodes(plan)
    }

    /// Writes the line of each node but the root.
    fn nodes(&mut self, plan: &Plan) -> Result<(), SinkFailed>
        ensures { Prints self.old self.new
            (node_lines (tree_of plan.now) plan.now.settings (length plan.now.rows - 1) 1) result }
    {
        'nodes: for node in 1..plan.len() {
            self.node(plan, node)?;
        }
        Ok(())
    }

    /// Writes the lines of tests.
    fn tests(&mut self, plan: &Plan) -> Result<(), SinkFailed>
        ensures { Prints self.old self.new
            (tests_text (tree_of plan.now) plan.now.settings) result }
    {
        'nodes: for node in 1..plan.len() {
            self.test(plan, node)?;
        }
        Ok(())
    }

    /// Writes the line of a node that is a test.
    fn test(&mut self, plan: &Plan, node: u32) -> Result<(), SinkFailed>
        requires above { 0 < node }
        requires within { node < length plan.now.rows }
        ensures { Prints self.old self.new
            (test_line (tree_of plan.now) plan.now.settings node) result }
    {
        if plan.is_test(node) {
            self.node(plan, node)?;
        }
        Ok(())
    }

    /// Writes the line of a node.
    fn node(&mut self, plan: &Plan, node: u32) -> Result<(), SinkFailed>
        requires above { 0 < node }
        requires within { node < length plan.now.rows }
        ensures { Prints self.old self.new
            (node_line (tree_of plan.now) plan.now.settings node) result }
    {
        self.node_fields(plan, node)?;
        self.bytes(b"\n")
    }

    /// Writes the line of a node, as `write_plan` has it, without its line end.
    pub fn node_fields(&mut self, plan: &Plan, node: u32) -> Result<(), SinkFailed>
        requires above { 0 < node }
        requires within { node < length plan.now.rows }
        ensures { Prints self.old self.new
            (node_fields (tree_of plan.now) plan.now.settings node) result }
    {
        self.pieces(&[
            Piece::Number(u64::from(node)),
            Piece::Plain(b" "),
            Piece::Plain(kind_word(plan.is_test(node)).as_bytes()),
            Piece::Plain(b" "),
            Piece::Plain(mode_word(plan.mode(node)).as_bytes()),
            Piece::Plain(b" ["),
        ])?;
        self.locks(plan, node)?;
        self.bytes(b"] ")?;
        self.path(plan, node)
    }

    /// Writes the locks that a node takes, with commas between them.
    fn locks(&mut self, plan: &Plan, node: u32) -> Result<(), SinkFailed>
        requires { node < length plan.now.rows }
        ensures { Prints self.old self.new
            (locks_text (keys (tree_of plan.now)) (locks (tree_of plan.now) node)) result }
    {
        let locks = plan.locks(node);
        let mut separator = "";
        'locks: for lock in locks {
            self.pieces(&[
                Piece::Plain(separator.as_bytes()),
                Piece::Plain(access_word(lock.access).as_bytes()),
                Piece::Plain(plan.key(lock.key).as_bytes()),
            ])?;
            separator = ",";
        }
        Ok(())
    }

    /// Writes a node's path: the names on it from the top-level class down, with dots between them.
    /// It calls itself once for each enclosing class of the node.
    #[cycle(path)]
    pub fn path(&mut self, plan: &Plan, node: u32) -> Result<(), SinkFailed>
        requires above { 0 < node }
        requires within { node < length plan.now.rows }
        ensures { Prints self.old self.new (path_text (tree_of plan.now) node) result }
    {
        laws::parents_come_first(plan);
        laws::paths_lead_up(plan);
        let name = plan.name(node).as_bytes();
        match plan.parent(node) {
            Some(class) if class > 0 => {
                self.path(plan, class)?;
                self.pieces(&[Piece::Plain(b"."), Piece::Plain(name)])
            }
            _ => self.bytes(name),
        }
    }
}

/// The word of what a node is.
fn kind_word(is_test: bool) -> &'static str
    ensures { result.now ≡ cond is_test (codes "test") (codes "class") }
{
    if is_test { "test" } else { "class" }
}

/// The word of an execution mode.
fn mode_word(mode: Mode) -> &'static str
    ensures { result.now ≡ mode_word mode }
{
    match mode {
        Mode::SameThread => "same_thread",
        Mode::Concurrent => "concurrent",
    }
}

/// How a key is taken.
fn access_word(access: Access) -> &'static str
    ensures { result.now ≡ access_word access }
{
    match access {
        Access::Read => "r:",
        Access::Write => "w:",
    }
}
