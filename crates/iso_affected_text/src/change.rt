//! Two suites, and what a change of one to the other made of their nodes.
ghost use Rattle.std.specs.Prelude.{◌≡◌, ◌<◌, length};
ghost use Rattle.iso_affected_text.specs.Changes.{IsSide};
ghost use Rattle.iso_plan.specs.PathTexts.{path_text};
ghost use Rattle.iso_plan.specs.RowView.{tree_of};

use iso_affected::affected::Fate;
use iso_affected::difference::Difference;
use iso_model::text::Text;
use iso_places::lines::LineTable;
use iso_places::site::Sites;
use iso_plan::plan::Plan;

/// One of the two suites.
#[derive(Clone, Copy)]
pub struct Side<'a> {
    pub plan: &'a Plan,
    pub sites: &'a Sites,
    /// The paths of its nodes.
    pub paths: &'a [Text],
    /// The bytes of its scripts.
    pub texts: &'a [&'a [u8]],
    /// The tables of their lines.
    pub tables: &'a [LineTable],
}

/// The two suites, and what the change made of their nodes.
#[derive(Clone, Copy)]
pub struct Change<'a> {
    pub old: Side<'a>,
    pub new: Side<'a>,
    /// The names of the scripts, which are those of both suites.
    pub names: &'a [&'a str],
    /// The fates of the new nodes.
    pub fates: &'a [Fate],
    /// What differs of those that are changed.
    pub told: &'a [Option<Difference>],
    /// The old nodes that are gone.
    pub gone: &'a [u32],
    /// The property that starts with another value.
    pub property: Option<&'a str>,
}

/// The path of a node of one of the suites.
pub(crate) fn path_at<'a>(side: &Side<'a>, node: u32) -> &'a str
    requires side { IsSide side.now }
    requires within { node < length side.now.plan.now.rows }
    ensures { result.now ≡ path_text (tree_of side.now.plan.now) node }
{
    side.paths[node as usize].as_str()
}
