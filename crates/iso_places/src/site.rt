//! Where nodes stand.
ghost use Rattle.std.specs.Prelude.{◌≡◌, []};
ghost use Rattle.iso_places.specs.Sites.{site_at};

use iso_script::place::NodePlace;
use std::alloc::Global;
use std::marker::Model;

/// Where a node stands: in which script, by its number from 0, and where there.
#[derive(Clone, Copy, PartialEq, Eq)]
pub struct Site {
    pub script: u32,
    pub place: NodePlace,
}

const _: () = prove!(size_of::<Site>() <= 32);

/// The sites of a plan's nodes, which contracts see as those of all nodes but the root, in their
/// order, or as none where places weren't asked for.
#[derive(Drop)]
pub struct Sites {
    list: Vec<Site>,
}

impl Model for Sites {
    ghost use Rattle.std.specs.Prelude.{List};
    ghost use Rattle.iso_places.specs.declared.site.Site.{Site};

    ghost Value = { List Site };

    ghost view = { λ s. s.list.items };
}

impl Sites {
    /// These sites.
    pub(crate) fn new(list: Vec<Site>) -> Sites
        ensures { result ≡ list.items }
    {
        Sites { list }
    }

    /// No sites, where places aren't asked for.
    pub fn none(alloc: Global) -> Sites
        ensures { result ≡ [] }
    {
        Sites {
            list: Vec::new(alloc),
        }
    }

    /// The site of a node by its number. The root has none, and where places weren't asked for no
    /// node has one.
    pub fn site(&self, node: u32) -> Option<Site>
        ensures { result ≡ site_at self.now node }
    {
        if node == 0 {
            return None;
        }
        self.list.get(node as usize - 1).copied()
    }
}
