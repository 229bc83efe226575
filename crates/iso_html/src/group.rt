//! Bars that are drawn as one.
ghost use Rattle.std.specs.Prelude.{◌≡◌, IfOk};
ghost use Rattle.iso_html.specs.Groups.{added, alone, blank, group_at, no_group, one_more, with_bar, worse};

use crate::shape::{Bar, Group, Look};
use std::alloc::{AllocError, Global};

impl Look {
    /// The look of two: where one failed or took a key for READ_WRITE, as that.
    fn or_worse(self, other: Look) -> Look
        ensures { result ≡ worse self other }
    {
        match self {
            Look::Well => other,
            Look::Failed => Look::Failed,
            Look::Reading => match other {
                Look::Writing => Look::Writing,
                _ => Look::Reading,
            },
            Look::Writing => Look::Writing,
        }
    }
}

impl Group {
    /// Of no bar.
    fn none() -> Group
        ensures { result ≡ no_group }
    {
        Group {
            count: 0,
            first: 0,
            look: Look::Well,
            critical: false,
            begin: 0,
            end: 0,
        }
    }

    /// Of one bar.
    fn alone(bar: Bar) -> Group
        ensures { result ≡ alone bar }
    {
        Group {
            count: 1,
            first: bar.node,
            look: bar.look,
            critical: bar.critical,
            begin: bar.begin,
            end: bar.end,
        }
    }

    /// The same with one bar more.
    fn one_more(self, bar: Bar) -> Group
        ensures { result ≡ one_more bar self }
    {
        Group {
            count: self.count.saturating_add(1),
            first: self.first,
            look: self.look.or_worse(bar.look),
            critical: self.critical || bar.critical,
            begin: self.begin.min(bar.begin),
            end: self.end.max(bar.end),
        }
    }

    /// The same with a bar.
    fn with(self, bar: Bar) -> Group
        ensures { result ≡ with_bar bar self }
    {
        if self.count == 0 {
            Group::alone(bar)
        } else {
            self.one_more(bar)
        }
    }
}

/// `count` groups of no bar.
pub(crate) fn blank(alloc: Global, count: u32) -> Result<Vec<Group>, AllocError>
    ensures { IfOk result (λ v. v.items ≡ blank count) }
{
    vec![in alloc; Group::none(); count as usize]
}

/// Adds a bar to the group at a place, where there is one.
pub(crate) fn add(groups: &mut [Group], place: u32, bar: Bar)
    ensures { groups.new ≡ added place bar groups.old }
{
    let place = place as usize;
    if place < groups.len() {
        groups[place] = groups[place].with(bar);
    }
}

/// The group at a place.
pub(crate) fn group_at(groups: &[Group], place: u32) -> Group
    ensures { result ≡ group_at groups.now place }
{
    match groups.get(place as usize) {
        Some(group) => *group,
        None => Group::none(),
    }
}
