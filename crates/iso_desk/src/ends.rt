//! The ends of a line, whose nodes know who is behind them.
ghost use Rattle.std.specs.Prelude.{◌≡◌, ◌<◌, length};
ghost use Rattle.iso_desk.specs.Linked.{FirstBelow, LastBelow, leading, linked, longer, shorter, wider};

/// The first and the last node of a line.
#[derive(Clone, Copy)]
pub(crate) struct Ends {
    pub(crate) first: u32,
    pub(crate) last: u32,
}

/// The ends of a line that a node joins at its end.
pub(crate) fn longer(ends: Option<Ends>, node: u32) -> Ends
    ensures { result ≡ longer ends node }
{
    let first = match ends {
        Some(ends) => ends.first,
        None => node,
    };
    Ends { first, last: node }
}

/// Puts the node that joins a line behind its last.
pub(crate) fn link(next: &mut Vec<u32>, ends: Option<Ends>, node: u32)
    requires { LastBelow ends (length next.old.items) }
    ensures { next.new.items ≡ linked ends node next.old.items }
{
    if let Some(ends) = ends {
        next[ends.last as usize] = node;
    }
}

/// The ends of a line that a node joins at its front.
pub(crate) fn wider(ends: Option<Ends>, node: u32) -> Ends
    ensures { result ≡ wider ends node }
{
    let last = match ends {
        Some(ends) => ends.last,
        None => node,
    };
    Ends { first: node, last }
}

/// Puts the first of a line behind the node that joins it.
pub(crate) fn lead(next: &mut Vec<u32>, ends: Option<Ends>, node: u32)
    requires { node < length next.old.items }
    ensures { next.new.items ≡ leading ends node next.old.items }
{
    if let Some(ends) = ends {
        next[node as usize] = ends.first;
    }
}

/// The ends of a line that its first node leaves.
pub(crate) fn shorter(ends: Option<Ends>, next: &[u32]) -> Option<Ends>
    requires { FirstBelow ends (length next.now) }
    ensures { result ≡ shorter ends next.now }
{
    let ends = ends?;
    if ends.first == ends.last {
        return None;
    }
    Some(Ends {
        first: next[ends.first as usize],
        last: ends.last,
    })
}
