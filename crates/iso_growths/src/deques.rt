//! The deques of two workers.
use crate::answer::{Answer, out_of_memory};
use crate::calls::Calls;
use crate::host::Host;
use iso_posts::owner::Owner;
use iso_posts::posts::Posts;

/// More nodes than a deque has room for at first.
const NODES: u32 = 200;

/// Makes the deques, and posts into the first.
pub(crate) fn post<H: Host>(calls: &Calls<'_, H>) -> Result<(), Answer> {
    calls.begin("Posts::new");
    let made = Posts::new(calls.alloc(), 2);
    calls.end("Posts::new");
    let mut seats = made?;
    match seats.get_mut(0) {
        Some(seat) => post_nodes(calls, &mut seat.owner),
        None => Err(Answer::Wrong("no seat")),
    }
}

/// Posts nodes, each of which comes back where it was refused memory, and is posted then.
fn post_nodes<H: Host>(calls: &Calls<'_, H>, owner: &mut Owner) -> Result<(), Answer> {
    for node in 0..NODES {
        calls.begin("Owner::post");
        let posted = owner.post(node);
        calls.end("Owner::post");
        if let Err((back, _)) = posted {
            let stands = back == node && owner.post(node).is_ok();
            return Err(out_of_memory(stands, "another node came back"));
        }
    }
    Ok(())
}
