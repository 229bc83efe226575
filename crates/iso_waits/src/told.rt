//! Waits that are told moment by moment.
ghost use Rattle.std.specs.Prelude.{◌≡◌, IfOk, OnOk};
ghost use Rattle.iso_waits.specs.Moments.{all_of, closed, goes_on, held, nothing_told};

use crate::wait::Wait;
use std::alloc::{AllocError, Global};
use std::marker::Model;

/// The waits that are over, and the one that goes on, if one does.
#[derive(Drop)]
pub(crate) struct Told {
    over: Vec<Wait>,
    last: Option<Wait>,
}

impl Model for Told {
    ghost use Rattle.iso_waits.specs.Moments.{Waited};

    ghost Value = { Waited };

    ghost view = { λ t. record { over = t.over.items; last = t.last } };
}

impl Told {
    /// None so far.
    pub(crate) fn new(alloc: Global) -> Told
        ensures { result ≡ nothing_told }
    {
        Told {
            over: Vec::new(alloc),
            last: None,
        }
    }

    /// From a moment until another this node is in the way, or none is.
    pub(crate) fn goes_on(
        &mut self,
        from: u64,
        until: u64,
        holder: Option<u32>,
    ) -> Result<(), AllocError>
        ensures { OnOk result (self.new ≡ goes_on from until holder self.old) }
    {
        match holder {
            Some(node) => self.hold(from, until, node),
            None => self.close(),
        }
    }

    /// This node is in the way: the wait for it goes on, or begins.
    fn hold(&mut self, from: u64, until: u64, holder: u32) -> Result<(), AllocError>
        ensures { OnOk result (self.new ≡ held from until holder self.old.over self.old.last) }
    {
        let begin = match self.last {
            Some(last) if last.holder == holder => last.begin,
            _ => {
                self.close()?;
                from
            }
        };
        self.last = Some(Wait {
            holder,
            begin,
            end: until,
        });
        Ok(())
    }

    /// The last wait is over.
    fn close(&mut self) -> Result<(), AllocError>
        ensures { OnOk result (self.new ≡ closed self.old) }
    {
        if let Some(last) = self.last.take() {
            self.over.push(last)?;
        }
        Ok(())
    }

    /// All that was told.
    pub(crate) fn into_waits(self) -> Result<Vec<Wait>, AllocError>
        ensures { IfOk result (λ v. v.items ≡ all_of self) }
    {
        let Told { mut over, last } = self;
        if let Some(last) = last {
            over.push(last)?;
        }
        Ok(over)
    }
}
