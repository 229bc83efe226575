ghost use Rattle.std.specs.Prelude.{◌≡◌, ℕ, List, Bool, true, OnOk, OnErr, option_copied};
ghost use Rattle.iso_model.specs.Resources.{Resources, changed_at};

use crate::resource::{Ask, Change};
use crate::resource_key::ResourceKey;
use std::alloc::AllocError;

/// What holds resources, however it keeps them.
pub trait Touch {
    ghost use Rattle.iso_model.specs.ResourceKeys.{spelling};
    ghost use Rattle.iso_model.specs.Touch.{HasKind, answered, kind_of_ask, kind_of_change};

    /// The values that it holds, by key; none at a key that it doesn't have.
    ghost content: { Self → Resources };

    /// Whether it lets the value of a key be changed.
    ghost writes: { Self → List ℕ → Bool };

    /// Whether the second state may come of the first by changes of values alone.
    ghost goes_on: { Self → Self → Type 0 };

    /// The text that is asked for, or `None` where the property is absent or the file missing.
    fn look(&self, key: ResourceKey<'_>, ask: Ask<'_>) -> Option<&str>
        requires { HasKind (content self.now (spelling key)) (kind_of_ask ask) }
        ensures { option_copied result ≡ answered
            (content self.now (spelling key.entry)) ask.entry };

    /// Changes the value of one key. Once out of memory nothing is changed.
    fn change(&mut self, key: ResourceKey<'_>, change: Change) -> Result<(), AllocError>
        requires kind { HasKind (content self.old (spelling key)) (kind_of_change change) }
        requires writes { writes self.old (spelling key) ≡ true }
        ensures ok { OnOk result (content self.new
            ≡ changed_at (content self.old) (spelling key.entry) change) }
        ensures err { OnErr result (content self.new ≡ content self.old) }
        ensures goes_on { goes_on self.old self.new };

    /// Each state goes on to itself.
    ghost still: { (t : Self) → goes_on t t };

    /// Changes may follow one another.
    ghost further: { (t u v : Self) → goes_on t u → goes_on u v → goes_on t v };

    /// The same keys may be changed before and after.
    ghost same_writes: { (t u : Self) → goes_on t u → writes u ≡ writes t };
}
