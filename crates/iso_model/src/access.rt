ghost use Rattle.std.specs.Prelude.{◌≡◌};
ghost use Rattle.iso_model.specs.Rights.{stronger};
ghost use Rattle.iso_model.specs.Texts.{access_word};

/// How a resource is declared: to be looked at, or to be changed as well.
/// `Write` is the stronger; a declared `write` lets look too.
#[derive(Clone, Copy, PartialEq, Eq)]
pub enum Access {
    Read,
    Write,
}

impl Access {
    /// The stronger of the two.
    pub fn stronger(self, other: Access) -> Access
        ensures { result ≡ stronger self other }
    {
        match self {
            Access::Read => other,
            Access::Write => Access::Write,
        }
    }

    /// The word by which a fault's message names it.
    pub fn word(self) -> &'static str
        ensures { result.now ≡ access_word self }
    {
        match self {
            Access::Read => "READ",
            Access::Write => "READ_WRITE",
        }
    }
}
