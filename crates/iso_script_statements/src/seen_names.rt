//! Names that were seen, where most of those that are asked for are new.
ghost use Rattle.std.specs.Prelude.{◌≡◌, ◌<◌, ◌++◌, ◌∷◌, [], ℕ, List, IfOk, IsTrue, not};
ghost use Rattle.iso_model.specs.NameSets.{Knows, is_among};
ghost use Rattle.iso_script_statements.specs.SeenNames.{HasFew, HasSeen, hash_from, is_in};

use iso_model::distinct::claim;
use std::alloc::{AllocError, Global};
use std::collections::BTreeSet;

/// How many names are few.
const FEW: usize = 128;

/// How many hashes there are.
const HASHES: usize = 512;

/// Names that were seen.
#[derive(Drop)]
pub enum SeenNames<'a> {
    Few(FewNames<'a>),
    /// More than a few: whatever names they are, one more costs as the logarithm of their number.
    Many(BTreeSet<&'a str>),
}

/// A few names, and which hashes they have. Most names have another hash than those before them,
/// and so are new without a comparison.
#[derive(Drop)]
pub struct FewNames<'a> {
    alloc: Global,
    names: Vec<&'a str>,
    taken: [bool; HASHES],
}

impl<'a> SeenNames<'a> {
    /// No names.
    pub fn new(alloc: Global) -> SeenNames<'a>
        ensures { HasSeen result [] }
    {
        SeenNames::Few(FewNames::new(alloc))
    }

    /// Whether a name is new, which is then one of those seen.
    pub fn claim(&mut self, name: &'a str) -> Result<bool, AllocError>
        ensures { (names : List (List ℕ)) → HasSeen self.old names
            → IfOk result (λ fresh. (fresh ≡ not (is_among names name.now))
            × (IsTrue fresh → HasSeen self.new (names ++ name.now ∷ []))) }
    {
        match self {
            SeenNames::Few(few) if few.names.len() < FEW => few.claim(name),
            SeenNames::Few(few) => {
                let mut many = few.as_set()?;
                let fresh = claim(&mut many, name)?;
                *self = SeenNames::Many(many);
                Ok(fresh)
            }
            SeenNames::Many(many) => claim(many, name),
        }
    }
}

impl<'a> FewNames<'a> {
    /// No names.
    fn new(alloc: Global) -> FewNames<'a>
        ensures { HasFew result [] }
    {
        FewNames {
            alloc,
            names: Vec::new(alloc),
            taken: [false; HASHES],
        }
    }

    /// Whether a name is new, which is then one of these.
    fn claim(&mut self, name: &'a str) -> Result<bool, AllocError>
        ensures { (names : List (List ℕ)) → HasFew self.old names
            → IfOk result (λ fresh. (fresh ≡ not (is_among names name.now))
            × (IsTrue fresh → HasFew self.new (names ++ name.now ∷ []))) }
    {
        let hash = hash_of(name);
        if self.has(hash, name) {
            return Ok(false);
        }
        self.names.push(name)?;
        self.taken[hash] = true;
        Ok(true)
    }

    /// Whether a name of this hash is one of these.
    fn has(&self, hash: usize, name: &str) -> bool
        requires of_name { hash ≡ hash_from 0 name.now }
        requires within { hash < 512 }
        ensures { (names : List (List ℕ)) → HasFew self.now names
            → result ≡ is_among names name.now }
    {
        if self.taken[hash] {
            is_listed(self.names.as_slice(), name)
        } else {
            false
        }
    }

    /// The same names as a set.
    fn as_set(&self) -> Result<BTreeSet<&'a str>, AllocError>
        ensures { (names : List (List ℕ)) → HasFew self.now names
            → IfOk result (λ set. Knows set names) }
    {
        let mut set = BTreeSet::new(self.alloc);
        'names: for name in self.names.as_slice() {
            claim(&mut set, name)?;
        }
        Ok(set)
    }
}

/// Whether a name is one of some.
fn is_listed(names: &[&str], name: &str) -> bool
    ensures { result ≡ is_in names.now name.now }
{
    'names: for seen in names {
        if *seen == name {
            return true;
        }
    }
    false
}

/// A number for a name, the same for equal ones.
fn hash_of(name: &str) -> usize
    ensures hash { result ≡ hash_from 0 name.now }
    ensures within { result < 512 }
{
    let mut hash = 0;
    'bytes: for byte in name.as_bytes() {
        hash = (hash * 31 + usize::from(*byte)) % HASHES;
    }
    hash
}
