ghost use Rattle.std.specs.Prelude.{◌≡◌, IfOk, bytes_eq};
ghost use Rattle.std.specs.Ordering.{nat_cmp};
ghost use Rattle.std.specs.Cmp.Lexicographic.{slice_cmp};
ghost use Rattle.iso_model.specs.ResourceKeys.{file_key, spelling};

use crate::key::Key;
use crate::text::Text;
use std::alloc::{AllocError, Global};
use std::cmp::Ordering;

/// The key by which a block names a resource, borrowed: looking one up takes no memory.
#[derive(Clone, Copy)]
pub enum ResourceKey<'a> {
    /// The system properties.
    Properties,
    /// The default locale.
    Locale,
    /// The virtual file at a path.
    File(&'a str),
}

impl<'a> ResourceKey<'a> {
    /// Whether it's this declared key.
    pub fn is(self, declared: &Key) -> bool
        ensures { result ≡ bytes_eq (spelling self.entry) declared.now }
    {
        match self {
            ResourceKey::Properties => "java.lang.System.properties" == declared.as_str(),
            ResourceKey::Locale => "java.util.Locale.default" == declared.as_str(),
            ResourceKey::File(path) => is_file_key(path, declared.as_str()),
        }
    }

    /// How its spelling stands to that of a declared key, by their bytes. Takes no memory.
    pub fn order(self, declared: &Key) -> Ordering
        ensures { result ≡ slice_cmp nat_cmp (spelling self.entry) declared.now }
    {
        match self {
            ResourceKey::Properties => "java.lang.System.properties".cmp(declared.as_str()),
            ResourceKey::Locale => "java.util.Locale.default".cmp(declared.as_str()),
            ResourceKey::File(path) => order_of_file(path, declared.as_str()),
        }
    }

    /// The key with its spelling.
    pub fn key(self, alloc: Global) -> Result<Key, AllocError>
        ensures { IfOk result (λ k. k ≡ spelling self.entry) }
    {
        match self {
            ResourceKey::Properties => {
                Key::new(alloc, Text::copied(alloc, "java.lang.System.properties")?)
            }
            ResourceKey::Locale => Key::new(
                alloc,
                Text::copied(alloc, "java.util.Locale.default")?,
            ),
            ResourceKey::File(path) => Key::of_file(alloc, path),
        }
    }
}

/// Whether a spelling is that of the file at this path.
fn is_file_key(path: &str, spelling: &str) -> bool
    ensures { result ≡ bytes_eq (file_key path.now) spelling.now }
{
    match spelling.as_bytes().strip_prefix(b"file:") {
        Some(rest) => path.as_bytes() == rest,
        None => false,
    }
}

/// How the spelling of the file at this path stands to a spelling. One that doesn't begin as a
/// file's does differs within these bytes.
fn order_of_file(path: &str, spelling: &str) -> Ordering
    ensures { result ≡ slice_cmp nat_cmp (file_key path.now) spelling.now }
{
    match spelling.as_bytes().strip_prefix(b"file:") {
        Some(rest) => path.as_bytes().cmp(rest),
        None => "file:".cmp(spelling),
    }
}
