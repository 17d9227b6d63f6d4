ghost use Rattle.std.specs.Prelude.{◌≡◌, ◌↔◌, ℕ, true, false, IsTrue, IfOk, Some, List, [], length, refl, nat_eq, slice_get};
ghost use Rattle.std.specs.Option.{option_copied};
ghost use Rattle.std.specs.Cmp.{partial_equiv_from_equiv};
ghost use Rattle.std.specs.Cmp.Lexicographic.{nat_list_eq_equiv, slice_cmp, pointwise, nat_list_cmp_total, texts_ties, texts_po};
ghost use Rattle.std.specs.Ordering.{nat_cmp};
ghost use Rattle.vfs_tree.specs.Name.{is_name, has_no_slash_or_zero};

use finite_maps::Duplicate;
use std::alloc::{AllocError, Global};
use std::cmp::Ordering;
use std::marker::Model;
use thiserror::Error;

/// The most bytes that a name has, as NAME_MAX of pathconf(2).
pub const NAME_MAX: usize = 255;

/// Why bytes became no name.
#[derive(Clone, Copy, Debug, PartialEq, Eq, Error)]
pub enum NameFault {
    /// The bytes are no name.
    #[error("a name has 1 to 255 bytes without a slash or a zero byte, and is neither `.` nor `..`")]
    Bad,
    /// There is no memory for the name.
    #[error("no memory is left")]
    NoMemory,
}

/// A file name: 1 to 255 bytes without a slash or a zero byte, neither `.` nor `..`. Contracts see its bytes.
///
/// Names are ordered by their bytes.
#[derive(Debug, Drop)]
pub struct Name {
    bytes: Vec<u8>,
}

impl Model for Name {
    ghost use Rattle.std.specs.Prelude.{List, ℕ, ◌≡◌, true};
    ghost use Rattle.vfs_tree.specs.Name.{is_name};

    ghost Value = { List ℕ };

    ghost view = { λ n. n.bytes.items };

    ghost invariant = { λ n. is_name n.bytes.items ≡ true };
}

fn has_no_slash_or_zero(bytes: &[u8]) -> bool
    ensures { result ≡ has_no_slash_or_zero bytes.now }
{
    bytes.iter().all(|b| *b != b'/' && *b != 0)
}

/// Whether the bytes are a file name.
fn tests_name(bytes: &[u8]) -> bool
    ensures { result ≡ is_name bytes.now }
{
    if bytes.is_empty() || NAME_MAX < bytes.len() {
        return false;
    }
    if bytes == b".".as_slice() || bytes == b"..".as_slice() {
        return false;
    }
    has_no_slash_or_zero(bytes)
}

impl Name {
    /// The name of these bytes. `Bad` comes exactly where they are no name.
    pub fn new(alloc: Global, bytes: &[u8]) -> Result<Name, NameFault>
        ensures named { IfOk result (λ name. name ≡ bytes.now) }
        ensures lawful { IfOk result (λ _. IsTrue (is_name bytes.now)) }
        ensures bad { (result ≡ Err NameFault.Bad) ↔ (is_name bytes.now ≡ false) }
    {
        if !tests_name(bytes) {
            return Err(NameFault::Bad);
        }
        match Vec::from_slice(alloc, bytes) {
            Ok(bytes) => Ok(Name { bytes }),
            Err(_) => Err(NameFault::NoMemory),
        }
    }

    /// The bytes of the name.
    pub fn as_slice(&self) -> &[u8]
        ensures bytes { result.now ≡ self.now }
        ensures lawful { IsTrue (is_name self.now) }
    {
        self.bytes.as_slice()
    }
}

impl Duplicate for Name {
    fn duplicate(&self, alloc: Global) -> Result<Self, AllocError> {
        let bytes = self.bytes.as_slice();
        Ok(Name {
            bytes: Vec::from_slice(alloc, bytes)?,
        })
    }
}

impl PartialEq for Name {
    ghost eq = { λ x y. pointwise nat_eq x y };

    ghost laws = { partial_equiv_from_equiv nat_list_eq_equiv };

    fn eq(&self, other: &Name) -> bool {
        self.as_slice() == other.as_slice()
    }
}

impl Eq for Name {
    ghost laws = { nat_list_eq_equiv };
}

impl PartialOrd for Name {
    ghost partial_cmp = { λ x y. Some (slice_cmp nat_cmp x y) };

    ghost laws = { texts_po };

    fn partial_cmp(&self, other: &Name) -> Option<Ordering> {
        Some(self.cmp(other))
    }
}

impl Ord for Name {
    ghost cmp = { λ x y. slice_cmp nat_cmp x y };

    ghost total = { nat_list_cmp_total };

    ghost matches_partial_cmp = { λ x y. refl };

    ghost matches_eq = { λ x y. texts_ties x y };

    fn cmp(&self, other: &Name) -> Ordering {
        self.as_slice().cmp(other.as_slice())
    }
}

/// Names in a row, as `readdir` answers them. Contracts see the list of their bytes.
#[derive(Debug, Drop)]
pub struct NameList {
    names: Vec<Name>,
}

impl Model for NameList {
    ghost use Rattle.std.specs.Prelude.{List, ℕ};

    ghost Value = { List (List ℕ) };

    ghost view = { λ l. l.names.items };
}

impl NameList {
    /// These names, in this order.
    pub fn of(names: Vec<Name>) -> NameList
        ensures { result ≡ names.items }
    {
        NameList { names }
    }

    /// How many names there are.
    pub fn len(&self) -> usize
        ensures { result ≡ length self.now }
    {
        self.names.len()
    }

    /// Whether there is no name.
    pub fn is_empty(&self) -> bool
        ensures { IsTrue result ↔ (self.now ≡ []) }
    {
        self.names.is_empty()
    }

    /// The name at that place, counted from 0. `None` comes exactly where there is no such place.
    pub fn get(&self, at: usize) -> Option<&Name>
        ensures { option_copied result ≡ slice_get self.now at }
    {
        self.names.get(at)
    }

    /// The names in their order.
    pub fn as_slice(&self) -> &[Name]
        ensures { result.now ≡ self.now }
    {
        self.names.as_slice()
    }
}
