ghost use Rattle.std.specs.Prelude.{◌≡◌, ◌≤◌, ◌++◌, ◌↔◌, ℕ, List, length, take, drop, IsTrue, IfOk, OnOk};
ghost use Rattle.std.specs.List.{Contains};
ghost use Rattle.std.specs.List.Sorted.{IsStrictlySortedBy};
ghost use Rattle.vfs_tree.specs.Name.{name_cmp};
ghost use Rattle.union_fs.specs.Names.{front_below, rest_from, begins_with};
ghost use Rattle.union_fs.specs.Visible.{IsVisible};

use finite_maps::Duplicate;
use std::alloc::{AllocError, Global};
use std::cmp::Ordering;
use vfs_tree::Name;

/// Whether the names come in byte order and without repeats, as `merge` asks of its lists.
pub fn is_in_order(names: &[Name]) -> bool
    ensures { IsTrue result ↔ IsStrictlySortedBy name_cmp names.now }
{
    for at in 1..names.len() {
        if names[at - 1].cmp(&names[at]) != Ordering::Less {
            return false;
        }
    }
    true
}

/// How many names at the front are below this one.
fn count_below(names: &[Name], name: &Name) -> usize
    ensures within { result ≤ length names.now }
    ensures front { take result names.now ≡ front_below name_cmp name.now names.now }
    ensures rest { drop result names.now ≡ rest_from name_cmp name.now names.now }
{
    for (at, other) in names.iter().enumerate() {
        if other.cmp(name) != Ordering::Less {
            return at;
        }
    }
    names.len()
}

/// Whether the first name is this one.
fn begins_with(names: &[Name], name: &Name) -> bool
    ensures { result ≡ begins_with name_cmp name.now names.now }
{
    match names.first() {
        None => false,
        Some(first) => first.cmp(name) == Ordering::Equal,
    }
}

/// Puts copies of the names at the end.
fn push_copies(alloc: Global, names: &mut Vec<Name>, more: &[Name]) -> Result<(), AllocError>
    ensures { OnOk result (names.new.items ≡ names.old.items ++ more.now) }
{
    for name in more {
        names.push(name.duplicate(alloc)?)?;
    }
    Ok(())
}

/// The names that a union directory shows: those of its upper layer, and those of its lower layer that stand neither in
/// the upper layer nor as a whiteout there. They come once each, in byte order, as the three lists do.
///
/// It takes time in proportion to the lists together. The only fault is want of memory.
pub fn merge(
    alloc: Global,
    upper: &[Name],
    white: &[Name],
    lower: &[Name],
) -> Result<Vec<Name>, AllocError>
    requires upper_in_order { IsStrictlySortedBy name_cmp upper.now }
    requires white_in_order { IsStrictlySortedBy name_cmp white.now }
    requires lower_in_order { IsStrictlySortedBy name_cmp lower.now }
    ensures visible { IfOk result (λ names. (name : List ℕ) → Contains names.items name ↔ IsVisible upper.now white.now lower.now name) }
    ensures in_order { IfOk result (λ names. IsStrictlySortedBy name_cmp names.items) }
{
    let mut upper_left = upper;
    let mut white_left = white;
    let mut names = Vec::new(alloc);
    for name in lower {
        let (below, rest) = upper_left.split_at(count_below(upper_left, name));
        push_copies(alloc, &mut names, below)?;
        upper_left = rest;
        let (_, rest) = white_left.split_at(count_below(white_left, name));
        white_left = rest;
        if !begins_with(upper_left, name) && !begins_with(white_left, name) {
            names.push(name.duplicate(alloc)?)?;
        }
    }
    push_copies(alloc, &mut names, upper_left)?;
    Ok(names)
}

#[cfg(test)]
mod tests {
    use super::{is_in_order, merge};
    use std::alloc::{AllocError, Global};
    use vfs_tree::Name;

    // The names of one letter each.
    fn names_of(alloc: Global, letters: &[u8]) -> Result<Vec<Name>, AllocError> {
        let mut names = Vec::new(alloc);
        for letter in letters {
            let Ok(name) = Name::new(alloc, &[*letter]) else {
                return Err(AllocError);
            };
            names.push(name)?;
        }
        Ok(names)
    }

    // Whether the union of these lists shows the wanted names.
    fn shows(
        alloc: Global,
        upper: &[u8],
        white: &[u8],
        lower: &[u8],
        wanted: &[u8],
    ) -> Result<bool, AllocError> {
        let upper = names_of(alloc, upper)?;
        if !is_in_order(upper.as_slice()) {
            return Ok(false);
        }
        let white = names_of(alloc, white)?;
        if !is_in_order(white.as_slice()) {
            return Ok(false);
        }
        let lower = names_of(alloc, lower)?;
        if !is_in_order(lower.as_slice()) {
            return Ok(false);
        }
        let shown = merge(alloc, upper.as_slice(), white.as_slice(), lower.as_slice())?;
        let wanted = names_of(alloc, wanted)?;
        Ok(shown.as_slice() == wanted.as_slice())
    }

    #[test]
    fn upper_names_and_whiteouts_hide_lower_names(rt: HostRuntime) -> Result<(), AllocError> {
        let alloc = rt.alloc();
        assert!(rt; shows(alloc, b"", b"", b"", b"")?);
        assert!(rt; shows(alloc, b"bd", b"", b"", b"bd")?);
        assert!(rt; shows(alloc, b"", b"ac", b"abc", b"b")?);
        assert!(rt; shows(alloc, b"bdg", b"ce", b"abcdef", b"abdfg")?);
        assert!(rt; shows(alloc, b"yz", b"abx", b"axz", b"yz")?);
        assert!(rt; !shows(alloc, b"ba", b"", b"", b"ba")?);
        assert!(rt; !shows(alloc, b"", b"", b"aa", b"aa")?);
        Ok(())
    }
}
