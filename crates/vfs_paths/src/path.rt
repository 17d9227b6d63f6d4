ghost use Rattle.std.specs.Prelude.{◌≡◌, ◌↔◌, ◌<◌, ◌==◌, ◌∷◌, [], true, false, nat_lt, length, map, slice_get, IfOk};
ghost use Rattle.std.specs.List.{slice_split, list_any};
ghost use Rattle.std.specs.Option.{option_copied};
ghost use Rattle.vfs_tree.specs.Path.{components};
ghost use Rattle.vfs_tree.specs.Walk.{but_last, last_name};
ghost use Rattle.vfs_tree.specs.Paths.{parse, component_of, has_zero, is_too_long};
ghost use Rattle.vfs_tree.specs.declared.errno.Errno.{Errno};
ghost use Rattle.vfs_tree.specs.declared.walk.Need.{Need};
ghost use Rattle.vfs_tree.specs.declared.walk.Step.TheVariants.{Go, Refuse};
ghost use Rattle.vfs_paths.specs.Parts.{is_part};

use finite_maps::Duplicate;
use std::alloc::{AllocError, Global};
use std::marker::Model;
use thiserror::Error;
use vfs_tree::{Component, Errno, Name, NameFault, Need, Step};

/// The most bytes that a path has. With the zero byte that ends one in C these are `PATH_MAX`, 1,024, of pathconf(2).
pub const PATH_MAX: usize = 1023;

/// The most bytes that a component of a path has, as `NAME_MAX` of pathconf(2).
const NAME_MAX: usize = 255;

/// Why bytes became no path.
#[derive(Clone, Copy, Debug, PartialEq, Eq, Error)]
pub enum PathFault {
    /// The bytes are no path.
    #[error("a path has 1 to 1,023 bytes without a zero byte, and none of its components has over 255")]
    Refused {
        /// Why a call with this path is refused.
        errno: Errno,
    },
    /// There is no memory for the path.
    #[error("no memory is left")]
    NoMemory,
}

/// A path that was read: whether it begins at the root directory, and its components. Contracts see the two as a `Path`.
#[derive(Debug, Drop)]
pub struct PathText {
    absolute: bool,
    parts: Vec<Component>,
}

impl Model for PathText {
    ghost use Rattle.vfs_tree.specs.Paths.{Path};

    ghost Value = { Path };

    ghost view = { λ p. record { absolute = p.absolute; parts = p.parts.items } };
}

impl PathText {
    /// Whether the path begins at the root directory.
    pub fn is_absolute(&self) -> bool
        ensures { result ≡ self.now.absolute }
    {
        self.absolute
    }

    /// How many components the path has.
    pub fn len(&self) -> usize
        ensures { result ≡ length self.now.parts }
    {
        self.parts.len()
    }

    /// The component at that place, counted from 0. `None` comes exactly where there is no such place.
    pub fn component(&self, at: usize) -> Option<&Component>
        ensures { option_copied result ≡ slice_get self.now.parts at }
    {
        self.parts.get(at)
    }

    /// The components.
    pub(crate) fn into_parts(self) -> Vec<Component>
        ensures { result.items ≡ self.parts }
    {
        self.parts
    }

    /// The path without its last component, and that component where it is a name.
    pub(crate) fn into_parent(self) -> (PathText, Option<Name>)
        ensures front { result.0 ≡ record { absolute = self.absolute; parts = but_last self.parts } }
        ensures last { result.1 ≡ last_name self.parts }
    {
        let (parts, last) = split_last(self.parts);
        let front = PathText {
            absolute: self.absolute,
            parts,
        };
        (front, last)
    }
}

/// The name that a component is.
fn name_in(component: Component) -> Option<Name>
    ensures { result ≡ last_name (component ∷ []) }
{
    match component {
        Component::Name { name } => Some(name),
        Component::Dot => None,
        Component::DotDot => None,
    }
}

/// All components but the last, and that one where it is a name.
fn split_last(mut parts: Vec<Component>) -> (Vec<Component>, Option<Name>)
    ensures front { result.0.items ≡ but_last parts.items }
    ensures last { result.1 ≡ last_name parts.items }
{
    match parts.pop() {
        Some(component) => (parts, name_in(component)),
        None => (parts, None),
    }
}

/// A copy of a component. The only fault is want of memory.
fn copied(alloc: Global, component: &Component) -> Result<Component, AllocError>
    ensures { IfOk result (λ copy. copy ≡ component.now) }
{
    match component {
        Component::Dot => Ok(Component::Dot),
        Component::DotDot => Ok(Component::DotDot),
        Component::Name { name } => Ok(Component::Name {
            name: name.duplicate(alloc)?,
        }),
    }
}

/// Copies of components. The only fault is want of memory.
fn copies(alloc: Global, parts: &[Component]) -> Result<Vec<Component>, AllocError>
    ensures { IfOk result (λ copies. copies.items ≡ parts.now) }
{
    let mut copies = Vec::new(alloc);
    for part in parts {
        copies.push(copied(alloc, part)?)?;
    }
    Ok(copies)
}

impl Duplicate for PathText {
    fn duplicate(&self, alloc: Global) -> Result<Self, AllocError> {
        Ok(PathText {
            absolute: self.absolute,
            parts: copies(alloc, self.parts.as_slice())?,
        })
    }
}

fn has_zero(bytes: &[u8]) -> bool
    ensures { result ≡ has_zero bytes.now }
{
    bytes.iter().any(|b| *b == 0)
}

/// Whether a part between slashes has over 255 bytes.
fn has_long_part(bytes: &[u8]) -> bool
    ensures { result ≡ list_any (λ part. nat_lt 255 (length part)) (slice_split (λ b. b == 47) bytes.now) }
{
    bytes
        .split(|b| *b == b'/')
        .any(|part| NAME_MAX < part.len())
}

fn is_too_long(bytes: &[u8]) -> bool
    ensures { result ≡ is_too_long bytes.now }
{
    PATH_MAX < bytes.len() || has_long_part(bytes)
}

/// The parts of the bytes between slashes.
fn cut(alloc: Global, bytes: &[u8]) -> Result<Vec<&[u8]>, AllocError>
    ensures { IfOk result (λ v. map (λ part. part.now) v.items ≡ slice_split (λ b. b == 47) bytes.now) }
{
    bytes.split(|b| *b == b'/').collect(alloc)
}

/// The component that a part spells.
fn component(alloc: Global, part: &[u8]) -> Result<Component, AllocError>
    requires some { 0 < length part.now }
    requires lawful { is_part part.now ≡ true }
    ensures { IfOk result (λ component. component ≡ component_of part.now) }
{
    if part == b".".as_slice() {
        return Ok(Component::Dot);
    }
    if part == b"..".as_slice() {
        return Ok(Component::DotDot);
    }
    match Name::new(alloc, part) {
        Ok(name) => Ok(Component::Name { name }),
        Err(NameFault::Bad) => unreachable!(),
        Err(NameFault::NoMemory) => Err(AllocError),
    }
}

/// The components of a path that is not too long and has no zero byte.
fn read_parts(alloc: Global, bytes: &[u8]) -> Result<Vec<Component>, AllocError>
    requires no_zero { has_zero bytes.now ≡ false }
    requires short { is_too_long bytes.now ≡ false }
    ensures { IfOk result (λ parts. parts.items ≡ map component_of (components bytes.now)) }
{
    let cut = cut(alloc, bytes)?;
    let mut parts = Vec::new(alloc);
    for at in 0..cut.len() {
        let part = cut[at];
        if !part.is_empty() {
            parts.push(component(alloc, part)?)?;
        }
    }
    Ok(parts)
}

/// The path that the bytes spell, as a caller passes one to a file call. It begins at the root directory where its first
/// byte is a slash, and its components are its parts between slashes that aren't empty.
///
/// `Refused` has ENOENT where there is no byte, else EINVAL where a zero byte is among them, else ENAMETOOLONG where there
/// are over 1,023 bytes or a component has over 255.
pub fn parse_path(alloc: Global, bytes: &[u8]) -> Result<PathText, PathFault>
    ensures path { IfOk result (λ path. parse {W = Need} bytes.now ≡ Go path) }
    ensures refused { (e : Errno) → (result ≡ Err (PathFault.Refused e)) ↔ (parse {W = Need} bytes.now ≡ Refuse e) }
{
    if bytes.is_empty() {
        return Err(PathFault::Refused {
            errno: Errno::ENOENT,
        });
    }
    if has_zero(bytes) {
        return Err(PathFault::Refused {
            errno: Errno::EINVAL,
        });
    }
    if is_too_long(bytes) {
        return Err(PathFault::Refused {
            errno: Errno::ENAMETOOLONG,
        });
    }
    let absolute = bytes[0] == b'/';
    match read_parts(alloc, bytes) {
        Ok(parts) => Ok(PathText { absolute, parts }),
        Err(_) => Err(PathFault::NoMemory),
    }
}

/// The path that the bytes spell, as a step of a walk. The only fault is want of memory.
pub(crate) fn read(alloc: Global, bytes: &[u8]) -> Result<Step<PathText, Need>, AllocError>
    ensures { IfOk result (λ step. step ≡ parse bytes.now) }
{
    match parse_path(alloc, bytes) {
        Ok(path) => Ok(Step::Go { value: path }),
        Err(PathFault::Refused { errno }) => Ok(Step::Refuse { errno }),
        Err(PathFault::NoMemory) => Err(AllocError),
    }
}
