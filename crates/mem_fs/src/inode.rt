// One node, and its edits.
ghost use Rattle.std.specs.Option.{option_copied};
ghost use Rattle.mem_dir.specs.Directory.{white_names};
ghost use Rattle.vfs_tree.specs.Views.{kind_of_node, target_in};
ghost use Rattle.vfs_tree.specs.Visible.{given_names, names_in};
ghost use Rattle.mem_fs.specs.FileSystem.{bytes_in, facts_by};
ghost use Rattle.std.specs.Prelude.{◌≡◌, ◌+◌, ◌-◌, ◌<◌, ◌≤◌, ◌^◌, ◌++◌, ◌∷◌, [], length, take, drop, is_some, IfOk, OnOk, OnErr, IfSome, IfNone, Some, None};
ghost use Rattle.std.specs.FinMap as map;
ghost use Rattle.std.specs.FinMap.{entries};
ghost use Rattle.vfs_tree.specs.Counts.{gives_some};
ghost use Rattle.vfs_tree.specs.Nodes.{entry_in, is_dir_node};
ghost use Rattle.vfs_tree.specs.Edits.{new_dir};
ghost use Rattle.mem_fs.specs.Contents.{shown, name_of, reads_of, reserved_of, HasRoom, IsRoomy, HasRoomTo, put_in, cleared_in, counted_in, made_ready, bared, nameless, placed, written_in, cut_in, reserved_to};
ghost use Rattle.mem_fs.specs.Inodes.{let_go, lost, gained};
ghost use Rattle.mem_fs.specs.NewNodes.{new_node, new_reads, new_reserved, new_name};

use finite_maps::Duplicate;
use mem_dir::Dir;
use mem_file::MemFile;
use std::alloc::{AllocError, Global};
use vfs_tree::{ByteBuffer, Bytes, DirFacts, Kind, Name, NameEntry, Node};

/// What a node is, with what it holds.
#[derive(Debug, Drop)]
pub enum Content {
    /// A directory.
    Dir {
        /// The inode number of its parent directory.
        parent: u32,
        /// Whether a union shows nothing of the lower layer in it.
        opaque: bool,
        /// The name that its parent has for it. The root and a directory that was removed have none.
        name: Option<Name>,
        /// Its names.
        names: Dir,
    },
    /// A regular file.
    File {
        /// Its bytes.
        bytes: MemFile,
    },
    /// A symbolic link.
    Link {
        /// The path that it stands for.
        target: Bytes,
    },
}

/// A node, with the number of the names that give it.
#[derive(Debug, Drop)]
pub struct Inode {
    /// How many names give it.
    pub links: u64,
    /// What it is.
    pub content: Content,
}

/// A node that is to be made.
#[derive(Debug, Drop)]
pub enum NewNode {
    /// A directory, as mkdir(2). It is opaque exactly where a whiteout stood at its name.
    Dir,
    /// A regular file without bytes.
    File,
    /// A symbolic link, as symlink(2).
    Link {
        /// The path that it stands for.
        target: Bytes,
    },
    /// A directory of a union's upper layer that stands for one of the lower layer. It is never opaque.
    Shadow,
    /// A regular file of a union's upper layer with the bytes of one of the lower layer.
    Copy {
        /// The bytes.
        bytes: MemFile,
    },
}

impl Content {
    /// What it has at a name.
    pub fn entry(&self, name: &Name) -> Option<NameEntry>
        ensures { result ≡ entry_in name.now (Some (shown self.now)) }
    {
        match self {
            Content::Dir { names, .. } => names.peek(name),
            Content::File { .. } => None,
            Content::Link { .. } => None,
        }
    }

    /// What it has at a name, as a look-up that is counted.
    pub fn find(&mut self, name: &Name) -> Option<NameEntry>
        ensures found { result ≡ entry_in name.now (Some (shown self.old)) }
        ensures counted { self.new ≡ counted_in self.old }
    {
        match self {
            Content::Dir { names, .. } => names.find(name),
            Content::File { .. } => None,
            Content::Link { .. } => None,
        }
    }

    /// How many records of a directory were read.
    pub fn reads(&self) -> Option<u64>
        ensures count { result ≡ reads_of self.now }
        ensures there { is_some result ≡ is_dir_node (Some (shown self.now)) }
    {
        match self {
            Content::Dir { names, .. } => Some(names.reads()),
            Content::File { .. } => None,
            Content::Link { .. } => None,
        }
    }

    /// Whether it is a directory one of whose names gives a node.
    pub fn gives_some(&self) -> bool
        ensures { result ≡ gives_some (shown self.now) }
    {
        match self {
            Content::Dir { names, .. } => names.gives_some(),
            Content::File { .. } => false,
            Content::Link { .. } => false,
        }
    }

    /// The names of a directory that give an inode, in byte order. The only fault is want of memory.
    pub fn list(&self, alloc: Global) -> Result<Vec<Name>, AllocError>
        ensures { IfOk result (λ names. names.items ≡ given_names (names_in (Some (shown self.now)))) }
    {
        match self {
            Content::Dir { names, .. } => names.list(alloc),
            Content::File { .. } => Ok(Vec::new(alloc)),
            Content::Link { .. } => Ok(Vec::new(alloc)),
        }
    }

    /// The names of a directory that give a whiteout, in byte order. The only fault is want of memory.
    pub fn list_white(&self, alloc: Global) -> Result<Vec<Name>, AllocError>
        ensures { IfOk result (λ names. names.items ≡ white_names (names_in (Some (shown self.now)))) }
    {
        match self {
            Content::Dir { names, .. } => names.list_white(alloc),
            Content::File { .. } => Ok(Vec::new(alloc)),
            Content::Link { .. } => Ok(Vec::new(alloc)),
        }
    }

    /// A copy of it, as a store has it. The only fault is want of memory.
    pub fn copy(&self, alloc: Global) -> Result<Node, AllocError>
        ensures { IfOk result (λ node. node ≡ shown self.now) }
    {
        match self {
            Content::Dir {
                parent,
                opaque,
                names,
                ..
            } => Ok(Node::Dir {
                parent: *parent,
                opaque: *opaque,
                names: names.copy(alloc)?,
            }),
            Content::File { bytes } => Ok(Node::File {
                bytes: copy_bytes(alloc, bytes)?,
            }),
            Content::Link { target } => Ok(Node::Link {
                target: target.duplicate(alloc)?,
            }),
        }
    }

    /// What it is.
    pub fn kind(&self) -> Kind
        ensures { result ≡ kind_of_node (shown self.now) }
    {
        match self {
            Content::Dir { .. } => Kind::Dir,
            Content::File { .. } => Kind::File,
            Content::Link { .. } => Kind::Link,
        }
    }

    /// What is to be known of a directory.
    pub fn facts(&self, linked: bool) -> Option<DirFacts>
        ensures { result ≡ facts_by linked (shown self.now) }
    {
        match self {
            Content::Dir { parent, opaque, .. } => Some(DirFacts {
                parent: *parent,
                opaque: *opaque,
                linked,
            }),
            Content::File { .. } => None,
            Content::Link { .. } => None,
        }
    }

    /// The path that a symbolic link stands for.
    pub fn target(&self) -> Option<&[u8]>
        ensures { option_copied result ≡ target_in (shown self.now) }
    {
        match self {
            Content::Link { target } => Some(target.as_slice()),
            Content::Dir { .. } => None,
            Content::File { .. } => None,
        }
    }

    /// The name that its parent has for a directory.
    pub fn own_name(&self) -> Option<&Name>
        ensures { option_copied result ≡ name_of self.now }
    {
        match self {
            Content::Dir { name, .. } => name.as_ref(),
            Content::File { .. } => None,
            Content::Link { .. } => None,
        }
    }

    /// How many bytes a regular file has.
    pub fn size(&self) -> usize
        ensures size { result ≡ length (bytes_in (Some (shown self.now))) }
        ensures within { IfSome (reserved_of self.now) (λ room. result ≤ room) }
        ensures small { IfSome (reserved_of self.now) (λ room. room ≤ 1048576) }
    {
        match self {
            Content::File { bytes } => bytes.len(),
            Content::Dir { .. } => 0,
            Content::Link { .. } => 0,
        }
    }

    /// Appends the bytes of a regular file from `at` on, at most `most`.
    pub fn read_into(&self, at: usize, most: usize, into: &mut ByteBuffer)
        requires { most ≤ into.old.spare }
        ensures bytes { into.new.bytes ≡ into.old.bytes ++ take most (drop at (bytes_in (Some (shown self.now)))) }
        ensures spare { into.new.spare ≡ into.old.spare - length (take most (drop at (bytes_in (Some (shown self.now))))) }
    {
        match self {
            Content::File { bytes } => bytes.read_into(at, most, into),
            Content::Dir { .. } => (),
            Content::Link { .. } => (),
        }
    }

    /// Makes room for a name. The only fault is want of memory.
    pub fn reserve(&mut self, alloc: Global) -> Result<(), AllocError>
        ensures ok { OnOk result (self.new ≡ made_ready self.old) }
        ensures err { OnErr result (self.new ≡ self.old) }
    {
        match self {
            Content::Dir { names, .. } => names.reserve(alloc),
            Content::File { .. } => Ok(()),
            Content::Link { .. } => Ok(()),
        }
    }

    /// Lets a name of a directory give the entry, without memory.
    pub fn put(&mut self, name: Name, entry: NameEntry)
        requires { HasRoom name self.old }
        ensures { self.new ≡ put_in name entry self.old }
    {
        match self {
            Content::Dir { names, .. } => names.insert(name, entry),
            Content::File { .. } => (),
            Content::Link { .. } => (),
        }
    }

    /// Takes a name of a directory away.
    pub fn clear(&mut self, name: &Name)
        ensures { self.new ≡ cleared_in name.now self.old }
    {
        match self {
            Content::Dir { names, .. } => {
                names.remove(name);
            }
            Content::File { .. } => (),
            Content::Link { .. } => (),
        }
    }

    /// Takes the last name of a directory away, and answers it with what it gave. `None` comes exactly where there is
    /// none.
    pub fn pop_last(&mut self) -> Option<(Name, NameEntry)>
        ensures some { IfSome result (λ pair. entry_in pair.0 (Some (shown self.old)) ≡ Some pair.1) }
        ensures cleared { IfSome result (λ pair. self.new ≡ cleared_in pair.0 self.old) }
        ensures last { IfSome result (λ pair. entries (names_in (Some (shown self.old))) ≡ entries (names_in (Some (shown self.new))) ++ pair ∷ []) }
        ensures none { IfNone result (names_in (Some (shown self.old)) ≡ map.empty) }
        ensures unchanged { IfNone result (self.new ≡ self.old) }
    {
        match self {
            Content::Dir { names, .. } => names.pop_last(),
            Content::File { .. } => None,
            Content::Link { .. } => None,
        }
    }

    /// Takes the name away that its parent had for a directory.
    pub fn forget_name(&mut self)
        ensures { self.new ≡ nameless self.old }
    {
        match self {
            Content::Dir { name, .. } => *name = None,
            Content::File { .. } => (),
            Content::Link { .. } => (),
        }
    }

    /// Takes all names of a directory away, and the one that its parent had for it.
    pub fn bare(&mut self)
        ensures { self.new ≡ bared self.old }
    {
        match self {
            Content::Dir { name, names, .. } => {
                *name = None;
                names.clear();
            }
            Content::File { .. } => (),
            Content::Link { .. } => (),
        }
    }

    /// Gives a directory another parent and the name that it has there, and makes it opaque where that is said.
    pub fn place(&mut self, to: u32, own: Name, hides: bool)
        ensures { self.new ≡ placed to own hides self.old }
    {
        match self {
            Content::Dir {
                parent,
                opaque,
                name,
                ..
            } => {
                *parent = to;
                *opaque = *opaque || hides;
                *name = Some(own);
            }
            Content::File { .. } => (),
            Content::Link { .. } => (),
        }
    }

    /// Puts a piece at an offset of a regular file, without memory.
    pub fn write_at(&mut self, at: usize, piece: &[u8])
        requires { HasRoomTo (at + length piece.now) self.old }
        ensures { self.new ≡ written_in at piece.now self.old }
    {
        match self {
            Content::File { bytes } => bytes.write_at(at, piece),
            Content::Dir { .. } => (),
            Content::Link { .. } => (),
        }
    }

    /// Gives a regular file a length, without memory.
    pub fn cut(&mut self, len: usize)
        requires { HasRoomTo len self.old }
        ensures { self.new ≡ cut_in len self.old }
    {
        match self {
            Content::File { bytes } => bytes.cut(len),
            Content::Dir { .. } => (),
            Content::Link { .. } => (),
        }
    }

    /// Makes room for a regular file of that length. The only fault is want of memory.
    pub fn reserve_to(&mut self, alloc: Global, len: usize) -> Result<(), AllocError>
        requires { len ≤ 1048576 }
        ensures ok { OnOk result (self.new ≡ reserved_to len self.old) }
        ensures err { OnErr result (self.new ≡ self.old) }
    {
        match self {
            Content::File { bytes } => bytes.reserve_to(alloc, len),
            Content::Dir { .. } => Ok(()),
            Content::Link { .. } => Ok(()),
        }
    }
}

impl Inode {
    /// Takes note that one name fewer gives it. A directory loses its names.
    pub fn let_go(&mut self)
        ensures { self.new ≡ let_go self.old }
    {
        self.links = self.links.saturating_sub(1);
        self.content.bare();
    }

    /// Takes note that one name fewer gives it, since that name's directory is dropped. A directory keeps its names.
    pub fn lose(&mut self)
        ensures { self.new ≡ lost self.old }
    {
        self.links = self.links.saturating_sub(1);
        self.content.forget_name();
    }

    /// Takes note that one name more gives it.
    pub fn gain(&mut self)
        requires { self.old.links < 2 ^ 64 - 1 }
        ensures { self.new ≡ gained self.old }
    {
        self.links += 1;
    }
}

/// A copy of the bytes of a regular file. The only fault is want of memory.
fn copy_bytes(alloc: Global, bytes: &MemFile) -> Result<Bytes, AllocError>
    ensures { IfOk result (λ copy. copy ≡ bytes.now.bytes) }
{
    let mut copy = ByteBuffer::new(alloc);
    copy.reserve(bytes.len())?;
    bytes.read_into(0, bytes.len(), &mut copy);
    Ok(copy.into_bytes())
}

/// A directory without names.
fn new_dir(alloc: Global, parent: u32, opaque: bool, name: &Name) -> Result<Content, AllocError>
    ensures shown { IfOk result (λ made. shown made ≡ new_dir parent opaque) }
    ensures reads { IfOk result (λ made. reads_of made ≡ Some 0) }
    ensures reserved { IfOk result (λ made. reserved_of made ≡ None) }
    ensures name { IfOk result (λ made. name_of made ≡ Some name.now) }
{
    Ok(Content::Dir {
        parent,
        opaque,
        name: Some(name.duplicate(alloc)?),
        names: Dir::new(alloc),
    })
}

/// The content of a node that is to be made under a name of a directory. The only fault is want of memory.
pub fn content_of(
    alloc: Global,
    parent: u32,
    name: &Name,
    white: bool,
    node: NewNode,
) -> Result<Content, AllocError>
    ensures shown { IfOk result (λ made. shown made ≡ new_node parent white node) }
    ensures reads { IfOk result (λ made. reads_of made ≡ new_reads node) }
    ensures reserved { IfOk result (λ made. reserved_of made ≡ new_reserved node) }
    ensures name { IfOk result (λ made. name_of made ≡ new_name name.now node) }
{
    match node {
        NewNode::Dir => new_dir(alloc, parent, white, name),
        NewNode::Shadow => new_dir(alloc, parent, false, name),
        NewNode::File => Ok(Content::File {
            bytes: MemFile::new(alloc),
        }),
        NewNode::Link { target } => Ok(Content::Link { target }),
        NewNode::Copy { bytes } => Ok(Content::File { bytes }),
    }
}
