use crate::errno::Errno;
use crate::name::Name;
use crate::place::Place;

/// A node of a memory file system: the one on which a place rests.
#[derive(Clone, Copy, Debug, PartialEq, Eq)]
pub struct NodeId {
    /// The mount number of the memory file system.
    pub store: u32,
    /// The inode number.
    pub ino: u32,
}

/// A component of a path.
#[derive(Debug, Drop)]
pub enum Component {
    /// `.`, the directory itself.
    Dot,
    /// `..`, its parent.
    DotDot,
    /// A name in it.
    Name {
        /// That name.
        name: Name,
    },
}

/// What a walk does with the last component of a path.
#[derive(Clone, Copy, Debug, PartialEq, Eq)]
pub enum Leaf {
    /// A link is followed.
    Follow,
    /// A link is the answer.
    NoFollow,
    /// The answer is the directory, the name and what stands there.
    Parent,
    /// As `Follow`, but a name that is absent is an answer too.
    Create,
    /// As `Follow`, but the answer is the mount whose root is found, also one that is cut.
    Mount,
}

/// A shadow directory that has to be made before a walk can go on: a union shows a directory that its lower layer alone
/// has.
#[derive(Debug, Drop)]
pub struct Need {
    /// The number of the union mount.
    pub mount: u32,
    /// The inode number of the union directory, in the upper layer's store.
    pub dir: u32,
    /// The name of the directory.
    pub name: Name,
}

/// What a directory has at a name.
#[derive(Debug, Drop)]
pub enum Child {
    /// A file, a link or a directory.
    At {
        /// Its place.
        place: Place,
    },
    /// Nothing.
    Absent,
    /// A directory of the lower layer alone, which needs its shadow first.
    Need {
        /// That shadow directory.
        need: Need,
    },
}

/// How far a call came: it goes on with a value, is refused, or needs something else first.
#[derive(Debug, Drop)]
pub enum Step<T, W> {
    /// It goes on.
    Go {
        /// What was found or made.
        value: T,
    },
    /// It is refused.
    Refuse {
        /// Why.
        errno: Errno,
    },
    /// It needs something else first.
    Wants {
        /// What it needs.
        what: W,
    },
}

/// What a walk finds.
#[derive(Debug, Drop)]
pub enum Found {
    /// A file, a link or a directory.
    At {
        /// Its place.
        place: Place,
    },
    /// A name in a directory.
    In {
        /// The directory.
        dir: Place,
        /// The name.
        name: Name,
        /// What stands there.
        child: Option<Place>,
    },
    /// A directory, where the path ends with no name.
    Dot {
        /// The directory.
        dir: Place,
    },
    /// A mount.
    Mount {
        /// Its number.
        number: u32,
    },
    /// The walk is refused.
    Refused {
        /// Why.
        errno: Errno,
    },
    /// The walk needs a shadow directory first.
    Need {
        /// That shadow directory.
        need: Need,
    },
}
