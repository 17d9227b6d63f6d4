use op_vector::Vid;

/// How a vnode is locked, as by VOP_LOCK(9).
#[derive(Clone, Copy, Debug, PartialEq, Eq)]
pub enum Mode {
    /// With any number of callers, as LK_SHARED.
    Shared,
    /// Alone, as LK_EXCLUSIVE.
    Exclusive,
}

/// What became of a wish for locks.
#[derive(Clone, Copy, Debug, PartialEq, Eq)]
pub enum LockAnswer {
    /// The caller holds them all.
    Taken,
    /// The caller holds none, since another holds a wanted vnode in conflict.
    Held {
        /// The wanted vnode.
        vid: Vid,
        /// The caller that holds it.
        by: u32,
    },
}
