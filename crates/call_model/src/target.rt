use vfs_tree::{Name, Place};

/// What a path that ends with a name leads to.
#[derive(Debug, Drop)]
pub struct Target {
    /// The directory.
    pub dir: Place,
    /// The name.
    pub name: Name,
    /// What stands there.
    pub child: Option<Place>,
}
