ghost use Rattle.std.specs.Prelude.{◌≡◌, ◌++◌, OnOk};
ghost use Rattle.vfs_tree.specs.Walk.{is_last};
ghost use Rattle.vfs_paths.specs.Going.{Popped};

use crate::path::PathText;
use std::alloc::AllocError;
use std::marker::Model;
use vfs_tree::Component;

/// The components of a walk that are left. Contracts see their list, the next one first.
///
/// They lie in a vector with the next one last, so that taking one and putting a link's before the rest move none of the
/// others.
#[derive(Debug, Drop)]
pub struct Rest {
    components: Vec<Component>,
}

impl Model for Rest {
    ghost use Rattle.std.specs.Prelude.{List, reverse};
    ghost use Rattle.vfs_tree.specs.declared.walk.Component.{Component};

    ghost Value = { List Component };

    ghost view = { λ r. reverse r.components.items };
}

impl Rest {
    /// The components of a path.
    pub fn of(path: PathText) -> Rest
        ensures { result ≡ path.parts }
    {
        let mut components = path.into_parts();
        components.reverse();
        Rest { components }
    }

    /// Whether no component is left, so that the one before was the last.
    pub fn is_last(&self) -> bool
        ensures { result ≡ is_last self.now }
    {
        self.components.is_empty()
    }

    /// Takes the next component.
    pub fn pop(&mut self) -> Option<Component>
        ensures { Popped result self.new self.old }
    {
        self.components.pop()
    }

    /// Puts the components of a path before the rest. The only fault is want of memory.
    pub fn put_before(&mut self, path: PathText) -> Result<(), AllocError>
        ensures { OnOk result (self.new ≡ path.parts ++ self.old) }
    {
        let mut parts = path.into_parts();
        while let Some(component) = parts.pop() {
            self.components.push(component)?;
        }
        Ok(())
    }
}
