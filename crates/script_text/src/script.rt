ghost use Rattle.std.specs.Prelude.{◌≡◌, ◌↔◌, [], length, IsTrue};

use call_model::Line;
use std::marker::Model;
use vfs_tree::Limits;

/// Lines in a row. Contracts see their list.
#[derive(Debug, Drop)]
pub struct Lines {
    lines: Vec<Line>,
}

impl Model for Lines {
    ghost use Rattle.std.specs.Prelude.{List};
    ghost use Rattle.call_model.specs.declared.call.Line.{Line};

    ghost Value = { List Line };

    ghost view = { λ l. l.lines.items };
}

impl Lines {
    /// These lines, in this order.
    pub fn of(lines: Vec<Line>) -> Lines
        ensures { result ≡ lines.items }
    {
        Lines { lines }
    }

    /// How many lines there are.
    pub fn len(&self) -> usize
        ensures { result ≡ length self.now }
    {
        self.lines.len()
    }

    /// Whether there is no line.
    pub fn is_empty(&self) -> bool
        ensures { IsTrue result ↔ (self.now ≡ []) }
    {
        self.lines.is_empty()
    }

    /// The lines in their order.
    pub fn as_slice(&self) -> &[Line]
        ensures { result.now ≡ self.now }
    {
        self.lines.as_slice()
    }

    /// The lines in their order, as a vector.
    pub fn into_vec(self) -> Vec<Line>
        ensures { result.items ≡ self }
    {
        self.lines
    }
}

/// Calls of many callers, in the order of their lines, and the limits of the world that they are for.
#[derive(Debug, Drop)]
pub struct Script {
    /// How much the world may hold.
    pub limits: Limits,
    /// The calls.
    pub lines: Lines,
}
