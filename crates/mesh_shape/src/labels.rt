//! The labels of triangles.

ghost use Rattle.std.specs.Prelude.{◌≡◌, ◌<◌, length};
ghost use Rattle.sight_names.specs.Mesh.{label_of};

use std::marker::Model;

/// The sector of each triangle of a mesh, None where it has none; a contract sees the list of them.
#[derive(Drop)]
pub struct Labels {
    labels: Vec<Option<u16>>,
}

impl Model for Labels {
    ghost use Rattle.std.specs.Prelude.{List, ℕ, Option};

    ghost Value = { List (Option ℕ) };

    ghost view = { λ s. s.labels.items };
}

impl Labels {
    /// These labels.
    pub fn of(list: Vec<Option<u16>>) -> Labels
        ensures { result ≡ list.items }
    {
        Labels { labels: list }
    }

    /// The label at this place.
    pub fn get(&self, triangle: u16) -> Option<u16>
        requires { triangle < length self.now }
        ensures { result ≡ label_of self.now triangle }
    {
        self.labels[triangle as usize]
    }

    /// All labels, in the order of the triangles.
    pub fn as_slice(&self) -> &[Option<u16>]
        ensures { result.now ≡ self.now }
    {
        self.labels.as_slice()
    }
}
