//! The kept segments.

ghost use Rattle.std.specs.Prelude.{◌≡◌, map};
ghost use Rattle.triangulate.specs.IncidentSegments.Kept.{edge_of};

use std::marker::Model;

/// A segment between two points of the map, by their numbers.
#[derive(Clone, Copy)]
pub struct Segment {
    pub from: u16,
    pub to: u16,
}

/// Segments in the order in which they were kept; a contract sees the list of them as edges between point numbers.
#[derive(Drop)]
pub struct Segments {
    segments: Vec<Segment>,
}

impl Model for Segments {
    ghost use Rattle.std.specs.Prelude.{List, map};
    ghost use Rattle.sight_names.specs.Points.{Edge};
    ghost use Rattle.triangulate.specs.IncidentSegments.Kept.{edge_of};

    ghost Value = { List Edge };

    ghost view = { λ s. map edge_of s.segments.items };
}

impl Segments {
    /// These segments.
    pub fn of(segments: Vec<Segment>) -> Segments
        ensures { result ≡ map edge_of segments.items }
    {
        Segments { segments }
    }

    /// The segments in order.
    pub fn as_slice(&self) -> &[Segment]
        ensures { map edge_of result.now ≡ self.now }
    {
        self.segments.as_slice()
    }
}
