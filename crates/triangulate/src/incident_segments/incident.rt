//! The kept segments, and at each point the chain of the segments that end there, from the latest back.

ghost use Rattle.std.specs.Prelude.{◌≡◌, ◌≢◌, ◌+◌, ◌<◌, [], ◌∷◌, ◌++◌, IfOk, OnOk, length, true, slice_index_or};
ghost use Rattle.triangulate.specs.declared.incident_segments.segments.Segment.{Segment};
ghost use Rattle.triangulate.specs.IncidentSegments.Incident.{IsLastAt, AreSegments, has_end, other_end};

use crate::incident_segments::segments::{Segment, Segments};
use sight_names::Memory;
use std::alloc::Global;
use std::marker::Model;

/// For each end of a segment, one past the segment kept last before it that has this end; 0 where there is none.
#[derive(Clone, Copy)]
struct Links {
    from: usize,
    to: usize,
}

/// Segments between points; a contract sees how many points there are, and the segments in order.
#[derive(Drop)]
pub struct IncidentSegments {
    points: u16,
    segments: Vec<Segment>,
    last: Vec<usize>,
    links: Vec<Links>,
}

impl Model for IncidentSegments {
    ghost use Rattle.triangulate.specs.IncidentSegments.Incident.{IncidentParts, AreIncident};

    ghost Value = { IncidentParts };

    ghost view = { λ w. record { points = w.points; segments = w.segments.items } };

    ghost invariant = { λ w. AreIncident w.points w.segments.items w.last.items w.links.items };
}

impl IncidentSegments {
    /// No segment yet.
    pub fn new(alloc: Global, points: u16) -> Result<IncidentSegments, Memory>
        ensures { IfOk result (λ w. w ≡ record { points = points; segments = [] }) }
    {
        Ok(IncidentSegments {
            points,
            segments: Vec::new(alloc),
            last: vec![in alloc; 0usize; points as usize]?,
            links: Vec::new(alloc),
        })
    }

    /// Keeps the segment from `from` to `to`.
    pub fn push(&mut self, from: u16, to: u16) -> Result<(), Memory>
        requires from { from < self.old.points }
        requires to { to < self.old.points }
        requires differ { from ≢ to }
        ensures kept { OnOk result (self.new ≡ record { points = self.old.points; segments = self.old.segments ++ (record { from = from; to = to }) ∷ [] }) }
    {
        let links = Links {
            from: self.last[from as usize],
            to: self.last[to as usize],
        };
        self.segments.push(Segment { from, to })?;
        if let Err(refused) = self.links.push(links) {
            let _ = self.segments.pop();
            return Err(refused.into());
        }
        let count = self.segments.len();
        self.last[from as usize] = count;
        self.last[to as usize] = count;
        Ok(())
    }

    /// How many points there are.
    pub fn points(&self) -> u16
        ensures { result ≡ self.now.points }
    {
        self.points
    }

    /// The segments in order.
    pub fn segments(&self) -> &[Segment]
        ensures list { result.now ≡ self.now.segments }
        ensures each { AreSegments self.now.points self.now.segments }
    {
        self.segments.as_slice()
    }

    /// The kept segments alone.
    pub fn into_segments(self) -> Vec<Segment>
        ensures list { result.items ≡ self.segments }
        ensures each { AreSegments self.points result.items }
    {
        let IncidentSegments {
            points: _,
            segments,
            last: _,
            links: _,
        } = self;
        segments
    }

    /// One past the latest segment at the point, or 0.
    pub fn last(&self, u: u16) -> usize
        requires { u < self.now.points }
        ensures { IsLastAt self.now.segments u (length self.now.segments) result }
    {
        self.last[u as usize]
    }

    /// One past the segment at the point that was kept last before segment `k`, or 0.
    pub fn earlier(&self, k: usize, u: u16) -> usize
        requires here { k < length self.now.segments }
        requires end { (d : Segment) → has_end u (slice_index_or self.now.segments k d) ≡ true }
        ensures { IsLastAt self.now.segments u k result }
    {
        if self.segments[k].from == u {
            self.links[k].from
        } else {
            self.links[k].to
        }
    }

    /// The end of segment `k` that isn't `u`.
    pub fn other(&self, k: usize, u: u16) -> u16
        requires { k < length self.now.segments }
        ensures end { (d : Segment) → result ≡ other_end u (slice_index_or self.now.segments k d) }
        ensures within { result < self.now.points }
        ensures differ { result ≢ u }
    {
        let s = self.segments[k];
        if s.from == u { s.to } else { s.from }
    }
}
