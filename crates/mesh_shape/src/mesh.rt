//! The triangles of a mesh, with an index that finds the triangle at a directed edge by a short search.

ghost use Rattle.std.specs.Prelude.{◌≡◌, ◌<◌, ◌≤◌, IfOk, vec_len, length, EachIndex, slice_index};
ghost use Rattle.mesh_shape.specs.Index.{AreTrianglesIndexed, IsCornerPut, entry_at};
ghost use Rattle.sight_names.specs.Mesh.{AreTriangles, IsTriangle, has_edge as has_edge_of, triangle_at as triangle_of};
ghost use Rattle.sight_names.specs.Sequence.{apex as apex_of, third_point as third_of};

use sight_names::{MOST_TRIANGLES, Memory, Triangle};
use std::alloc::Global;
use std::marker::Model;

/// For each corner of a triangle, the next triangle that has this corner; the number of triangles where there is none.
#[derive(Clone, Copy)]
struct Next {
    p: u16,
    q: u16,
    r: u16,
}

/// Triangles between so many points; a contract sees the number of points and the sorted list of triangles.
#[derive(Drop)]
pub struct Mesh {
    points: u16,
    triangles: Vec<Triangle>,
    first: Vec<u16>,
    later: Vec<Next>,
}

impl Model for Mesh {
    ghost use Rattle.mesh_shape.specs.Shape.{MeshParts};
    ghost use Rattle.mesh_shape.specs.Index.{AreTrianglesIndexed};

    ghost Value = { MeshParts };

    ghost view = { λ m. record { points = m.points; triangles = m.triangles.items } };

    ghost invariant = { λ m. AreTrianglesIndexed m.points m.triangles.items m.first.items m.later.items };
}

/// Whether the triangle has the directed edge from `u` to `v`.
fn has_edge(t: Triangle, u: u16, v: u16) -> bool
    ensures { result ≡ has_edge_of (record { from = u; to = v }) t }
{
    (t.p == u && t.q == v) || (t.q == u && t.r == v) || (t.r == u && t.p == v)
}

/// The third point of a triangle that has the directed edge from `u` to `v`.
fn third_point(t: Triangle, u: u16, v: u16) -> u16
    ensures { result ≡ third_of (record { from = u; to = v }) t }
{
    if t.p == u && t.q == v {
        t.r
    } else if t.q == u && t.r == v {
        t.p
    } else {
        t.q
    }
}

/// The next triangle with the corner `u`, of one that has it.
fn next_around(t: Triangle, next: Next, u: u16) -> u16
    ensures { result ≡ entry_at u t next }
{
    if t.p == u {
        next.p
    } else if t.q == u {
        next.q
    } else {
        next.r
    }
}

/// Writes `k` at each corner of the triangle.
fn put(first: &mut [u16], t: Triangle, k: u16)
    requires triangle { IsTriangle (length first.old) t }
    ensures { IsCornerPut t k first.old first.new }
{
    first[t.p as usize] = k;
    first[t.q as usize] = k;
    first[t.r as usize] = k;
}

/// Enters the triangles into the index, from the last one back.
fn index(triangles: &[Triangle], first: &mut [u16], later: &mut [Next])
    requires triangles { AreTriangles (length first.old) triangles.now }
    requires few { length triangles.now ≤ MOST_TRIANGLES }
    requires each_triangle { length later.old ≡ length triangles.now }
    requires empty { EachIndex first.old (λ u. slice_index first.old u ≡ length triangles.now) }
    ensures { AreTrianglesIndexed (length first.old) triangles.now first.new later.new }
{
    let mut k = triangles.len();
    while k > 0 {
        k -= 1;
        let t = triangles[k];
        later[k] = Next {
            p: first[t.p as usize],
            q: first[t.q as usize],
            r: first[t.r as usize],
        };
        put(first, t, k as u16);
    }
}

impl Mesh {
    /// The triangles at their places; for each point and each corner the index is made from the last triangle back.
    pub fn of(alloc: Global, points: u16, triangles: Vec<Triangle>) -> Result<Mesh, Memory>
        requires triangles { AreTriangles points triangles.items }
        requires few { vec_len triangles ≤ MOST_TRIANGLES }
        ensures { IfOk result (λ m. m ≡ record { points = points; triangles = triangles.items }) }
    {
        let count = triangles.len() as u16;
        let none = Next {
            p: count,
            q: count,
            r: count,
        };
        let mut first = vec![in alloc; count; points as usize]?;
        let mut later = vec![in alloc; none; count as usize]?;
        index(
            triangles.as_slice(),
            first.as_mut_slice(),
            later.as_mut_slice(),
        );
        Ok(Mesh {
            points,
            triangles,
            first,
            later,
        })
    }

    /// The number of points that the triangles stand on.
    pub fn points(&self) -> u16
        ensures { result ≡ self.now.points }
    {
        self.points
    }

    /// The triangles, in order.
    pub fn triangles(&self) -> &[Triangle]
        ensures list { result.now ≡ self.now.triangles }
        ensures triangles { AreTriangles self.now.points self.now.triangles }
        ensures few { length self.now.triangles ≤ MOST_TRIANGLES }
    {
        self.triangles.as_slice()
    }

    /// The least triangle with the directed edge from `u` to `v`.
    pub fn triangle_at(&self, u: u16, v: u16) -> Option<u16>
        ensures { result ≡ triangle_of self.now.triangles (record { from = u; to = v }) }
    {
        if u >= self.points {
            return None;
        }
        let mut at = self.first[u as usize];
        while (at as usize) < self.triangles.len() {
            let t = self.triangles[at as usize];
            if has_edge(t, u, v) {
                return Some(at);
            }
            at = next_around(t, self.later[at as usize], u);
        }
        None
    }

    /// The third point of the least triangle with the directed edge from `u` to `v`.
    pub fn apex(&self, u: u16, v: u16) -> Option<u16>
        ensures { result ≡ apex_of self.now.triangles (record { left = u; right = v }) }
    {
        let at = self.triangle_at(u, v)?;
        Some(third_point(self.triangles[at as usize], u, v))
    }
}
