//! Which sides of lines the directed edges of triangles are.

ghost use Rattle.std.specs.Prelude.{◌≡◌, IfOk};
ghost use Rattle.sight_names.specs.Map.{map_of};
ghost use Rattle.mesh_shape.specs.HalfEdges.Numbers.{edge, corner_of as corner_from, half_edge_number as number_at};
ghost use Rattle.map_faults.specs.EdgeSides.{AreEdgeSides, PutsLineSides, PutsRecordSides, PutsSide, side_by};

use mesh_shape::Mesh;
use sight_names::{Line, Memory, Plan, Side, Triangle};
use std::alloc::Global;

/// Which of the triangle's directed edges begins at this point.
fn corner_of(t: Triangle, from: u16, to: u16) -> u16
    ensures { result ≡ corner_from (edge from to) t }
{
    if t.p == from {
        0
    } else if t.q == from {
        1
    } else {
        2
    }
}

/// The number of the directed edge, three for each triangle.
fn number_of(mesh: &Mesh, from: u16, to: u16) -> Option<u32>
    ensures { result ≡ number_at mesh.now.triangles (edge from to) }
{
    let triangle = mesh.triangle_at(from, to)?;
    let corners = mesh.triangles().get(triangle as usize)?;
    Some(triangle as u32 * 3 + corner_of(*corners, from, to) as u32)
}

/// Writes the side at this number, where there is one.
fn put_side(sides: &mut [Option<Side>], number: Option<u32>, side: Side)
    ensures { PutsSide number side sides.old sides.new }
{
    let Some(number) = number else {
        return;
    };
    if (number as usize) < sides.len() {
        sides[number as usize] = Some(side);
    }
}

/// The same for both sides of the line with this record number.
fn put_line(mesh: &Mesh, sides: &mut [Option<Side>], number: u16, line: Line)
    ensures { PutsLineSides mesh.now.triangles number line sides.old sides.new }
{
    let left = Side {
        line: number,
        left: true,
    };
    put_side(sides, number_of(mesh, line.a, line.b), left);
    let right = Side {
        line: number,
        left: false,
    };
    put_side(sides, number_of(mesh, line.b, line.a), right);
}

/// The same where the record has a line.
fn put_record(mesh: &Mesh, sides: &mut [Option<Side>], number: u16, entry: Option<Line>)
    ensures { PutsRecordSides mesh.now.triangles number entry sides.old sides.new }
{
    if let Some(line) = entry {
        put_line(mesh, sides, number, line);
    }
}

/// For each directed edge of a triangle the side of a line that it is.
pub fn edge_sides_of(alloc: Global, plan: &Plan, mesh: &Mesh) -> Result<Vec<Option<Side>>, Memory>
    ensures { IfOk result (λ v. AreEdgeSides (map_of plan.now) mesh.now.triangles v.items) }
{
    let mut sides = vec![in alloc; None; mesh.triangles().len() * 3]?;
    for (number, entry) in plan.lines().iter().enumerate() {
        put_record(mesh, sides.as_mut_slice(), number as u16, *entry);
    }
    Ok(sides)
}

/// The side of a line that the directed edge is.
pub fn side_on(mesh: &Mesh, sides: &[Option<Side>], from: u16, to: u16) -> Option<Side>
    ensures { result ≡ side_by mesh.now.triangles sides.now (edge from to) }
{
    let number = number_of(mesh, from, to)?;
    *sides.get(number as usize)?
}
