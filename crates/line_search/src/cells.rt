//! The half-edges of a mesh as a search for lines of sight reads them. Nothing is proved of them.

use gate_floods::gate_masks::gate::Gate;
use mesh_shape::Mesh;
use mesh_shape::half_edges::{HalfEdge, HalfEdges};
use sight_names::{Memory, Plan, Pt};
use std::alloc::Global;

/// Stands for no half-edge and for no gate: so a cell takes few bytes, and many are close to each other.
pub const NONE: u32 = 4_294_967_295;

/// A way out of a triangle: the half-edge behind it, the gate that it is, and the group behind that.
#[derive(Clone, Copy)]
pub struct Way {
    pub edge: u32,
    pub gate: u32,
    pub far: u16,
}

/// A half-edge: the gate that it is, the group behind that, the third point of its triangle, and the two ways out.
#[derive(Clone, Copy)]
pub struct Cell {
    pub gate: u32,
    pub far: u16,
    pub apex: Pt,
    pub left: Way,
    pub right: Way,
}

/// A cell for each half-edge, and for each gate its half-edge and the one by which one comes back.
#[derive(Drop)]
pub struct Cells {
    pub cells: Vec<Cell>,
    pub doors: Vec<u32>,
    pub backs: Vec<u32>,
}

/// The number in 32 bits; none that doesn't fit is met.
pub fn short(number: usize) -> u32 {
    match u32::try_from(number) {
        Ok(value) => value,
        Err(_) => NONE,
    }
}

/// The number at this place.
fn number_at(numbers: &[u32], place: u32) -> u32 {
    match numbers.get(place as usize) {
        Some(number) => *number,
        None => NONE,
    }
}

/// The group behind the gate with this number.
fn far_of(gates: &[Gate], number: u32) -> u16 {
    match gates.get(number as usize) {
        Some(gate) => gate.far,
        None => 0,
    }
}

/// The point with this number.
fn point_at(plan: &Plan, number: u16) -> Pt {
    match plan.points().get(number as usize) {
        Some(at) => *at,
        None => Pt { x: 0, y: 0 },
    }
}

/// The way to this half-edge, by the gates of all half-edges.
fn way_to(gates: &[Gate], numbers: &[u32], edge: Option<u32>) -> Way {
    match edge {
        Some(edge) => {
            let gate = number_at(numbers, edge);
            Way {
                edge,
                gate,
                far: far_of(gates, gate),
            }
        }
        None => Way {
            edge: NONE,
            gate: NONE,
            far: 0,
        },
    }
}

/// The cell of a half-edge that is this gate, if it is one.
fn cell_of(plan: &Plan, gates: &[Gate], numbers: &[u32], edge: &HalfEdge, gate: u32) -> Cell {
    Cell {
        gate,
        far: far_of(gates, gate),
        apex: point_at(plan, edge.apex),
        left: way_to(gates, numbers, edge.left_way),
        right: way_to(gates, numbers, edge.right_way),
    }
}

/// The half-edge, if it is there.
fn number_of(edge: Option<u32>) -> u32 {
    match edge {
        Some(number) => number,
        None => NONE,
    }
}

/// For each gate the half-edge by which one comes in at it.
fn doors_of(
    alloc: Global,
    mesh: &Mesh,
    edges: &HalfEdges,
    gates: &[Gate],
) -> Result<Vec<u32>, Memory> {
    let mut doors = Vec::new(alloc);
    for gate in gates {
        doors.push(number_of(edges.entering(mesh, gate.left, gate.right)))?;
    }
    Ok(doors)
}

/// For each gate the half-edge by which one comes back through it.
fn backs_of(
    alloc: Global,
    mesh: &Mesh,
    edges: &HalfEdges,
    gates: &[Gate],
) -> Result<Vec<u32>, Memory> {
    let mut backs = Vec::new(alloc);
    for gate in gates {
        backs.push(number_of(edges.entering(mesh, gate.right, gate.left)))?;
    }
    Ok(backs)
}

/// For each of so many half-edges the gate that it is.
fn numbers_of(alloc: Global, count: usize, doors: &[u32]) -> Result<Vec<u32>, Memory> {
    let mut numbers = vec![in alloc; NONE; count]?;
    for (number, door) in doors.iter().enumerate() {
        let place = *door as usize;
        if place < numbers.len() {
            numbers[place] = short(number);
        }
    }
    Ok(numbers)
}

impl Cells {
    /// The cells of a mesh.
    pub fn of(
        alloc: Global,
        plan: &Plan,
        mesh: &Mesh,
        edges: &HalfEdges,
        gates: &[Gate],
    ) -> Result<Cells, Memory> {
        let doors = doors_of(alloc, mesh, edges, gates)?;
        let numbers = numbers_of(alloc, edges.len(), doors.as_slice())?;
        let mut cells = Vec::with_capacity(alloc, numbers.len())?;
        for number in numbers.as_slice() {
            if let Some(edge) = edges.get(short(cells.len())) {
                cells.push(cell_of(plan, gates, numbers.as_slice(), edge, *number))?;
            }
        }
        let backs = backs_of(alloc, mesh, edges, gates)?;
        Ok(Cells {
            cells,
            doors,
            backs,
        })
    }
}
