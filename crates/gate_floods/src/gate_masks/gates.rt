//! The gates of a map by the sectors that they lead out of.

ghost use Rattle.std.specs.Prelude.{◌≡◌, ◌+◌, ◌<◌, ◌≤◌, IfOk, OnOk, length, slice_range};
ghost use Rattle.std.specs.List.Sorted.{IsPermutation, IsNonDecreasingBy};
ghost use Rattle.sight_names.specs.Map.{map_of};
ghost use Rattle.gate_floods.specs.declared.gate_masks.gate.Gate.{Gate};
ghost use Rattle.gate_floods.specs.GateMasks.Gates.{IsGateAdded, AreGates, AreGatesFrom, AreGateStarts, AreGatesIndexed, IsGateStart};

use crate::gate_masks::gate::{Gate, gate_at};
use sight_names::{Memory, Plan, Side};
use std::alloc::Global;

/// The gates in the order of the sectors that they lead out of.
#[derive(Drop)]
pub struct Gates {
    pub sectors: u16,
    pub gates: Vec<Gate>,
    /// For each sector the place of its first gate, and one more number behind the last.
    pub starts: Vec<usize>,
}

/// Adds the gate, if there is one.
fn add_gate(gates: &mut Vec<Gate>, gate: Option<Gate>) -> Result<(), Memory>
    ensures { OnOk result (IsGateAdded gate gates.old.items gates.new.items) }
{
    if let Some(gate) = gate {
        gates.push(gate)?;
    }
    Ok(())
}

/// The gates at all sides, in record order.
fn gates_of(alloc: Global, plan: &Plan) -> Result<Vec<Gate>, Memory>
    ensures { IfOk result (λ v. AreGates (map_of plan.now) v.items) }
{
    let mut gates = Vec::new(alloc);
    for k in 0..plan.lines().len() {
        let line = k as u16;
        let right = gate_at(plan, Side { line, left: false });
        add_gate(&mut gates, right)?;
        let left = gate_at(plan, Side { line, left: true });
        add_gate(&mut gates, left)?;
    }
    Ok(gates)
}

/// The gates in the order of the sectors that they lead out of.
fn in_order(mut gates: Vec<Gate>) -> Result<Vec<Gate>, Memory>
    ensures same { IfOk result (λ v. IsPermutation gates.items v.items) }
    ensures order { IfOk result (λ v. IsNonDecreasingBy (λ (e : Gate). e.near) v.items) }
{
    gates.sort_by_key(|gate| gate.near)?;
    Ok(gates)
}

/// The place of the first gate out of this sector or a later one.
fn start_of(gates: &[Gate], sector: u32) -> usize
    requires { IsNonDecreasingBy (λ (e : Gate). e.near) gates.now }
    ensures { IsGateStart gates.now sector result }
{
    gates.partition_point(|gate| (gate.near as u32) < sector)
}

/// The starts of all sectors.
fn starts_of(alloc: Global, gates: &[Gate], sectors: u16) -> Result<Vec<usize>, Memory>
    requires { IsNonDecreasingBy (λ (e : Gate). e.near) gates.now }
    ensures len { IfOk result (λ v. length v.items ≡ sectors + 1) }
    ensures starts { IfOk result (λ v. AreGateStarts gates.now v.items) }
{
    let mut starts = Vec::new(alloc);
    for sector in 0..sectors as u32 + 1 {
        starts.push(start_of(gates, sector))?;
    }
    Ok(starts)
}

/// The gates from one place up to another.
fn between(gates: &[Gate], start: usize, end: usize) -> &[Gate]
    requires order { start ≤ end }
    requires within { end ≤ length gates.now }
    ensures { result.now ≡ slice_range gates.now start end }
{
    &gates[start..end]
}

impl Gates {
    /// The gates of the plan.
    pub fn of(alloc: Global, plan: &Plan) -> Result<Gates, Memory>
        ensures indexed { IfOk result AreGatesIndexed }
        ensures sectors { IfOk result (λ gs. gs.sectors ≡ plan.now.sectors) }
        ensures gates { IfOk result (λ gs. AreGates (map_of plan.now) gs.gates.items) }
    {
        let gates = in_order(gates_of(alloc, plan)?)?;
        let starts = starts_of(alloc, &gates, plan.sectors)?;
        Ok(Gates {
            sectors: plan.sectors,
            gates,
            starts,
        })
    }

    /// The gates out of this sector.
    pub fn out_of(&self, sector: u16) -> &[Gate]
        requires indexed { AreGatesIndexed self.now }
        requires within { sector < self.now.sectors }
        ensures { AreGatesFrom self.now.gates.items sector result.now }
    {
        let start = self.starts[sector as usize];
        let end = self.starts[sector as usize + 1];
        between(&self.gates, start, end)
    }
}
