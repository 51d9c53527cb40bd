//! What lies beyond a gate: a flood over the gates that may follow it.

ghost use Rattle.std.specs.Prelude.{◌≡◌, ◌+◌, ◌<◌, ◌↔◌, ℕ, List, Contains, IfOk, OnOk, length};
ghost use Rattle.gate_floods.specs.declared.gate_masks.gate.Gate.{Gate};
ghost use Rattle.gate_floods.specs.GateMasks.Gates.{AreGatesIndexed};
ghost use Rattle.gate_floods.specs.GateMasks.Flood.{AreWaysOn, IsFlood, IsQueued, IsFloodStep, LiesBeyond};
ghost use Rattle.gate_floods.specs.GateMasks.Words.{HasBit};

use crate::gate_masks::following::may_follow;
use crate::gate_masks::gate::Gate;
use crate::gate_masks::gates::Gates;
use crate::gate_masks::words::has_bit;
use sight_names::Memory;
use std::alloc::Global;

/// The sectors that a flood has come to: a mark for each, and the marked ones in the order in which they were reached.
#[derive(Drop)]
pub struct Flood {
    pub marks: Vec<bool>,
    pub queue: Vec<u16>,
}

impl Flood {
    /// Takes a sector in that isn't marked.
    fn put(&mut self, sector: u16) -> Result<(), Memory>
        requires { sector < length self.old.marks.items }
        ensures { OnOk result (IsQueued sector self.old.marks.items self.old.queue.items self.new.marks.items self.new.queue.items) }
    {
        self.marks[sector as usize] = true;
        self.queue.push(sector)?;
        Ok(())
    }

    /// Takes the sector behind the next gate in, if that one may follow and the sector isn't marked.
    fn step(&mut self, gate: Gate, next: Gate) -> Result<(), Memory>
        requires { next.far < length self.old.marks.items }
        ensures { OnOk result (IsFloodStep gate next self.old.marks.items self.old.queue.items self.new.marks.items self.new.queue.items) }
    {
        if self.marks[next.far as usize] {
            return Ok(());
        }
        if !may_follow(gate, next) {
            return Ok(());
        }
        self.put(next.far)?;
        Ok(())
    }

    /// Goes on from the sector at this place of the queue, if that is one of those seen.
    fn settle(&mut self, gates: &Gates, gate: Gate, seen: &[u64], head: usize) -> Result<(), Memory>
        requires indexed { AreGatesIndexed gates.now }
        requires len { length self.old.marks.items ≡ gates.now.sectors }
        requires head { head < length self.old.queue.items }
        requires flood { IsFlood gates.now.gates.items (HasBit seen.now) gate self.old.marks.items self.old.queue.items head }
        ensures len { OnOk result (length self.new.marks.items ≡ length self.old.marks.items) }
        ensures flood { OnOk result (IsFlood gates.now.gates.items (HasBit seen.now) gate self.new.marks.items self.new.queue.items (head + 1)) }
    {
        let sector = self.queue[head];
        for next in ways_on(gates, seen, sector) {
            self.step(gate, *next)?;
        }
        Ok(())
    }
}

/// The gates out of the sector, if it is one of those seen.
fn ways_on<'a>(gates: &'a Gates, seen: &[u64], sector: u16) -> &'a [Gate]
    requires indexed { AreGatesIndexed gates.now }
    requires within { sector < gates.now.sectors }
    ensures { AreWaysOn gates.now.gates.items (HasBit seen.now) sector result.now }
{
    if !has_bit(seen, sector) {
        return &[];
    }
    gates.out_of(sector)
}

/// A flood that has come to the gate's far sector.
fn begun(alloc: Global, sectors: u16, gate: Gate) -> Result<Flood, Memory>
    requires { gate.far < sectors }
    ensures len { IfOk result (λ f. length f.marks.items ≡ sectors) }
    ensures flood { IfOk result (λ f. (es : List Gate) (seen : List ℕ) → IsFlood es (HasBit seen) gate f.marks.items f.queue.items 0) }
{
    let marks = vec![in alloc; false; sectors as usize]?;
    // room for all: so the list isn't moved while it grows
    let queue = Vec::with_capacity(alloc, sectors as usize)?;
    let mut flood = Flood { marks, queue };
    flood.put(gate.far)?;
    Ok(flood)
}

/// The sectors that lie beyond the gate, each once, in the order in which a flood through those seen comes to them.
pub fn beyond(alloc: Global, gates: &Gates, gate: Gate, seen: &[u64]) -> Result<Vec<u16>, Memory>
    requires indexed { AreGatesIndexed gates.now }
    requires far { gate.far < gates.now.sectors }
    ensures within { IfOk result (λ v. (c : ℕ) → Contains v.items c → c < gates.now.sectors) }
    ensures beyond { IfOk result (λ v. (c : ℕ) → Contains v.items c ↔ LiesBeyond gates.now.gates.items (HasBit seen.now) gate c) }
{
    let mut flood = begun(alloc, gates.sectors, gate)?;
    let mut head = 0;
    while head < flood.queue.len() {
        flood.settle(gates, gate, seen, head)?;
        head += 1;
    }
    Ok(flood.queue)
}
