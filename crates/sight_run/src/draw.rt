//! The order `draw`: a picture of a map.

ghost use Rattle.std.specs.Prelude.{◌≡◌, ◌∷◌, [], IfErr, IfOk, List, Ok, ℕ, true, ⊤};
ghost use Rattle.draw_answers.specs.Drawn.{drawn_answer};
ghost use Rattle.map_answers.specs.declared.sight_status.status.Role.TheVariants.{Picture};
ghost use Rattle.map_answers.specs.declared.sight_status.status.Status.TheVariants as status;
ghost use Rattle.map_answers.specs.Input.{lump_at};
ghost use Rattle.map_answers.specs.Views.{IsInputWhole, located_map};
ghost use Rattle.map_answers.specs.SightStatus.Answer.{GivesCalled};
ghost use Rattle.sight_run.specs.Draw.{DrawCalls, HasOneDrawing, HeatOfMap, IsOfDrawing, RowOfMap, ViewCalls, places_of_map};
ghost use Rattle.sight_run.specs.Reply.{reply_seen, roles_of, writes};

use crate::check::{reject, table_of};
use crate::reply::{Reply, one_output};
use draw_answers::{Drawn, draw_faults, draw_heat, draw_pair, draw_plan, draw_row};
use map_answers::sight_status::{Role, Status};
use map_answers::{Input, lump_of};
use map_picture::Named;
use order_words::View;
use std::alloc::Global;
use table_verdicts::map_list::places_of;

/// The picture of the row of a sector in the map's own table.
fn draw_row_of(alloc: Global, input: &Input, name: &Named<'_>, a: u16) -> Result<Drawn, Status>
    requires { IsInputWhole input.now }
    ensures judged { (out : List ℕ) → GivesCalled ⊤ (RowOfMap name.now out a (located_map input.now)) (drawn_answer out result) }
    ensures refusals { IfErr result IsOfDrawing }
{
    let plan = &input.plan;
    let table = table_of(alloc, plan.sectors, reject(input))?;
    draw_row(alloc, plan, name, &table, a)
}

/// The picture of how much each sector may see by the map's own table.
fn draw_heat_of(alloc: Global, input: &Input, name: &Named<'_>) -> Result<Drawn, Status>
    requires { IsInputWhole input.now }
    ensures judged { (out : List ℕ) → GivesCalled ⊤ (HeatOfMap name.now out (located_map input.now)) (drawn_answer out result) }
    ensures refusals { IfErr result IsOfDrawing }
{
    let plan = &input.plan;
    let table = table_of(alloc, plan.sectors, reject(input))?;
    draw_heat(alloc, plan, name, &table)
}

/// What is drawn of a map that was found.
fn draw_view(alloc: Global, input: &Input, name: &Named<'_>, view: View) -> Result<Drawn, Status>
    requires { IsInputWhole input.now }
    ensures judged { (out : List ℕ) → GivesCalled (HasOneDrawing view (Ok (located_map input.now))) (ViewCalls name.now out view (located_map input.now)) (drawn_answer out result) }
    ensures refusals { IfErr result IsOfDrawing }
{
    match view {
        View::Plan => draw_plan(alloc, &input.plan, name),
        View::Faults => draw_faults(alloc, &input.plan, name),
        View::Row(a) => draw_row_of(alloc, input, name, a),
        View::Heat => draw_heat_of(alloc, input, name),
        View::Pair { pair, budget } => draw_pair(alloc, &input.plan, name, budget, pair),
    }
}

/// The bytes of the map's LINEDEFS, or of its text.
fn linedefs_of(input: &Input) -> &[u8]
    requires { IsInputWhole input.now }
    ensures { result.now ≡ lump_at (located_map input.now).wad (located_map input.now).spot.linedefs }
{
    let k = input.spot.linedefs;
    if (k as usize) < input.wad.entries.as_slice().len() {
        lump_of(&input.bytes, &input.wad, k)
    } else {
        &[]
    }
}

/// The decimal places of the unit in which the map's points are told.
fn map_places(alloc: Global, input: &Input) -> Result<u8, Status>
    requires { IsInputWhole input.now }
    ensures places { IfOk result (λ places. places ≡ places_of_map (located_map input.now)) }
    ensures refusals { IfErr result (λ s. s ≡ status.Memory tt) }
{
    match places_of(alloc, input.spot.format, linedefs_of(input)) {
        Ok(places) => Ok(places),
        Err(memory) => Err(Status::Memory(memory)),
    }
}

/// What is drawn of a map of this name that was found.
fn draw_named(alloc: Global, input: &Input, name: &str, view: View) -> Result<Drawn, Status>
    requires { IsInputWhole input.now }
    ensures judged { (out : List ℕ) → GivesCalled (HasOneDrawing view (Ok (located_map input.now))) (DrawCalls name.now out view (located_map input.now)) (drawn_answer out result) }
    ensures refusals { IfErr result IsOfDrawing }
{
    let places = map_places(alloc, input)?;
    let named = Named { text: name, places };
    draw_view(alloc, input, &named, view)
}

/// What the order `draw` makes of a map that was found.
pub fn make_drawing(
    alloc: Global,
    input: &Input,
    name: &str,
    out: &str,
    view: View,
) -> Result<Reply, Status>
    requires { IsInputWhole input.now }
    ensures called { GivesCalled (HasOneDrawing view (Ok (located_map input.now))) (DrawCalls name.now out.now view (located_map input.now)) (reply_seen result) }
    ensures refusals { IfErr result IsOfDrawing }
    ensures roles { IfOk result (λ reply. roles_of (writes reply) ≡ Picture ∷ []) }
    ensures right { IfOk result (λ reply. reply.right ≡ true) }
{
    let drawn = draw_named(alloc, input, name, view)?;
    match one_output(alloc, Role::Picture, out, drawn.picture, drawn.line) {
        Ok(reply) => Ok(reply),
        Err(refused) => Err(Status::Memory(refused.into())),
    }
}
