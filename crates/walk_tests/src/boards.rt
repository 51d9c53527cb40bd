//! A board for the worked map PAIR: its steps one by one, and whole turns of a worker.

ghost use Rattle.std.specs.Prelude.{◌≡◌, ◌≤◌, false, IfOk, IfSome, IsTrue};
ghost use Rattle.sight_names.specs.Found.{Found};
ghost use Rattle.sight_names.specs.Map.{map_of};
ghost use Rattle.group_job.specs.Faces.{AreFacesOf};
ghost use Rattle.sight_workers.specs.Board.{IsFindable};
ghost use Rattle.sight_workers.specs.Boards.{IsSameBoard, IsSeatOfBoard, has_given, job_of_board, sectors_of_board, task_of_board, workers_of_board};
ghost use Rattle.sight_workers.specs.Jobs.{IsJob};

use crate::grounds::groups_named;
use face_groups::tri_sectors::components;
use group_job::MapOfGroups;
use pair_budget::{Alone, Outcome, walk_source};
use sight_names::{Budget, Memory};
use sight_workers::{Board, BoardSeat, Job, OpenGate};
use std::alloc::Global;
use std::test::Fail;

// The last two seats of a board, the later one first; none where it has fewer.
fn two_seats(alloc: Global, board: &mut Board<'_>) -> Result<Option<(BoardSeat, BoardSeat)>, Memory>
    requires { has_given board.old ≡ false }
    ensures board { IsSameBoard board.old board.new }
    ensures seats { IfOk result (λ o. IfSome o (λ p. IsSeatOfBoard board.new p.0 × IsSeatOfBoard board.new p.1)) }
{
    let mut seats = board.seats(alloc)?;
    let Some(one) = seats.pop() else {
        return Ok(None);
    };
    let Some(zero) = seats.pop() else {
        return Ok(None);
    };
    Ok(Some((one, zero)))
}

// A turn of a worker: the source, how many sectors its walk found, and whether it ended as all were found. None where there
// was no source.
fn turn_of(
    alloc: Global,
    job: &Job<'_>,
    board: &Board<'_>,
    seat: &mut BoardSeat,
) -> Result<Option<(u16, usize, bool)>, Memory>
    requires seat { IsSeatOfBoard board.now seat.old }
    requires job { job.now ≡ job_of_board board.now }
    requires made { IsJob job.now }
    ensures { IsSeatOfBoard board.now seat.new }
{
    let Some(result) = board.serve(alloc, seat, job, &OpenGate)? else {
        return Ok(None);
    };
    let is_all = matches!(result.outcome, Outcome::All);
    Ok(Some((result.source, result.found.as_slice().len(), is_all)))
}

// Seat 0 draws source 0, seat 1 has a turn at source 1, and then seat 0 sees what seat 1 has marked and draws nothing.
fn are_steps(
    alloc: Global,
    job: &Job<'_>,
    board: &Board<'_>,
    zero: &mut BoardSeat,
    one: &mut BoardSeat,
) -> Result<bool, Memory>
    requires zero { IsSeatOfBoard board.now zero.old }
    requires one { IsSeatOfBoard board.now one.old }
    requires sectors { sectors_of_board board.now ≡ 2 }
    requires job { job.now ≡ job_of_board board.now }
    requires made { IsJob job.now }
{
    let first = board.claim(zero);
    let before = board.look(zero, 0);
    let turn = turn_of(alloc, job, board, one)?;
    let after = board.look(zero, 0);
    let last = board.claim(zero);
    Ok(
        matches!(first, Some(0))
            && before == 0
            && matches!(turn, Some((1, _, _)))
            && after == 2
            && last.is_none(),
    )
}

// The same of a new board, which gives no seats after these.
fn are_steps_of_two(alloc: Global, job: Job<'_>) -> Result<bool, Memory>
    requires { IsJob job }
{
    let plan = job.plan;
    if plan.sectors != 2 {
        return Ok(false);
    }
    let mut board = Board::new(alloc, job, 2)?;
    let Some((mut one, mut zero)) = two_seats(alloc, &mut board)? else {
        return Ok(false);
    };
    let are_right = are_steps(alloc, &job, &board, &mut zero, &mut one)?;
    let again = board.seats(alloc)?;
    Ok(are_right && again.is_empty())
}

// One worker has a turn at each source: what the first finds settles the second, which isn't walked. Then there is none.
fn are_turns(
    alloc: Global,
    job: &Job<'_>,
    board: &Board<'_>,
    seat: &mut BoardSeat,
) -> Result<bool, Memory>
    requires seat { IsSeatOfBoard board.now seat.old }
    requires job { job.now ≡ job_of_board board.now }
    requires made { IsJob job.now }
{
    let first = turn_of(alloc, job, board, seat)?;
    let second = turn_of(alloc, job, board, seat)?;
    let third = turn_of(alloc, job, board, seat)?;
    Ok(matches!(first, Some((0, 1, _))) && matches!(second, Some((1, 0, true))) && third.is_none())
}

// The same of a new board.
fn are_turns_of_one(alloc: Global, job: Job<'_>) -> Result<bool, Memory>
    requires { IsJob job }
{
    let mut board = Board::new(alloc, job, 1)?;
    let mut seats = board.seats(alloc)?;
    let Some(mut seat) = seats.pop() else {
        return Ok(false);
    };
    are_turns(alloc, &job, &board, &mut seat)
}

// Whether a walk of source 0 finds sector 1 alone.
fn finds_one(alloc: Global, job: Job<'_>) -> Result<bool, Memory>
    requires { IsJob job }
    ensures { IfOk result (λ yes. IsTrue yes → Found (map_of job.entry.plan.now) job.entry.mesh.now.triangles job.entry.labels.now 0 1 job.entry.budget) }
{
    let plan = job.plan;
    if plan.sectors != 2 {
        return Ok(false);
    }
    let walked = walk_source(alloc, plan, job.mesh, job.labels, 0, job.budget, &mut Alone)?;
    let found = walked.found.as_slice();
    if found.len() != 1 || found[0].to != 1 {
        return Ok(false);
    }
    Ok(true)
}

// Seat 1 draws source 0 and marks its pair with sector 1. Only then looks give the pair's bit, bit 1 of word 0, to the other
// seat and to its own.
fn is_seen(board: &Board<'_>, zero: &mut BoardSeat, one: &mut BoardSeat) -> bool
    requires zero { IsSeatOfBoard board.now zero.old }
    requires one { IsSeatOfBoard board.now one.old }
    requires sectors { sectors_of_board board.now ≡ 2 }
    requires findable { IsFindable (task_of_board board.now) (0, 1) }
{
    let drawn = board.claim(one);
    let before = board.look(zero, 0);
    board.mark(one, 0, 1);
    let after = board.look(zero, 0);
    let own = board.look(one, 0);
    matches!(drawn, Some(0)) && before == 0 && after == 2 && own == 2
}

// The same of a new board. A walk of source 0 finds the pair that is marked.
fn is_mark_seen(alloc: Global, job: Job<'_>) -> Result<bool, Memory>
    requires { IsJob job }
{
    let plan = job.plan;
    if plan.sectors != 2 {
        return Ok(false);
    }
    if !finds_one(alloc, job)? {
        return Ok(false);
    }
    let mut board = Board::new(alloc, job, 2)?;
    let Some((mut one, mut zero)) = two_seats(alloc, &mut board)? else {
        return Ok(false);
    };
    Ok(is_seen(&board, &mut zero, &mut one))
}

fn are_right(alloc: Global, map: &MapOfGroups) -> Result<bool, Memory>
    requires { AreFacesOf map.now.plan map.now.faces }
{
    let classes = components(alloc, &map.plan)?;
    let job = Job {
        plan: &map.plan,
        mesh: &map.faces.mesh,
        labels: &map.faces.labels,
        components: classes.as_slice(),
        budget: Budget::Full,
    };
    Ok(are_steps_of_two(alloc, job)? && are_turns_of_one(alloc, job)? && is_mark_seen(alloc, job)?)
}

// The same of the worked map of this name.
fn are_right_of(alloc: Global, name: &str) -> Result<bool, Fail> {
    let map = groups_named(alloc, name)?;
    let told = are_right(alloc, &map);
    drop(map);
    Ok(told?)
}

#[test]
fn seats_of_a_board_share_the_sources_and_see_what_is_marked(rt: HostRuntime) -> Result<(), Fail> {
    assert!(rt; are_right_of(rt.alloc(), "PAIR")?);
    Ok(())
}
