//! The orders that ask of one map in a file: which map that is, and what each is answered once it is found.

ghost use Rattle.std.specs.Prelude.{◌≡◌, ◌++◌, [], IfErr, IfOk, IsSome, IsTrue, Ok, Some, map};
ghost use Rattle.std.specs.Option.{option_map};
ghost use Rattle.listeners.specs.Told.{texts};
ghost use Rattle.shelf_io.specs.Shelf.{Files, NoneFell};
ghost use Rattle.map_answers.specs.Noise.{HasDampers};
ghost use Rattle.map_answers.specs.SightStatus.Answer.{GivesCalled, line_answer, status_of};
ghost use Rattle.map_answers.specs.SightStatus.Status.{IsProper};
ghost use Rattle.map_answers.specs.Views.{IsInputWhole, located_map};
ghost use Rattle.sight_run.specs.Build.{with_report};
ghost use Rattle.sight_run.specs.Heard.{ListenersHeard, HearsOn, heard_as};
ghost use Rattle.sight_run.specs.Obeys.{CallsOn, HasOneOn, IsOfLine, IsOfMapAlone, WritesEach, map_asked, report_asked};
ghost use Rattle.sight_run.specs.Reply.{reply_seen, roles_of, writes};
ghost use Rattle.sight_run.specs.Run.{Cause, EndsRight, IsOfOrder, IsPastReading, IsUnstored};
ghost use Rattle.sight_run.specs.Words.{is_built};

use crate::audit::report_audit;
use crate::build::build_on;
use crate::check::check_on;
use crate::draw::make_drawing;
use crate::reply::{Reply, line_alone};
use crate::zero::make_zero;
use listeners::Listener;
use map_answers::sight_status::Status;
use map_answers::{Input, judge_audit, judge_need, judge_ray, judge_sound, judge_trace};
use order_words::{Order, Source};
use pair_answer::why_answers::judge_why;
use shelf_io::Shelf;
use sight_workers::Gate;
use std::alloc::Global;
use std::thread::Threads;
use whole_wad::Hooks;

/// The file that an order reads and the name of the map in it; none where it makes its map, or takes each map of the file.
pub fn asked_map(order: &Order) -> Option<(&Source, &str)>
    ensures { option_map (λ at. record { wad = at.0.now; name = at.1.now }) result ≡ map_asked order.now }
{
    match order {
        Order::Zero { wad, map, .. }
        | Order::Ray { wad, map, .. }
        | Order::Audit { wad, map, .. }
        | Order::Trace { wad, map, .. }
        | Order::Check { wad, map, .. }
        | Order::Build { wad, map, .. }
        | Order::Need { wad, map }
        | Order::Sound { wad, map, .. }
        | Order::Why { wad, map, .. }
        | Order::Draw { wad, map, .. } => Some((wad, map.as_str())),
        Order::Verify { .. } => None,
        Order::Grid { .. } | Order::All { .. } | Order::Maps { .. } => None,
    }
}

/// The line that an order calls for which asks for a line alone.
fn line_on(alloc: Global, order: &Order, input: &Input) -> Result<String, Status>
    requires whole { IsInputWhole input.now }
    requires dampers { HasDampers input.now }
    requires line { IsOfLine order.now }
    ensures called { (files : Files) (heard : ListenersHeard) → GivesCalled (HasOneOn order.now (Ok (located_map input.now))) (CallsOn order.now files heard (located_map input.now)) (line_answer result) }
    ensures refusals { IfErr result (IsOfOrder order.now) }
    ensures past { IfErr result IsPastReading }
    ensures proper { IfErr result IsProper }
{
    let plan = &input.plan;
    match order {
        Order::Ray { ray, .. } => judge_ray(alloc, plan, ray),
        Order::Audit { .. } => judge_audit(alloc, plan),
        Order::Trace { ray, .. } => judge_trace(alloc, plan, ray),
        Order::Need { map, .. } => judge_need(alloc, plan, map.as_str()),
        Order::Sound { map, pair, .. } => judge_sound(alloc, input, map.as_str(), pair),
        Order::Why { pair, budget, .. } => judge_why(alloc, plan, *budget, *pair),
        _ => unreachable!(),
    }
}

/// The same, as a reply.
fn line_reply(alloc: Global, order: &Order, input: &Input) -> Result<Reply, Status>
    requires whole { IsInputWhole input.now }
    requires dampers { HasDampers input.now }
    requires line { IsOfLine order.now }
    ensures called { (files : Files) (heard : ListenersHeard) → GivesCalled (HasOneOn order.now (Ok (located_map input.now))) (CallsOn order.now files heard (located_map input.now)) (reply_seen result) }
    ensures refusals { IfErr result (IsOfOrder order.now) }
    ensures past { IfErr result IsPastReading }
    ensures proper { IfErr result IsProper }
    ensures roles { IfOk result (λ reply. WritesEach order.now (roles_of (writes reply))) }
    ensures right { IfOk result (λ reply. EndsRight order.now reply.right) }
{
    Ok(line_alone(alloc, line_on(alloc, order, input)?))
}

/// What an order calls for that is answered from its map alone.
fn answer_on(alloc: Global, order: &Order, input: &Input) -> Result<Reply, Status>
    requires whole { IsInputWhole input.now }
    requires dampers { HasDampers input.now }
    requires alone { IsOfMapAlone order.now }
    ensures called { (files : Files) (heard : ListenersHeard) → GivesCalled (HasOneOn order.now (Ok (located_map input.now))) (CallsOn order.now files heard (located_map input.now)) (reply_seen result) }
    ensures refusals { IfErr result (IsOfOrder order.now) }
    ensures past { IfErr result IsPastReading }
    ensures proper { IfErr result IsProper }
    ensures roles { IfOk result (λ reply. WritesEach order.now (roles_of (writes reply))) }
    ensures right { IfOk result (λ reply. EndsRight order.now reply.right) }
{
    match order {
        Order::Zero { map, out, .. } => make_zero(alloc, input, map.as_str(), out.as_str()),
        Order::Draw { map, out, view, .. } => {
            make_drawing(alloc, input, map.as_str(), out.as_str(), *view)
        }
        Order::Audit { report, .. } => match report {
            Some(out) => report_audit(alloc, &input.plan, out),
            None => line_reply(alloc, order, input),
        },
        _ => line_reply(alloc, order, input),
    }
}

/// What an order calls for, of its map. All files stay. A build tells the listeners what it found, and those that have heard enough stand in
/// `ended` then.
pub fn reply_on<R: Threads + Sync, S: Shelf, G: Gate + Sync>(
    rt: &R,
    alloc: Global,
    shelf: &mut S,
    order: &Order,
    input: Input,
    listeners: &mut Vec<Box<dyn Listener>>,
    ended: &mut Vec<Box<dyn Listener>>,
    hooks: &Hooks<'_, G>,
) -> Result<Reply, Status>
    requires built { IsTrue (is_built order.now) }
    requires asks { IsSome (map_asked order.now) }
    requires whole { IsInputWhole input }
    requires dampers { HasDampers input }
    requires none { ended.old.items ≡ [] }
    ensures told { (files : Files) → (S.state shelf.old).files ≡ Some files →
        GivesCalled (HasOneOn order.now (Ok (located_map input))) (CallsOn order.now files (heard_as (map (λ b. listener_state b) listeners.old.items) (map (λ b. listener_state b) listeners.new.items)) (located_map input))
        (with_report (report_asked order.now) (texts (map (λ b. listener_state b) ended.new.items) ++ texts (map (λ b. listener_state b) listeners.new.items)) (reply_seen result)) }
    ensures heard { HearsOn order.now (located_map input) (heard_as (map (λ b. listener_state b) listeners.old.items) (map (λ b. listener_state b) listeners.new.items)) (status_of (reply_seen result)) }
    ensures files { (S.state shelf.new).files ≡ (S.state shelf.old).files }
    ensures begun { (S.state shelf.new).begun ≡ (S.state shelf.old).begun }
    ensures counts { NoneFell (S.state shelf.old) (S.state shelf.new) }
    ensures cause { Cause (S.state shelf.old) (S.state shelf.new) result }
    ensures refusals { IfErr result (IsOfOrder order.now) }
    ensures early { IfErr result IsUnstored }
    ensures proper { IfErr result IsProper }
    ensures roles { IfOk result (λ reply. WritesEach order.now (roles_of (writes reply))) }
    ensures right { IfOk result (λ reply. EndsRight order.now reply.right) }
{
    match order {
        Order::Check { cert, spelling, .. } => {
            check_on(alloc, shelf, input, cert.as_str(), *spelling)
        }
        Order::Build {
            map,
            out,
            cert,
            workers,
            method,
            ..
        } => build_on(
            rt,
            alloc,
            &input,
            map.as_str(),
            out.as_str(),
            cert,
            *workers,
            *method,
            listeners,
            ended,
            hooks,
        ),
        _ => answer_on(alloc, order, &input),
    }
}
