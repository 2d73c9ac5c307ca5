//! A client and a server over keepers in memory, two requests and their replies, and everything that can happen to them: datagrams that are
//! lost, swapped or repeated, an end that begins a new life, and a stop in a save. Whatever happens, no request is delivered twice, each
//! delivered response is the one to its request, and no nonce is used twice.

mod claims;
mod client_side;
mod datagram;
mod ends;
mod log;
mod messages;
mod plan;
mod rows;
mod server_side;
mod world;

use crate::tests::kept::memory::Watch;
use claims::first_broken;
use ends::Ends;
use log::Totals;
use plan::{End, Order, Plan, fate_at, new_life_at, wrong_at};
use rows::{OF_CLIENT, OF_KEEPERS, OF_SERVER, Row};
use std::alloc::Global;
use std::process::Abort;
use world::World;

/// Runs a row by a plan, and checks the claims of the run. Returns what was delivered, or `None` if a part of the plan didn't come about.
fn run(rt: &(impl Abort + Alloc<A = Global>), row: &Row, plan: Plan) -> Option<Totals> {
    let (of_client, of_server) = (Watch::new(), Watch::new());
    let mut ends = Ends::start(rt, &plan, &of_client, &of_server);
    let mut world = World::new(rt, rt.alloc(), plan);
    for _ in 0..=row.events {
        if let Some(new_life) = plan.new_life_after(world.events) {
            ends = ends.begin(rt, &mut world, new_life);
        }
        let Some(job) = world.take_job() else {
            break;
        };
        if let Err(end) = ends.act(rt, &mut world, job) {
            ends = ends.start_anew(rt, &mut world, end);
        }
    }
    assert_eq!(rt; first_broken(&world.log), None, "{plan:?}");
    // Each event and each datagram has its turn.
    assert!(rt;
        world.events <= row.events && world.sent <= row.datagrams,
        "{plan:?}"
    );
    if came_about(&plan, &world, &of_client, &of_server) {
        Some(Totals::of(&world.log))
    } else {
        None
    }
}

/// Returns whether all of a plan came about.
fn came_about(plan: &Plan, world: &World, of_client: &Watch, of_server: &Watch) -> bool {
    let has_fate = match plan.fate {
        None => true,
        Some((index, _)) => index < world.sent,
    };
    let has_new_life = match plan.new_life {
        None => true,
        Some(new_life) => new_life.after <= world.events,
    };
    let has_wrong = match plan.wrong {
        None => true,
        Some((End::Client, call, _)) => call < of_client.calls.get(),
        Some((End::Server, call, _)) => call < of_server.calls.get(),
    };
    has_fate && has_new_life && has_wrong
}

/// Runs a plan in both orders.
fn run_orders(rt: &(impl Abort + Alloc<A = Global>), row: &Row, plan: Plan, totals: &mut Totals) {
    for order in [Order::AsSealed, Order::Reverse] {
        if let Some(run) = run(rt, row, Plan { order, ..plan }) {
            totals.add(run);
        }
    }
}

/// Runs a plan with no fate, and with each fate.
fn run_fates(rt: &(impl Abort + Alloc<A = Global>), row: &Row, plan: Plan, totals: &mut Totals) {
    for place in 0..=row.fates() {
        let fate = fate_at(place);
        run_orders(rt, row, Plan { fate, ..plan }, totals);
    }
}

/// Runs a plan with no new life, and with each new life of the row's end.
fn run_new_lives(
    rt: &(impl Abort + Alloc<A = Global>),
    row: &Row,
    plan: Plan,
    totals: &mut Totals,
) {
    for place in 0..=row.new_lives() {
        let new_life = new_life_at(row.end, place);
        run_fates(rt, row, Plan { new_life, ..plan }, totals);
    }
}

/// Makes all runs of a row.
fn run_row(rt: &(impl Abort + Alloc<A = Global>), row: &Row) -> Totals {
    let mut totals = Totals::none_of(0);
    for place in 0..=row.wrong_calls() {
        let plan = Plan {
            order: Order::AsSealed,
            fate: None,
            new_life: None,
            wrong: wrong_at(row.end, place),
        };
        run_new_lives(rt, row, plan, &mut totals);
    }
    totals
}

/// Makes all runs of some rows, and compares what was delivered.
fn run_rows(rt: &(impl Abort + Alloc<A = Global>), rows: &[Row]) {
    for row in rows {
        assert_eq!(rt; run_row(rt, row), row.totals, "{}", row.name);
    }
}

#[test]
fn new_lives_of_the_client(rt: HostRuntime) {
    run_rows(&rt, &OF_CLIENT);
}

#[test]
fn new_lives_of_the_server(rt: HostRuntime) {
    run_rows(&rt, &OF_SERVER);
}

#[test]
fn keepers_that_fail(rt: HostRuntime) {
    run_rows(&rt, &OF_KEEPERS);
}
