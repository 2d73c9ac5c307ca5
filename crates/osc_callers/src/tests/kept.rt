//! Two ends over keepers that go wrong: no number is used twice, and each request is delivered at most once.

pub mod exchange;
pub mod memory;

use exchange::{Seen, exchange, start_client, start_server};
use memory::{Memory, Watch, Wrong};
use std::alloc::Global;
use std::process::Abort;

/// How many requests the application makes.
const ROUNDS: u64 = 140;

/// Returns whether each number is above the one before.
fn ascend(numbers: &[u64]) -> bool {
    let mut least = 0;
    for number in numbers {
        if *number < least {
            return false;
        }
        least = number.saturating_add(1);
    }
    true
}

/// Runs both ends, with a restart and a stop of each. One call of each keeper goes wrong, if `wrong` names one. Returns how often the
/// keepers were called.
fn run(rt: &(impl Abort + Alloc<A = Global>), wrong: Option<(u64, Wrong)>) -> (u64, u64) {
    let (of_server, of_client) = (Watch::new(), Watch::new());
    let mut seen = Seen::new(rt.alloc(), &of_server, &of_client);
    let mut server = start_server(rt, Memory::new(&of_server, wrong));
    let mut client = start_client(rt, Memory::new(&of_client, wrong));
    for round in 0..ROUNDS {
        if let Some(echo) = exchange(rt, round, None, &mut client, &mut server, &mut seen) {
            let _ = exchange(rt, round, Some(echo), &mut client, &mut server, &mut seen);
        }
        if round == 80 {
            let _ = (server.restart(), client.restart());
        }
        if round == 100 || of_server.is_stopped.get() {
            server = start_server(rt, server.into_keeper());
        }
        if round == 110 || of_client.is_stopped.get() {
            client = start_client(rt, client.into_keeper());
        }
    }
    assert!(rt; ascend(&seen.sent), "requests: {wrong:?}");
    assert!(rt; ascend(&seen.own), "Sender Sequence Numbers: {wrong:?}");
    assert!(rt; ascend(&seen.delivered), "deliveries: {wrong:?}");
    // A call that goes wrong costs at most the rounds in which each keeper had it.
    assert!(rt; ROUNDS <= seen.delivered.len() as u64 + 2, "{wrong:?}");
    (of_server.calls.get(), of_client.calls.get())
}

// Each load and each save of both keepers fails, and is stopped, in turn.
#[test]
fn keepers_that_go_wrong(rt: HostRuntime) {
    // Three lives: a load at the beginning of each, and a save for each 64 numbers, of which there are two in the first life.
    assert_eq!(rt; run(&rt, None), (7, 7));
    for call in 0..7 {
        for wrong in [Wrong::Fails, Wrong::Stops] {
            let _ = run(&rt, Some((call, wrong)));
        }
    }
}
