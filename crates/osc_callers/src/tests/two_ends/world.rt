//! What is still to happen between a client and a server, and the log of what happened.

use super::log::{Entry, Request};
use super::plan::{End, Fate, Order, Plan};
use osc_endpoint::Ticket;
use std::alloc::Global;
use std::mem;
use std::process::Abort;

/// What is to happen in an event.
#[derive(Drop)]
pub enum Job {
    /// The application has the client seal a request under a token, with the Echo value of a challenge if there was one.
    Ask(u8, Option<[u8; 8]>),
    /// A datagram arrives at an end.
    Arrive(End, Vec<u8>),
    /// The application answers a request that was delivered.
    Answer(Request, Ticket),
}

/// What is still to happen, and the log.
#[derive(Drop)]
pub struct World {
    pub alloc: Global,
    plan: Plan,
    /// How many events there were, including the present one.
    pub events: u8,
    /// How many datagrams were sent.
    pub sent: u64,
    present: Vec<Job>,
    /// What follows from the present jobs.
    next: Vec<Job>,
    /// What comes when nothing else is left.
    last: Vec<Job>,
    pub log: Vec<Entry>,
}

/// Drops the jobs that have a ticket.
fn without_tickets(jobs: &mut Vec<Job>) {
    jobs.retain(|job| !matches!(job, Job::Answer(..)));
}

impl World {
    /// Begins with two requests that are to be sealed.
    pub fn new(rt: &impl Abort, alloc: Global, plan: Plan) -> World {
        let mut world = World {
            alloc,
            plan,
            events: 0,
            sent: 0,
            present: Vec::new(alloc),
            next: Vec::new(alloc),
            last: Vec::new(alloc),
            log: Vec::new(alloc),
        };
        world.will(rt, Job::Ask(0, None));
        world.will(rt, Job::Ask(1, None));
        world
    }

    /// Adds a job for when the present jobs are done.
    pub fn will(&mut self, rt: &impl Abort, job: Job) {
        self.next.push(job).expect(rt, "memory");
    }

    /// Takes the job of the next event, in the order of the plan. Everything that follows from one round of jobs is the next round. Returns
    /// `None` if nothing is left.
    pub fn take_job(&mut self) -> Option<Job> {
        if self.present.is_empty() {
            mem::swap(&mut self.present, &mut self.next);
        }
        if self.present.is_empty() {
            mem::swap(&mut self.present, &mut self.last);
        }
        if self.present.is_empty() {
            return None;
        }
        self.events = self.events.saturating_add(1);
        match self.plan.order {
            Order::AsSealed => Some(self.present.remove(0)),
            Order::Reverse => self.present.pop(),
        }
    }

    /// Drops the tickets of the server, which are gone with its application.
    pub fn drop_tickets(&mut self) {
        without_tickets(&mut self.present);
        without_tickets(&mut self.next);
    }

    /// Sends a datagram to an end. It arrives in the next round, unless the plan says something else about it.
    pub fn send(&mut self, rt: &impl Abort, end: End, datagram: &[u8]) {
        let fate = self.plan.fate_of(self.sent);
        self.sent = self.sent.saturating_add(1);
        match fate {
            None => self.will(rt, self.arrival(rt, end, datagram)),
            Some(Fate::Lost) => {}
            Some(Fate::Twice) => {
                self.will(rt, self.arrival(rt, end, datagram));
                self.will(rt, self.arrival(rt, end, datagram));
            }
            Some(Fate::TwiceAtTheEnd) => {
                self.will(rt, self.arrival(rt, end, datagram));
                let again = self.arrival(rt, end, datagram);
                self.last.push(again).expect(rt, "memory");
            }
        }
    }

    /// Returns the job in which a datagram arrives at an end.
    fn arrival(&self, rt: &impl Abort, end: End, datagram: &[u8]) -> Job {
        Job::Arrive(end, datagram.to_vec(self.alloc).expect(rt, "memory"))
    }

    /// Notes what an end did.
    pub fn note(&mut self, rt: &impl Abort, entry: Entry) {
        self.log.push(entry).expect(rt, "memory");
    }
}
