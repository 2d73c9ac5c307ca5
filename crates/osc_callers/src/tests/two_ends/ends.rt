//! A client and a server of mirrored contexts, over keepers in memory.

use super::client_side::{ask, take_response};
use super::plan::{Beginning, End, NewLife, Plan};
use super::server_side::{answer, take_request};
use super::world::{Job, World};
use crate::tests::kept::exchange::{Client, Server, start_client, start_server};
use crate::tests::kept::memory::{Memory, Watch};
use osc_kept::KeptError;
use std::process::Abort;

/// Both ends.
#[derive(Drop)]
pub struct Ends<'a> {
    client: Client<'a>,
    server: Server<'a>,
}

impl<'a> Ends<'a> {
    /// Starts both ends for the first time.
    pub fn start(
        rt: &impl Abort,
        plan: &Plan,
        of_client: &'a Watch,
        of_server: &'a Watch,
    ) -> Ends<'a> {
        let client = Memory::new(of_client, plan.wrong_of(End::Client));
        let server = Memory::new(of_server, plan.wrong_of(End::Server));
        Ends {
            client: start_client(rt, client),
            server: start_server(rt, server),
        }
    }

    /// Stops the process of an end. The next one starts the end over its keeper.
    pub fn start_anew(self, rt: &impl Abort, world: &mut World, end: End) -> Ends<'a> {
        let Ends { client, server } = self;
        match end {
            End::Client => Ends {
                client: start_client(rt, client.into_keeper()),
                server,
            },
            End::Server => {
                world.drop_tickets();
                Ends {
                    client,
                    server: start_server(rt, server.into_keeper()),
                }
            }
        }
    }

    /// Begins a new life of an end. If its keeper fails then, its process is stopped.
    pub fn begin(mut self, rt: &impl Abort, world: &mut World, new_life: NewLife) -> Ends<'a> {
        let NewLife { end, by, .. } = new_life;
        if let Beginning::Start = by {
            return self.start_anew(rt, world, end);
        }
        let restarted = match end {
            End::Client => self.client.restart(),
            End::Server => self.server.restart(),
        };
        match restarted {
            Ok(()) => self,
            Err(KeptError::KeeperFailed) => self.start_anew(rt, world, end),
            Err(_) => rt.abort(),
        }
    }

    /// Does what is to happen in an event. If the keeper of an end failed, returns that end as the error.
    pub fn act(&mut self, rt: &impl Abort, world: &mut World, job: Job) -> Result<(), End> {
        match job {
            Job::Ask(token, echo) => ask(rt, world, &mut self.client, token, echo),
            Job::Arrive(End::Server, datagram) => {
                take_request(rt, world, &mut self.server, datagram)
            }
            Job::Answer(request, ticket) => { answer(rt, world, &mut self.server, request, ticket) }
            Job::Arrive(End::Client, datagram) => {
                take_response(rt, world, &mut self.client, datagram);
                Ok(())
            }
        }
    }
}
