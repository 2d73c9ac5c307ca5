//! The clients.

use crate::client_end::ClientEnd;
use crate::keeper::Memory;
use crate::refusal::{Made, Refusal, replaced, restarted};
use crate::steps::Step;
use osc_coap::Message;
use osc_context::Piv;
use osc_endpoint::{Client, ClientOutcome};
use osc_kept::KeptClient;

impl<const N: usize> ClientEnd for Client<N> {
    fn request(&mut self, now: u64, plain: &Message<'_>, out: &mut [u8]) -> Made<usize> {
        Client::request(self, now, plain, out).map_err(Refusal::of_request)
    }

    fn take<'b>(&mut self, now: u64, bytes: &'b mut [u8]) -> Made<ClientOutcome<'b>> {
        Ok(Client::take(self, now, bytes))
    }

    fn halves<'b>(&mut self, now: u64, bytes: &'b mut [u8]) -> Made<ClientOutcome<'b>> {
        let decision = Client::decide(self, now, bytes);
        Ok(decision.outcome(bytes))
    }

    fn forget(&mut self, token: &[u8]) -> Made<bool> {
        Ok(Client::forget(self, token))
    }

    fn restart(&mut self, next: Piv) -> Made<()> {
        Client::restart(self, next);
        Ok(())
    }

    fn advance(&mut self, now: u64) -> Made<()> {
        Client::advance(self, now);
        Ok(())
    }

    fn next(&self) -> Made<u64> {
        Ok(Client::next(self))
    }

    fn other(&mut self, step: &Step<'_>) -> Made<&'static str> {
        match step.verb {
            "apart" => {
                self.set_apart(step.registrations());
                Ok("apart")
            }
            "skip" => {
                step.fields.count(1);
                let skipped = self.skip(step.fields.number(0));
                skipped.map_err(Refusal::TooFewLeft).map(|()| "skipped")
            }
            "replace" => {
                step.fields.count(2);
                let Some(context) = step.context() else {
                    return Err(Refusal::Bad);
                };
                let replaced = self.replace(context, step.fields.sequence_number(1));
                replaced.map_err(Refusal::SameSender).map(|()| "replaced")
            }
            _ => Err(Refusal::Bad),
        }
    }
}

impl ClientEnd for KeptClient<Memory<'_>, 2> {
    fn request(&mut self, now: u64, plain: &Message<'_>, out: &mut [u8]) -> Made<usize> {
        KeptClient::request(self, now, plain, out).map_err(Refusal::of_request)
    }

    fn take<'b>(&mut self, now: u64, bytes: &'b mut [u8]) -> Made<ClientOutcome<'b>> {
        Ok(KeptClient::take(self, now, bytes))
    }

    fn halves<'b>(&mut self, now: u64, bytes: &'b mut [u8]) -> Made<ClientOutcome<'b>> {
        let decision = KeptClient::decide(self, now, bytes);
        Ok(decision.outcome(bytes))
    }

    fn forget(&mut self, token: &[u8]) -> Made<bool> {
        Ok(KeptClient::forget(self, token))
    }

    fn advance(&mut self, now: u64) -> Made<()> {
        KeptClient::advance(self, now);
        Ok(())
    }

    fn next(&self) -> Made<u64> {
        Ok(self.upcoming())
    }

    fn other(&mut self, step: &Step<'_>) -> Made<&'static str> {
        match step.verb {
            "apart" => {
                self.set_apart(step.registrations());
                Ok("apart")
            }
            "restart" => restarted(KeptClient::restart(self)),
            "replace" => {
                step.fields.count(2);
                let Some(context) = step.context() else {
                    return Err(Refusal::Bad);
                };
                let keeper = Memory::new(step.fields.alloc, step.fields.number(1), "-");
                replaced(self.replace(context, keeper))
            }
            _ => Err(Refusal::Bad),
        }
    }
}
