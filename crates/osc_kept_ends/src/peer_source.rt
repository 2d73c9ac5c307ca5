//! The numbers of a peer: its record, what it reserved, at most one number that was drawn and isn't used yet, and what it received.

ghost use Rattle.std.specs.Prelude.{◌≡◌, ◌<◌, ◌≤◌, ◌+◌, ◌^◌, true, IsOk, IsErr, IfOk, IfErr};
ghost use Rattle.osc_context.specs.Reserving.{Covers};
ghost use Rattle.osc_context.specs.Views.{limit_of, next_of, number_of};
ghost use Rattle.osc_kept_ends.specs.Numbering.{Draws, Goes, Load, nothing_drawn, upcoming};
ghost use Rattle.osc_kept_ends.specs.Peering.{IsKeptOn, received_with};
ghost use Rattle.osc_kept_ends.specs.Refusals.{RefusesPeer};
ghost use Rattle.osc_kept_ends.specs.Views.{IsLastDrawn};

use crate::kept_error::{KeptError, lift};
use osc_context::{KeeperError, KeptNumbers, Numbers, Piv, RecordKeeper};

/// The first number that isn't one of a request (RFC 8613, 7.2.1).
const LIMIT: u64 = 1 << 40;

/// The numbers of a peer.
#[derive(Drop)]
pub(crate) struct PeerSource<R: RecordKeeper> {
    pub(crate) keeper: R,
    pub(crate) numbers: Numbers,
    // Drawn, and not used yet.
    pub(crate) in_hand: Option<Piv>,
    // Every request that was delivered has a number below it.
    received: u64,
    // What was saved of it since it was loaded, or 0.
    saved: u64,
    // So many more numbers are saved with each that is received.
    ahead: u64,
    pub ghost covered: { Covers (R.sender_floor keeper) (next_of numbers) (limit_of numbers) },
    pub ghost last_drawn: { IsLastDrawn in_hand (next_of numbers) },
    pub ghost least: { R.received_floor keeper ≤ received },
    pub ghost saved_is: { saved ≤ R.received_floor keeper },
}

/// Returns numbers of which none is left.
fn exhausted() -> Numbers
    ensures { (next_of result ≡ 2 ^ 40) × (limit_of result ≡ 2 ^ 40) }
{
    let Ok(mut numbers) = Numbers::begin(LIMIT - 1) else {
        unreachable!()
    };
    numbers.reserve(LIMIT);
    let _last = numbers.give();
    numbers
}

/// Returns numbers that go on with this one, and of which none is reserved.
pub(crate) fn resting_at(next: u64) -> Numbers
    requires { next ≤ 2 ^ 40 }
    ensures { (next_of result ≡ next) × (limit_of result ≡ next) }
{
    if next == LIMIT {
        return exhausted();
    }
    let Ok(numbers) = Numbers::begin(next) else {
        unreachable!()
    };
    numbers
}

impl<R: RecordKeeper> PeerSource<R> {
    ghost use Rattle.osc_kept_ends.specs.PeerOwning.{ahead_in, own_in, received_in};

    /// Begins at the numbers that the record loads, and returns the next number, and the one above all that was received. A refusal gives
    /// the record back.
    pub(crate) fn start(
        mut keeper: R,
        ahead: u64,
    ) -> Result<(PeerSource<R>, Piv, u64), (KeptError, R)>
        ensures loaded { IfOk result (λ r. R.loads keeper (number_of r.1) r.2 r.0.keeper × (R.failures r.0.keeper ≡ R.failures keeper)) }
        ensures begins { IfOk result (λ r. Goes (Load (number_of r.1)) (nothing_drawn (R.sender_floor keeper)) (own_in r.0)) }
        ensures least { IfOk result (λ r. (R.received_floor keeper ≤ r.2) × (R.received_floor r.0.keeper ≡ R.received_floor keeper)) }
        ensures received { IfOk result (λ r. (received_in r.0 ≡ r.2) × (ahead_in r.0 ≡ ahead)) }
        ensures refused { IfErr result (λ e. RefusesPeer R.loads R.failures keeper e.0 e.1) }
    {
        let Ok(kept) = keeper.load() else {
            return Err((KeptError::KeeperFailed, keeper));
        };
        let numbers = match Numbers::begin(kept.sender) {
            Ok(numbers) => numbers,
            Err(error) => return Err((lift(error), keeper)),
        };
        let Some(first) = Piv::new(kept.sender) else {
            unreachable!()
        };
        let source = PeerSource {
            keeper,
            numbers,
            in_hand: None,
            received: kept.received,
            saved: 0,
            ahead,
        };
        Ok((source, first, kept.received))
    }

    /// Begins at 0 with nothing reserved, over a record without a floor of the sender's number, and with the received number that it loaded.
    pub(crate) fn resting(keeper: R, received: u64, ahead: u64) -> PeerSource<R>
        requires none { R.sender_floor keeper ≡ 0 }
        requires least { R.received_floor keeper ≤ received }
        ensures numbers { own_in result ≡ nothing_drawn 0 }
        ensures keeper { result.keeper ≡ keeper }
        ensures received { (received_in result ≡ received) × (ahead_in result ≡ ahead) }
    {
        PeerSource {
            keeper,
            numbers: resting_at(0),
            in_hand: None,
            received,
            saved: 0,
            ahead,
        }
    }

    /// Returns the number with which the peer seals next, or 2^40 if none is left.
    pub(crate) fn upcoming(&self) -> u64
        ensures value { result ≡ upcoming (own_in self.now) }
        ensures most { result ≤ 2 ^ 40 }
    {
        match self.in_hand {
            Some(number) => number.number(),
            None => self.numbers.upcoming(),
        }
    }

    /// Returns how many received numbers more are kept with each that is received.
    pub(crate) fn ahead(&self) -> u64
        ensures { result ≡ ahead_in self.now }
    {
        self.ahead
    }

    /// Draws the next number if none is in hand, unless none is left. If the record fails, the numbers don't change.
    pub(crate) fn draw(&mut self) -> Result<(), KeeperError>
        ensures drawn { IsOk result → Draws true (own_in self.old) (own_in self.new) }
        ensures received { (received_in self.new ≡ received_in self.old) × (ahead_in self.new ≡ ahead_in self.old) }
        ensures rises { R.received_floor self.old.keeper ≤ R.received_floor self.new.keeper }
        ensures left { IsErr result → own_in self.new ≡ own_in self.old }
        ensures failed { IsErr result → R.failures self.new.keeper ≡ R.failures self.old.keeper + 1 }
        ensures worked { IsOk result → R.failures self.new.keeper ≡ R.failures self.old.keeper }
    {
        if self.in_hand.is_some() {
            return Ok(());
        }
        if let Some(sender) = self.numbers.to_save() {
            let received = self.received;
            self.keeper.save(KeptNumbers { sender, received })?;
            self.numbers.reserve(sender);
        }
        self.in_hand = self.numbers.give();
        Ok(())
    }

    /// Keeps that a request with this number was received: the record then has a greater number, or else one that is greater by `ahead` + 1,
    /// at most 2^40, is saved. Call it before the request is delivered. One save keeps both numbers. If the record fails, the numbers don't
    /// change.
    pub(crate) fn receive(&mut self, number: Piv) -> Result<(), KeeperError>
        ensures kept { IsOk result → number_of number < R.received_floor self.new.keeper }
        ensures received { IfOk result (λ x. received_in self.new ≤ received_with (ahead_in self.old) (received_in self.old) (number_of number)) }
        ensures left { IsErr result → received_in self.new ≡ received_in self.old }
        ensures ahead { ahead_in self.new ≡ ahead_in self.old }
        ensures kept_on { IsKeptOn (own_in self.old) (own_in self.new) }
        ensures rises { R.received_floor self.old.keeper ≤ R.received_floor self.new.keeper }
        ensures failed { IsErr result → R.failures self.new.keeper ≡ R.failures self.old.keeper + 1 }
        ensures worked { IsOk result → R.failures self.new.keeper ≡ R.failures self.old.keeper }
    {
        if number.number() < self.saved {
            return Ok(());
        }
        let sender = self.numbers.limit();
        let above = number.number() + 1;
        let received = self
            .received
            .max(above.max(LIMIT.min(above.saturating_add(self.ahead))));
        self.keeper.save(KeptNumbers { sender, received })?;
        self.received = received;
        self.saved = received;
        Ok(())
    }
}
