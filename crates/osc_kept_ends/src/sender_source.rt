//! The source of the Sender Sequence Numbers of a Sender Key, while no peer has it (RFC 8613, 7.2.1).

ghost use Rattle.std.specs.Prelude.{◌≡◌, ◌↔◌, ℕ, IfErr, IfNone, IfOk, IfSome, IsNone, IsSome};
ghost use Rattle.osc_context.specs.Fingerprint.{fingerprint_of};
ghost use Rattle.osc_context.specs.Reserving.{Covers};
ghost use Rattle.osc_context.specs.Views.{as_client, limit_of, next_of};
ghost use Rattle.osc_kept_ends.specs.Numbering.{Goes, Load, nothing_drawn, upcoming};
ghost use Rattle.osc_kept_ends.specs.Refusals.{Loaded, RefusesAt};
ghost use Rattle.osc_kept_ends.specs.Sharing.{at_rest};
ghost use Rattle.osc_kept_ends.specs.Views.{IsLastDrawn};

use crate::kept_error::{KeptError, lift};
use crate::peer_source::{PeerSource, resting_at};
use crate::shared_record::{SenderKeeper, SharedRecord};
use crate::source::Source;
use osc_context::{Context, Keeper, Numbers, Piv};
use std::mem;

/// The source of the Sender Sequence Numbers of a Sender Key: their keeper, what it reserved, and at most one number that was drawn and isn't
/// used yet. Contexts with one Sender Key need one such source, or two of their texts share key and nonce (RFC 8613, 5.2 and D.4). It goes
/// from peer to peer by `KeptPeer::release` and `KeptPeer::adopt`. A source that is dropped passes over what it reserved.
#[derive(Drop)]
pub struct SenderSource<K: Keeper> {
    // What the Sender Key is told by.
    pub(crate) fingerprint: [u8; 8],
    pub(crate) keeper: SenderKeeper<K>,
    pub(crate) numbers: Numbers,
    // Drawn, and not used yet.
    pub(crate) in_hand: Option<Piv>,
    pub ghost covered: { Covers (K.floor keeper.keeper) (next_of numbers) (limit_of numbers) },
    pub ghost last_drawn: { IsLastDrawn in_hand (next_of numbers) },
}

impl<K: Keeper> SenderSource<K> {
    ghost use Rattle.osc_kept_ends.specs.SharedOwning.{fingerprint_from, keeper_from, own_from};
    ghost use Rattle.osc_kept_ends.specs.Owning.{own_in as own_of_end};

    /// Begins at the number that the keeper loads. The context is any of those that have the Sender Key. Returns the first refusal in the
    /// order of `KeptError`, with the keeper; `LivesExhausted` never comes.
    pub fn start(context: &Context, keeper: K) -> Result<SenderSource<K>, (KeptError, K)>
        ensures begins { IfOk result (λ s. (n : ℕ) × Loaded K.loads K.failures keeper n (keeper_from s) × Goes (Load n) (nothing_drawn (K.floor keeper)) (own_from s)) }
        ensures fingerprint { IfOk result (λ s. fingerprint_from s ≡ fingerprint_of (as_client context.now).client_key (as_client context.now).client) }
        ensures refused { IfErr result (λ e. RefusesAt K.loads K.failures keeper e.0 e.1) }
    {
        match Source::start(keeper) {
            Ok((source, _first)) => Ok(SenderSource::of(context.fingerprint(), source)),
            Err((error, keeper)) => Err((lift(error), keeper)),
        }
    }

    /// Makes the source of a Sender Key of the numbers of an end.
    fn of(fingerprint: [u8; 8], source: Source<K>) -> SenderSource<K>
        ensures numbers { own_from result ≡ own_of_end source }
        ensures keeper { keeper_from result ≡ source.keeper }
        ensures fingerprint { fingerprint_from result ≡ fingerprint }
    {
        let Source {
            keeper,
            numbers,
            in_hand,
        } = source;
        SenderSource {
            fingerprint,
            keeper: SenderKeeper::new(keeper),
            numbers,
            in_hand,
        }
    }

    /// Returns the number with which an end of the Sender Key seals next, or 2^40 if none is left.
    #[must_use]
    pub fn upcoming(&self) -> u64
        ensures { result ≡ upcoming (own_from self.now) }
    {
        match self.in_hand {
            Some(number) => number.number(),
            None => self.numbers.upcoming(),
        }
    }

    /// Ends the source, and returns its keeper. What it reserved is passed over.
    pub fn into_keeper(self) -> K
        ensures { result ≡ keeper_from self }
    {
        let SenderSource { keeper, .. } = self;
        keeper.into_keeper()
    }
}

impl<K: Keeper + Drop, Q: Keeper + Drop> PeerSource<SharedRecord<K, Q>> {
    ghost use Rattle.osc_kept_ends.specs.PeerOwning.{ahead_in, own_in, received_in as known_in};
    ghost use Rattle.osc_kept_ends.specs.SharedOwning.{fingerprint_from, fingerprint_in, own_from, sender_in};

    /// Gives the source away, if it is here. Then none is here, and the peer goes on with the same number once it has one again.
    pub(crate) fn release(&mut self) -> Option<SenderSource<K>>
        ensures given { IfSome result (λ s. (own_from s ≡ own_in self.old) × (fingerprint_from s ≡ fingerprint_in self.old.keeper)) }
        ensures rests { IsSome result → own_in self.new ≡ at_rest (upcoming (own_in self.old)) }
        ensures next { upcoming (own_in self.new) ≡ upcoming (own_in self.old) }
        ensures there { IsSome result ↔ IsSome (sender_in self.old.keeper) }
        ensures none { IsNone (sender_in self.new.keeper) }
        ensures left { IfNone result (own_in self.new ≡ own_in self.old) }
        ensures received { self.new.keeper.received ≡ self.old.keeper.received }
        ensures same { (fingerprint_in self.new.keeper ≡ fingerprint_in self.old.keeper) × (self.new.keeper.failures ≡ self.old.keeper.failures) }
        ensures ahead { (known_in self.new ≡ known_in self.old) × (ahead_in self.new ≡ ahead_in self.old) }
    {
        let next = self.upcoming();
        let Some(keeper) = self.keeper.sender.take() else {
            return None;
        };
        let fingerprint = self.keeper.fingerprint;
        let numbers = mem::replace(&mut self.numbers, resting_at(next));
        let in_hand = self.in_hand.take();
        Some(SenderSource {
            fingerprint,
            keeper,
            numbers,
            in_hand,
        })
    }

    /// Takes a source in the place of what was here.
    pub(crate) fn adopt(&mut self, source: SenderSource<K>)
        ensures carried { own_in self.new ≡ own_from source }
        ensures there { IsSome (sender_in self.new.keeper) }
        ensures received { self.new.keeper.received ≡ self.old.keeper.received }
        ensures same { (fingerprint_in self.new.keeper ≡ fingerprint_in self.old.keeper) × (self.new.keeper.failures ≡ self.old.keeper.failures) }
        ensures ahead { (known_in self.new ≡ known_in self.old) × (ahead_in self.new ≡ ahead_in self.old) }
    {
        let SenderSource {
            keeper,
            numbers,
            in_hand,
            ..
        } = source;
        self.keeper.sender = Some(keeper);
        self.numbers = numbers;
        self.in_hand = in_hand;
    }
}
