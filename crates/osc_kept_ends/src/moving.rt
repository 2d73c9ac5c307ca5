//! How the source of a Sender Key goes from peer to peer, where several contexts have that key (RFC 8613, 3.3, 5.2 and 7.2.1).

ghost use Rattle.std.specs.Prelude.{◌≡◌, ◌<◌, ◌≤◌, ◌^◌, ◌↔◌, ℕ, IfErr, IfNone, IfOk, IfSome, IsNone, IsOk, IsSome, IsTrue, OnErr};
ghost use Rattle.osc_context.specs.Fingerprint.{fingerprint_of};
ghost use Rattle.osc_context.specs.Views.{as_client, as_server, number_of};
ghost use Rattle.osc_client.specs.ClientHistory as asked;
ghost use Rattle.osc_life.specs.ServerHistory as served;
ghost use Rattle.osc_life.specs.declared.start.Start.{Start as StartOf};
ghost use Rattle.osc_kept_ends.specs.Numbering.{nothing_drawn, upcoming};
ghost use Rattle.osc_kept_ends.specs.PeerOwning.{ahead_in, own_in, received_in as known_in};
ghost use Rattle.osc_kept_ends.specs.Peering.{ClientIsBehind, ServerIsBehind};
ghost use Rattle.osc_kept_ends.specs.Refusals.{Loaded};
ghost use Rattle.osc_kept_ends.specs.Sharing.{Adopts, IsRestingStart, RefusesResting, RefusesToAdopt, RefusesToTakeOver, at_rest};
ghost use Rattle.osc_kept_ends.specs.declared.kept_error.KeptError.TheVariants.{KeptTooLarge};

use crate::adopt_error::AdoptError;
use crate::kept_error::KeptError;
use crate::kept_peer::KeptPeer;
use crate::peer_source::PeerSource;
use crate::sender_source::SenderSource;
use crate::shared_record::{ReceivedKeeper, SharedRecord};
use osc_context::{Context, Count, Keeper, Piv, RecordKeeper};
use osc_endpoint::Start;
use osc_window::WindowSize;

/// Returns how a life begins without a source, with the received number that was loaded, if received numbers are kept so many ahead.
fn resting_start(first: Piv, received: u64, ahead: u64) -> Result<Start, KeptError>
    requires { number_of first ≡ 0 }
    ensures begins { IfOk result (λ start. IsRestingStart ahead start received) }
    ensures refused { IfErr result (λ e. (e ≡ KeptTooLarge) × (2 ^ 40 < received)) }
{
    match received {
        0 => Ok(Start::Restarted(first)),
        received => match Piv::new(received - 1) {
            Some(highest) if ahead == 0 => Ok(Start::Received {
                next: first,
                highest,
            }),
            Some(highest) => Ok(Start::Reserved {
                next: first,
                highest,
                ahead,
            }),
            None => Err(KeptError::KeptTooLarge),
        },
    }
}

/// Loads the received number of a context that has no source, and returns it with how its life begins. A refusal gives the keeper back.
fn load_resting<Q: Keeper>(
    received: Q,
    first: Piv,
    ahead: u64,
) -> Result<(ReceivedKeeper<Q>, u64, Start), (KeptError, Q)>
    requires { number_of first ≡ 0 }
    ensures loaded { IfOk result (λ r. Loaded Q.loads Q.failures received r.1 r.0.keeper × (Q.floor received ≤ r.1)) }
    ensures begins { IfOk result (λ r. IsRestingStart ahead r.2 r.1) }
    ensures saved { IfOk result (λ r. r.0.saved ≡ 0) }
    ensures refused { IfErr result (λ e. RefusesResting Q.loads Q.failures received e.0 e.1) }
{
    let mut received = ReceivedKeeper::new(received);
    let Ok(number) = received.load() else {
        return Err((KeptError::KeeperFailed, received.into_keeper()));
    };
    match resting_start(first, number, ahead) {
        Ok(start) => Ok((received, number, start)),
        Err(error) => Err((error, received.into_keeper())),
    }
}

/// Returns whether two fingerprints are the same.
fn is_same(one: &[u8; 8], other: &[u8; 8]) -> bool
    ensures { IsTrue result ↔ (one.now ≡ other.now) }
{
    one == other
}

impl<K: Keeper + Drop, Q: Keeper + Drop, const N: usize> KeptPeer<SharedRecord<K, Q>, N> {
    ghost use Rattle.osc_kept_ends.specs.SharedOwning.{fingerprint_from, fingerprint_in, own_from, received_in, sender_in};

    /// Starts a peer of a context without a source: it rests until it adopts that of its Sender Key. It loads the received number alone, and
    /// draws and saves nothing. It never starts fresh: if no received number was kept, a challenge decides about the first request. `ahead` is
    /// as for `start_ahead`. Returns the first refusal in the order of `KeptError`, `KeeperFailed` or `KeptTooLarge`; a refusal gives the
    /// keeper back and drops the context.
    pub fn start_resting(
        context: Context,
        received: Q,
        size: WindowSize,
        life_ms: u64,
        ahead: u64,
    ) -> Result<KeptPeer<SharedRecord<K, Q>, N>, (KeptError, Q)>
        ensures begins { IfOk result (λ p. (n : ℕ) × (start : StartOf) × Loaded Q.loads Q.failures received n (received_in p.source.keeper) × (Q.floor received ≤ n)
            × IsRestingStart ahead start n × (own_in p.source ≡ nothing_drawn 0) × IsNone (sender_in p.source.keeper)
            × ServerIsBehind p.server 0 (served.Then served.Begin (served.Add (as_server context) start size 1) (served.Added 0))
            × ClientIsBehind p.client 0 (asked.New (as_client context) 0 life_ms)) }
        ensures fingerprint { IfOk result (λ p. fingerprint_in p.source.keeper ≡ fingerprint_of (as_client context).client_key (as_client context).client) }
        ensures ahead { IfOk result (λ p. ahead_in p.source ≡ ahead) }
        ensures refused { IfErr result (λ e. RefusesResting Q.loads Q.failures received e.0 e.1) }
    {
        let Some(first) = Piv::new(0) else {
            unreachable!()
        };
        let fingerprint = context.fingerprint();
        let (received, number, start) = load_resting(received, first, ahead)?;
        let record = SharedRecord {
            fingerprint,
            sender: None,
            received,
            failures: Count::none(),
        };
        let source = PeerSource::resting(record, number, ahead);
        Ok(KeptPeer::begin(context, source, start, first, size, life_ms))
    }

    /// Returns whether the source is here. While it isn't, nothing is drawn and nothing is saved: what needs that returns KeeperFailed.
    #[must_use]
    pub fn has_source(&self) -> bool
        ensures { IsTrue result ↔ IsSome (sender_in self.now.source.keeper) }
    {
        self.source.keeper.sender.is_some()
    }

    /// Gives the source of the Sender Key away, for another peer to adopt, and rests from then on. Returns None if it isn't here.
    pub fn release(&mut self) -> Option<SenderSource<K>>
        ensures given { IfSome result (λ s. (own_from s ≡ own_in self.old.source) × (fingerprint_from s ≡ fingerprint_in self.old.source.keeper)) }
        ensures rests { IsSome result → own_in self.new.source ≡ at_rest (upcoming (own_in self.old.source)) }
        ensures there { IsSome result ↔ IsSome (sender_in self.old.source.keeper) }
        ensures none { IsNone (sender_in self.new.source.keeper) }
        ensures left { IfNone result (own_in self.new.source ≡ own_in self.old.source) }
        ensures received { (received_in self.new.source.keeper ≡ received_in self.old.source.keeper)
            × (⟦<SharedRecord<K, Q> as RecordKeeper>⟧.received_floor self.new.source.keeper ≡ ⟦<SharedRecord<K, Q> as RecordKeeper>⟧.received_floor self.old.source.keeper) }
        ensures worked { ⟦<SharedRecord<K, Q> as RecordKeeper>⟧.failures self.new.source.keeper ≡ ⟦<SharedRecord<K, Q> as RecordKeeper>⟧.failures self.old.source.keeper }
        ensures same { (self.new.server ≡ self.old.server) × (self.new.client ≡ self.old.client) × (fingerprint_in self.new.source.keeper ≡ fingerprint_in self.old.source.keeper) }
        ensures ahead { (known_in self.new.source ≡ known_in self.old.source) × (ahead_in self.new.source ≡ ahead_in self.old.source) }
    {
        self.source.release()
    }

    /// Takes the source of the Sender Key: it goes on with it as the peer did that gave it away, with the number in hand if there was one.
    /// What it received stays. Returns the first refusal in the order of `AdoptError`, with the source, and then nothing changes.
    pub fn adopt(&mut self, source: SenderSource<K>) -> Result<(), (AdoptError, SenderSource<K>)>
        ensures carried { IsOk result → own_in self.new.source ≡ own_from source }
        ensures accepted { IsOk result → Adopts (fingerprint_in self.old.source.keeper) (fingerprint_from source) (sender_in self.old.source.keeper) (upcoming (own_in self.old.source)) (upcoming (own_from source)) }
        ensures there { IsOk result → IsSome (sender_in self.new.source.keeper) }
        ensures received { (received_in self.new.source.keeper ≡ received_in self.old.source.keeper)
            × (⟦<SharedRecord<K, Q> as RecordKeeper>⟧.received_floor self.new.source.keeper ≡ ⟦<SharedRecord<K, Q> as RecordKeeper>⟧.received_floor self.old.source.keeper) }
        ensures worked { ⟦<SharedRecord<K, Q> as RecordKeeper>⟧.failures self.new.source.keeper ≡ ⟦<SharedRecord<K, Q> as RecordKeeper>⟧.failures self.old.source.keeper }
        ensures same { (self.new.server ≡ self.old.server) × (self.new.client ≡ self.old.client) × (fingerprint_in self.new.source.keeper ≡ fingerprint_in self.old.source.keeper) }
        ensures ahead { (known_in self.new.source ≡ known_in self.old.source) × (ahead_in self.new.source ≡ ahead_in self.old.source) }
        ensures refused { IfErr result (λ e. RefusesToAdopt (fingerprint_in self.old.source.keeper) (fingerprint_from source) (sender_in self.old.source.keeper) (upcoming (own_in self.old.source)) (upcoming (own_from source)) e.0) }
        ensures unchanged { IfErr result (λ e. (e.1 ≡ source) × (self.new ≡ self.old)) }
    {
        if !is_same(&self.source.keeper.fingerprint, &source.fingerprint) {
            return Err((AdoptError::OtherSender, source));
        }
        if self.has_source() {
            return Err((AdoptError::HasSource, source));
        }
        if source.upcoming() < self.upcoming() {
            return Err((AdoptError::Behind, source));
        }
        self.source.adopt(source);
        Ok(())
    }

    /// Takes the source of the Sender Key from another peer: that one releases it, and this one adopts it. Returns the first refusal in the
    /// order of `AdoptError`, and then both peers have what they had.
    pub fn take_over(
        &mut self,
        from: &mut KeptPeer<SharedRecord<K, Q>, N>,
    ) -> Result<(), AdoptError>
        ensures carried { IsOk result → own_in self.new.source ≡ own_in from.old.source }
        ensures rests { IsOk result → (own_in from.new.source ≡ at_rest (upcoming (own_in from.old.source))) × IsNone (sender_in from.new.source.keeper) }
        ensures there { IsOk result → IsSome (sender_in self.new.source.keeper) }
        ensures accepted { IsOk result → Adopts (fingerprint_in self.old.source.keeper) (fingerprint_in from.old.source.keeper) (sender_in self.old.source.keeper) (upcoming (own_in self.old.source)) (upcoming (own_in from.old.source)) }
        ensures refused { IfErr result (λ e. RefusesToTakeOver (fingerprint_in self.old.source.keeper) (fingerprint_in from.old.source.keeper) (sender_in self.old.source.keeper) (sender_in from.old.source.keeper)
            (upcoming (own_in self.old.source)) (upcoming (own_in from.old.source)) e) }
        ensures unchanged { OnErr result ((self.new ≡ self.old) × (own_in from.new.source ≡ own_in from.old.source)) }
        ensures same { (self.new.server ≡ self.old.server) × (self.new.client ≡ self.old.client) × (from.new.server ≡ from.old.server) × (from.new.client ≡ from.old.client) }
        ensures ahead { (known_in self.new.source ≡ known_in self.old.source) × (ahead_in self.new.source ≡ ahead_in self.old.source)
            × (known_in from.new.source ≡ known_in from.old.source) × (ahead_in from.new.source ≡ ahead_in from.old.source) }
        ensures received { (⟦<SharedRecord<K, Q> as RecordKeeper>⟧.received_floor self.new.source.keeper ≡ ⟦<SharedRecord<K, Q> as RecordKeeper>⟧.received_floor self.old.source.keeper)
            × (⟦<SharedRecord<K, Q> as RecordKeeper>⟧.received_floor from.new.source.keeper ≡ ⟦<SharedRecord<K, Q> as RecordKeeper>⟧.received_floor from.old.source.keeper) }
    {
        let Some(source) = from.release() else {
            return Err(AdoptError::NoSource);
        };
        let Err((error, source)) = self.adopt(source) else {
            return Ok(());
        };
        let Ok(()) = from.adopt(source) else {
            unreachable!()
        };
        Err(error)
    }
}
