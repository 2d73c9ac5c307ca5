//! A record of two keepers, one of which goes from context to context: where several contexts have one Sender Key, they need one source of
//! Sender Sequence Numbers, but each has received numbers of its own (RFC 8613, 3.3, 5.2 and 7.2.1).

ghost use Rattle.std.specs.Prelude.{◌≡◌, ◌+◌, ◌≤◌, IfOk, IsErr, IsNone, IsOk};
ghost use Rattle.std.specs.Option.{ForSome};
ghost use Rattle.osc_context.specs.Fingerprint.{fingerprint_of};
ghost use Rattle.osc_context.specs.Views.{as_client};
ghost use Rattle.osc_kept_ends.specs.Sharing.{LoadsIfThere, floor_if_there};

use osc_context::{Context, Count, Keeper, KeeperError, KeptNumbers, RecordKeeper};

/// The keeper of the Sender Sequence Numbers of a Sender Key, and what it saved last.
#[derive(Drop)]
pub(crate) struct SenderKeeper<K: Keeper> {
    pub(crate) keeper: K,
    saved: Option<u64>,
    pub ghost exact: { ForSome saved (λ n. K.floor keeper ≡ n) },
}

impl<K: Keeper> SenderKeeper<K> {
    pub(crate) fn new(keeper: K) -> SenderKeeper<K>
        ensures { result.keeper ≡ keeper }
    {
        SenderKeeper {
            keeper,
            saved: None,
        }
    }

    pub(crate) fn into_keeper(self) -> K
        ensures { result ≡ self.keeper }
    {
        let SenderKeeper { keeper, .. } = self;
        keeper
    }

    /// Returns the number that is kept.
    fn load(&mut self) -> Result<u64, KeeperError>
        ensures loaded { IfOk result (λ n. K.loads self.old.keeper n self.new.keeper) }
        ensures least { IfOk result (λ n. K.floor self.old.keeper ≤ n) }
        ensures floor_stays { K.floor self.new.keeper ≡ K.floor self.old.keeper }
    {
        self.keeper.load()
    }

    /// Saves the number, unless it is what was saved last.
    fn save(&mut self, next: u64) -> Result<(), KeeperError>
        requires { K.floor self.old.keeper ≤ next }
        ensures saved { IsOk result → K.floor self.new.keeper ≡ next }
        ensures floor_stays { IsErr result → K.floor self.new.keeper ≡ K.floor self.old.keeper }
    {
        if let Some(saved) = self.saved {
            if saved == next {
                return Ok(());
            }
        }
        self.keeper.save(next)?;
        self.saved = Some(next);
        Ok(())
    }
}

/// The keeper of the received number of a context, and what is known of it.
#[derive(Drop)]
pub(crate) struct ReceivedKeeper<Q: Keeper> {
    pub(crate) keeper: Q,
    // What a save of both numbers kept, or 0.
    pub(crate) saved: u64,
    // The keeper's floor is at most this number, once one was loaded.
    greatest: Option<u64>,
    pub ghost least: { saved ≤ Q.floor keeper },
    pub ghost most: { ForSome greatest (λ n. Q.floor keeper ≤ n) },
}

impl<Q: Keeper> ReceivedKeeper<Q> {
    pub(crate) fn new(keeper: Q) -> ReceivedKeeper<Q>
        ensures keeper { result.keeper ≡ keeper }
        ensures saved { result.saved ≡ 0 }
    {
        ReceivedKeeper {
            keeper,
            saved: 0,
            greatest: None,
        }
    }

    pub(crate) fn into_keeper(self) -> Q
        ensures { result ≡ self.keeper }
    {
        let ReceivedKeeper { keeper, .. } = self;
        keeper
    }

    /// Returns the number that is kept.
    pub(crate) fn load(&mut self) -> Result<u64, KeeperError>
        ensures loaded { IfOk result (λ n. Q.loads self.old.keeper n self.new.keeper) }
        ensures least { IfOk result (λ n. Q.floor self.old.keeper ≤ n) }
        ensures worked { IsOk result → Q.failures self.new.keeper ≡ Q.failures self.old.keeper }
        ensures failed { IsErr result → Q.failures self.new.keeper ≡ Q.failures self.old.keeper + 1 }
        ensures same { self.new.saved ≡ self.old.saved }
    {
        let number = self.keeper.load()?;
        self.greatest = Some(number);
        Ok(number)
    }

    /// Keeps the number, or a greater one that the keeper has, unless it is what was saved last. Fails if nothing was loaded.
    fn save(&mut self, number: u64) -> Result<(), KeeperError>
        ensures kept { IsOk result → number ≤ Q.floor self.new.keeper }
        ensures same { self.new.saved ≡ self.old.saved }
    {
        if number == self.saved {
            return Ok(());
        }
        let Some(greatest) = self.greatest else {
            return Err(KeeperError);
        };
        let kept = greatest.max(number);
        self.keeper.save(kept)?;
        self.greatest = Some(kept);
        Ok(())
    }

    /// Notes that both numbers were saved.
    fn note(&mut self, number: u64)
        requires { number ≤ Q.floor self.old.keeper }
        ensures { self.new.saved ≡ number }
    {
        self.saved = number;
    }
}

/// Loads both numbers.
fn load_both<K: Keeper, Q: Keeper>(
    sender: &mut SenderKeeper<K>,
    received: &mut ReceivedKeeper<Q>,
) -> Result<KeptNumbers, KeeperError>
    ensures loads_sender { IfOk result (λ kept. K.loads sender.old.keeper kept.sender sender.new.keeper) }
    ensures loads_received { IfOk result (λ kept. Q.loads received.old.keeper kept.received received.new.keeper) }
    ensures least_sender { IfOk result (λ kept. K.floor sender.old.keeper ≤ kept.sender) }
    ensures least_received { IfOk result (λ kept. Q.floor received.old.keeper ≤ kept.received) }
    ensures sender_stays { K.floor sender.new.keeper ≡ K.floor sender.old.keeper }
    ensures received_stays { received.new.saved ≡ received.old.saved }
{
    let next = sender.load()?;
    let number = received.load()?;
    Ok(KeptNumbers {
        sender: next,
        received: number,
    })
}

/// Saves what changed of both numbers. The received one comes first: if the other one fails then, no Sender Sequence Number is reserved.
fn save_both<K: Keeper, Q: Keeper>(
    sender: &mut SenderKeeper<K>,
    received: &mut ReceivedKeeper<Q>,
    kept: KeptNumbers,
) -> Result<(), KeeperError>
    requires { K.floor sender.old.keeper ≤ kept.sender }
    ensures saved { IsOk result → (K.floor sender.new.keeper ≡ kept.sender) × (received.new.saved ≡ kept.received) }
    ensures floor_stays { IsErr result → (K.floor sender.new.keeper ≡ K.floor sender.old.keeper) × (received.new.saved ≡ received.old.saved) }
{
    received.save(kept.received)?;
    sender.save(kept.sender)?;
    received.note(kept.received);
    Ok(())
}

/// Counts a failure, and returns the error.
fn failed(failures: &mut Count) -> KeeperError
    ensures { failures.new.value ≡ failures.old.value + 1 }
{
    *failures = Count::one_more(failures);
    KeeperError
}

/// A record of one of several contexts that have one Sender Key. The keeper of the received number is this context's own; the keeper of the
/// Sender Sequence Numbers is that of the key, and is here only while it is this context's turn. While it isn't, each load and each save
/// fails, so nothing is drawn, and nothing is sealed with a number of its own. A save writes only what changed since the last one, first the
/// received number. If the second of two fails, the next life loads the numbers of before, or these.
#[derive(Drop)]
pub struct SharedRecord<K: Keeper, Q: Keeper> {
    // What the context's Sender Key is told by.
    pub(crate) fingerprint: [u8; 8],
    pub(crate) sender: Option<SenderKeeper<K>>,
    pub(crate) received: ReceivedKeeper<Q>,
    pub(crate) failures: Count,
}

impl<K: Keeper, Q: Keeper> SharedRecord<K, Q> {
    ghost use Rattle.osc_kept_ends.specs.SharedOwning.{fingerprint_in, received_in, sender_in};

    /// Makes the record of a context from the keeper of the Sender Sequence Numbers of its Sender Key, and that of its received number. No
    /// other record may have a keeper of that key: further contexts start without one (`KeptPeer::start_resting`).
    pub fn new(context: &Context, sender: K, received: Q) -> SharedRecord<K, Q>
        ensures sender { sender_in result ≡ Some sender }
        ensures received { received_in result ≡ received }
        ensures fingerprint { fingerprint_in result ≡ fingerprint_of (as_client context.now).client_key (as_client context.now).client }
        ensures floors { (⟦<SharedRecord<K, Q> as RecordKeeper>⟧.sender_floor result ≡ K.floor sender) × (⟦<SharedRecord<K, Q> as RecordKeeper>⟧.received_floor result ≡ 0) }
        ensures failures { ⟦<SharedRecord<K, Q> as RecordKeeper>⟧.failures result ≡ 0 }
    {
        SharedRecord {
            fingerprint: context.fingerprint(),
            sender: Some(SenderKeeper::new(sender)),
            received: ReceivedKeeper::new(received),
            failures: Count::none(),
        }
    }

    /// Returns both keepers, the one of the Sender Sequence Numbers only if it is here.
    pub fn into_keepers(self) -> (Option<K>, Q)
        ensures sender { result.0 ≡ sender_in self }
        ensures received { result.1 ≡ received_in self }
    {
        let SharedRecord {
            sender,
            received,
            ..
        } = self;
        let received = received.into_keeper();
        match sender {
            Some(sender) => (Some(sender.into_keeper()), received),
            None => (None, received),
        }
    }
}

impl<K: Keeper, Q: Keeper> RecordKeeper for SharedRecord<K, Q> {
    ghost use Rattle.osc_kept_ends.specs.SharedOwning.{keeper_in};

    ghost sender_floor = { λ r. floor_if_there K.floor (keeper_in r.sender) };

    ghost received_floor = { λ r. r.received.saved };

    ghost failures = { λ r. r.failures.value };

    ghost loads = { λ old sender received new. LoadsIfThere K.loads (keeper_in old.sender) sender (keeper_in new.sender)
        × Q.loads old.received.keeper received new.received.keeper × (Q.floor old.received.keeper ≤ received) };

    /// Returns both numbers. Fails while the keeper of the Sender Sequence Numbers isn't here.
    fn load(&mut self) -> Result<KeptNumbers, KeeperError>
        ensures loaded { IfOk result (λ kept. LoadsIfThere K.loads (keeper_in self.old.sender) kept.sender (keeper_in self.new.sender)
            × Q.loads self.old.received.keeper kept.received self.new.received.keeper × (Q.floor self.old.received.keeper ≤ kept.received)) }
        ensures least { IfOk result (λ kept. (floor_if_there K.floor (keeper_in self.old.sender) ≤ kept.sender) × (self.old.received.saved ≤ kept.received)) }
        ensures floor_stays { (floor_if_there K.floor (keeper_in self.new.sender) ≡ floor_if_there K.floor (keeper_in self.old.sender)) × (self.new.received.saved ≡ self.old.received.saved) }
        ensures worked { IsOk result → self.new.failures.value ≡ self.old.failures.value }
        ensures failed { IsErr result → self.new.failures.value ≡ self.old.failures.value + 1 }
        ensures rests { IsNone (keeper_in self.old.sender) → IsErr result × IsNone (keeper_in self.new.sender) }
    {
        let Some(sender) = &mut self.sender else {
            return Err(failed(&mut self.failures));
        };
        match load_both(sender, &mut self.received) {
            Ok(kept) => Ok(kept),
            Err(KeeperError) => Err(failed(&mut self.failures)),
        }
    }

    /// Saves what changed of both numbers since the last save. Fails while the keeper of the Sender Sequence Numbers isn't here.
    fn save(&mut self, kept: KeptNumbers) -> Result<(), KeeperError>
        requires sender { floor_if_there K.floor (keeper_in self.old.sender) ≤ kept.sender }
        requires received { self.old.received.saved ≤ kept.received }
        ensures saved { IsOk result → (floor_if_there K.floor (keeper_in self.new.sender) ≡ kept.sender) × (self.new.received.saved ≡ kept.received) }
        ensures floor_stays { IsErr result → (floor_if_there K.floor (keeper_in self.new.sender) ≡ floor_if_there K.floor (keeper_in self.old.sender)) × (self.new.received.saved ≡ self.old.received.saved) }
        ensures worked { IsOk result → self.new.failures.value ≡ self.old.failures.value }
        ensures failed { IsErr result → self.new.failures.value ≡ self.old.failures.value + 1 }
        ensures rests { IsNone (keeper_in self.old.sender) → IsErr result × IsNone (keeper_in self.new.sender) }
    {
        let Some(sender) = &mut self.sender else {
            return Err(failed(&mut self.failures));
        };
        match save_both(sender, &mut self.received, kept) {
            Ok(()) => Ok(()),
            Err(KeeperError) => Err(failed(&mut self.failures)),
        }
    }
}
