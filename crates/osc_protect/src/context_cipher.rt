//! The cipher of a context's keys: in constant time, or by tables if the context asks for that.

ghost use Rattle.std.specs.Prelude.{◌≡◌, ◌+◌, ◌++◌, ◌≤◌, ℕ, List, length, take, drop, IfOk, IsOk, OnOk, OnErr};
ghost use Rattle.osc_aes.specs.Keyed.{narrow_key_of};
ghost use Rattle.osc_ccm.specs.Ccm.{ccm, tag_length};
ghost use Rattle.osc_protect.specs.ContextCipher.{is_in_constant_time, key_under, keeps_constant_time, kept_key, schedule_key, schedule_key_length};

use osc_aes::{BlockCipher, NarrowPlanes, PlaneAes, TableAes};
use osc_ccm::{Key, Nonce, OpenError, SealError, open, seal};

/// A schedule of either cipher. AES-CCM runs over it, so that its code is there once for both.
#[derive(Clone, Copy)]
enum Schedule<'a> {
    Tables(&'a TableAes),
    Planes(&'a PlaneAes),
}

impl BlockCipher for Schedule<'_> {
    ghost cipher_key = { λ schedule. schedule_key schedule };

    fn encrypt(&self, block: &mut [u8; 16]) {
        match self {
            Schedule::Tables(schedule) => schedule.encrypt(block),
            Schedule::Planes(schedule) => schedule.encrypt(block),
        }
    }

    fn encrypt_two(&self, first: &mut [u8; 16], second: &mut [u8; 16]) {
        match self {
            Schedule::Tables(schedule) => schedule.encrypt_two(first, second),
            Schedule::Planes(schedule) => schedule.encrypt_two(first, second),
        }
    }

    ghost key_len = { λ schedule. schedule_key_length schedule };
}

/// AES-CCM under one key of a context: over a schedule that is kept, or over one that each call makes of the key.
#[derive(Clone, Copy)]
pub(crate) enum ContextCipher<'a> {
    ByTables(&'a TableAes),
    ConstantTime(&'a NarrowPlanes),
    ByTablesOf(&'a Key),
    ConstantTimeOf(&'a Key),
}

impl<'a> ContextCipher<'a> {
    /// Returns the cipher of a key whose schedule isn't kept.
    pub(crate) fn of_key(key: &'a Key, constant_time: bool) -> ContextCipher<'a>
        ensures key { key_under result ≡ key.now }
        ensures chosen { is_in_constant_time result ≡ constant_time }
    {
        if constant_time {
            ContextCipher::ConstantTimeOf(key)
        } else {
            ContextCipher::ByTablesOf(key)
        }
    }

    /// Seals the first `len` bytes of `payload` in place, as `osc_ccm::seal` does.
    pub(crate) fn seal(
        self,
        nonce: &Nonce,
        additional_data: &[u8],
        payload: &mut [u8],
        len: usize,
    ) -> Result<usize, SealError>
        requires additional_data { length additional_data.now ≤ 65279 }
        requires plaintext { len ≤ length payload.old }
        ensures length { IfOk result (λ sealed_len. sealed_len ≡ len + tag_length) }
        ensures sealed { OnOk result (payload.new
            ≡ ccm (key_under self.entry) nonce.now additional_data.now (take len payload.old) ++ drop (len + tag_length) payload.old) }
        ensures accepts { len ≤ 65535 → len + tag_length ≤ length payload.old → IsOk result }
    {
        match self {
            ContextCipher::ByTables(schedule) => seal(
                &Schedule::Tables(schedule),
                nonce,
                additional_data,
                payload,
                len,
            ),
            ContextCipher::ConstantTime(schedule) => seal_in_kept_planes(
                schedule,
                nonce,
                additional_data,
                payload,
                len,
            ),
            ContextCipher::ByTablesOf(key) => {
                let schedule = TableAes::new(key);
                seal(
                    &Schedule::Tables(&schedule),
                    nonce,
                    additional_data,
                    payload,
                    len,
                )
            }
            ContextCipher::ConstantTimeOf(key) => {
                seal_in_planes(key, nonce, additional_data, payload, len)
            }
        }
    }

    /// Opens `payload` in place, as `osc_ccm::open` does.
    pub(crate) fn open(
        self,
        nonce: &Nonce,
        additional_data: &[u8],
        payload: &mut [u8],
    ) -> Result<usize, OpenError>
        requires { length additional_data.now ≤ 65279 }
        ensures length { IfOk result (λ len. len + tag_length ≡ length payload.old) }
        ensures opened { IfOk result (λ len. payload.old
            ≡ ccm (key_under self.entry) nonce.now additional_data.now (take len payload.new)) }
        ensures tag_stays { IfOk result (λ len. drop len payload.new ≡ drop len payload.old) }
        ensures accepts { (m : List ℕ) → length m ≤ 65535
            → payload.old ≡ ccm (key_under self.entry) nonce.now additional_data.now m → IsOk result }
        ensures unchanged { OnErr result (payload.new ≡ payload.old) }
    {
        match self {
            ContextCipher::ByTables(schedule) => open(
                &Schedule::Tables(schedule),
                nonce,
                additional_data,
                payload,
            ),
            ContextCipher::ConstantTime(schedule) => {
                open_in_kept_planes(schedule, nonce, additional_data, payload)
            }
            ContextCipher::ByTablesOf(key) => {
                let schedule = TableAes::new(key);
                open(
                    &Schedule::Tables(&schedule),
                    nonce,
                    additional_data,
                    payload,
                )
            }
            ContextCipher::ConstantTimeOf(key) => {
                open_in_planes(key, nonce, additional_data, payload)
            }
        }
    }
}

/// Seals so under a key whose planes are made here. It stays a separate call, so that the cipher by tables has no room for planes in its
/// frame.
#[inline(never)]
fn seal_in_planes(
    key: &Key,
    nonce: &Nonce,
    additional_data: &[u8],
    payload: &mut [u8],
    len: usize,
) -> Result<usize, SealError>
    requires additional_data { length additional_data.now ≤ 65279 }
    requires plaintext { len ≤ length payload.old }
    ensures length { IfOk result (λ sealed_len. sealed_len ≡ len + tag_length) }
    ensures sealed { OnOk result (payload.new
        ≡ ccm key.now nonce.now additional_data.now (take len payload.old) ++ drop (len + tag_length) payload.old) }
    ensures accepts { len ≤ 65535 → len + tag_length ≤ length payload.old → IsOk result }
{
    let planes = PlaneAes::new(key);
    seal(
        &Schedule::Planes(&planes),
        nonce,
        additional_data,
        payload,
        len,
    )
}

/// Opens so under a key whose planes are made here. It stays a separate call, as `seal_in_planes` does.
#[inline(never)]
fn open_in_planes(
    key: &Key,
    nonce: &Nonce,
    additional_data: &[u8],
    payload: &mut [u8],
) -> Result<usize, OpenError>
    requires { length additional_data.now ≤ 65279 }
    ensures length { IfOk result (λ len. len + tag_length ≡ length payload.old) }
    ensures opened { IfOk result (λ len. payload.old ≡ ccm key.now nonce.now additional_data.now (take len payload.new)) }
    ensures tag_stays { IfOk result (λ len. drop len payload.new ≡ drop len payload.old) }
    ensures accepts { (m : List ℕ) → length m ≤ 65535
        → payload.old ≡ ccm key.now nonce.now additional_data.now m → IsOk result }
    ensures unchanged { OnErr result (payload.new ≡ payload.old) }
{
    let planes = PlaneAes::new(key);
    open(&Schedule::Planes(&planes), nonce, additional_data, payload)
}

/// Seals so by planes that are kept, which are widened here. It stays a separate call, as `seal_in_planes` does.
#[inline(never)]
fn seal_in_kept_planes(
    schedule: &NarrowPlanes,
    nonce: &Nonce,
    additional_data: &[u8],
    payload: &mut [u8],
    len: usize,
) -> Result<usize, SealError>
    requires additional_data { length additional_data.now ≤ 65279 }
    requires plaintext { len ≤ length payload.old }
    ensures length { IfOk result (λ sealed_len. sealed_len ≡ len + tag_length) }
    ensures sealed { OnOk result (payload.new
        ≡ ccm (narrow_key_of schedule.now) nonce.now additional_data.now (take len payload.old) ++ drop (len + tag_length) payload.old) }
    ensures accepts { len ≤ 65535 → len + tag_length ≤ length payload.old → IsOk result }
{
    let widened = schedule.widened();
    seal(
        &Schedule::Planes(&widened),
        nonce,
        additional_data,
        payload,
        len,
    )
}

/// Opens so by planes that are kept, which are widened here. It stays a separate call, as `seal_in_planes` does.
#[inline(never)]
fn open_in_kept_planes(
    schedule: &NarrowPlanes,
    nonce: &Nonce,
    additional_data: &[u8],
    payload: &mut [u8],
) -> Result<usize, OpenError>
    requires { length additional_data.now ≤ 65279 }
    ensures length { IfOk result (λ len. len + tag_length ≡ length payload.old) }
    ensures opened { IfOk result (λ len. payload.old
        ≡ ccm (narrow_key_of schedule.now) nonce.now additional_data.now (take len payload.new)) }
    ensures tag_stays { IfOk result (λ len. drop len payload.new ≡ drop len payload.old) }
    ensures accepts { (m : List ℕ) → length m ≤ 65535
        → payload.old ≡ ccm (narrow_key_of schedule.now) nonce.now additional_data.now m → IsOk result }
    ensures unchanged { OnErr result (payload.new ≡ payload.old) }
{
    let widened = schedule.widened();
    open(&Schedule::Planes(&widened), nonce, additional_data, payload)
}

/// The schedule of one key of a context, kept from message to message.
#[derive(Drop)]
pub(crate) enum KeptSchedule {
    Tables(TableAes),
    Planes(NarrowPlanes),
}

impl KeptSchedule {
    /// Makes the schedule of a key.
    pub(crate) fn of_key(key: &Key, constant_time: bool) -> KeptSchedule
        ensures key { kept_key result ≡ key.now }
        ensures chosen { keeps_constant_time result ≡ constant_time }
    {
        if constant_time {
            KeptSchedule::Planes(NarrowPlanes::new(key))
        } else {
            KeptSchedule::Tables(TableAes::new(key))
        }
    }

    /// Returns the cipher over this schedule.
    pub(crate) fn cipher(&self) -> ContextCipher<'_>
        ensures key { key_under result ≡ kept_key self.now }
        ensures chosen { is_in_constant_time result ≡ keeps_constant_time self.now }
    {
        match self {
            KeptSchedule::Tables(schedule) => ContextCipher::ByTables(schedule),
            KeptSchedule::Planes(schedule) => ContextCipher::ConstantTime(schedule),
        }
    }
}
