//! Laws about the definitions alone. Each is the contract of a function that does nothing.

ghost use Rattle.osc_context.specs.Laws.{UsableAsClient, UsableAsServer, OneParamsRefusal, OneNonce, OneAdditionalData, NonceLen, AdditionalDataLen, OneSpelling, OneValue, ValueNumberInRange, ValueFits, ValueMostLen, NeverBoth, OneValueRefusal, ValueOrRefusal};

/// States what holds for every context, with this end as the client and as the server: both identifiers have up to 7
/// bytes and differ (RFC 8613, 3.3), the keys have 16 bytes, and the Common IV has 13 (RFC 8613, 3.2.1).
pub fn usable_contexts()
    ensures client { UsableAsClient }
    ensures server { UsableAsServer }
{}

/// States that a context that is refused has only one first reason (RFC 8613, 3.2 and 3.3; own rule: the limits).
pub fn one_context_refusal()
    ensures { OneParamsRefusal }
{}

/// States that with one Common IV, a nonce belongs to only one identifier and one number (RFC 8613, 5.2).
pub fn one_nonce()
    ensures { OneNonce }
{}

/// States that additional data belongs to only one identifier and one number (RFC 8613, 5.4).
pub fn one_additional_data()
    ensures { OneAdditionalData }
{}

/// States how long nonces and additional data are, whichever end they belong to (RFC 8613, 5.2 and 5.4).
pub fn known_lengths()
    ensures nonce { NonceLen }
    ensures additional_data { AdditionalDataLen }
{}

/// States that what the OSCORE option says has only one value, and that a value says only one thing (RFC 8613, 6.1).
pub fn one_option_value()
    ensures one_spelling { OneSpelling }
    ensures one_value { OneValue }
    ensures in_range { ValueNumberInRange }
    ensures fits { ValueFits }
    ensures most { ValueMostLen }
{}

/// States that any bytes are either a value of the OSCORE option or refused, and that a refusal has only one first
/// reason (RFC 8613, 6.1).
pub fn value_or_refusal()
    ensures one { ValueOrRefusal }
    ensures never_both { NeverBoth }
    ensures one_refusal { OneValueRefusal }
{}
