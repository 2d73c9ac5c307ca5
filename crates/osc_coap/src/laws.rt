//! What holds for all lists of options, datagrams and plaintexts. Calling one of these functions does nothing: its
//! contract is there for the caller's proof.

ghost use Rattle.osc_coap.specs.Laws.{SpellingIsOfOneList, ListHasOneText, PartsHaveOneDatagram, PartsHaveOneInner, DatagramIsOneMessage, DatagramHasOneFault, DatagramHasNoFault, BytesAreDatagramOrFaulty, PlaintextIsOneMessage, PlaintextHasOneFault, PlaintextHasNoFault, BytesArePlaintextOrFaulty, PayloadIsTheEnd, PayloadCanBeReplaced, PayloadCanBeAdded, SpelledOptionsAscend, OptionsAscend, InnerOptionsAscend, ReadOptionsAscend, ReadInnerOptionsAscend, OptionsLeftAscend, ReadOptionsAreSpelled, ReadInnerOptionsAreSpelled, OptionsLeftAreSpelled, SpellingHasItsLength, DatagramHasItsLength, InnerHasItsLength};

/// States that a spelling belongs to only one list of options (RFC 7252, 3.1).
pub fn one_spelling()
    ensures { SpellingIsOfOneList }
{}

/// States that a list of options has only one text after a number, and that the parts of a datagram and of a plaintext
/// have only one text too (RFC 7252, 3; RFC 8613, 5.3).
pub fn one_text()
    ensures spelling { ListHasOneText }
    ensures datagram { PartsHaveOneDatagram }
    ensures inner { PartsHaveOneInner }
{}

/// States that each byte list is one datagram or has one fault, never both (RFC 7252, 3).
pub fn one_datagram()
    ensures one { DatagramIsOneMessage }
    ensures one_fault { DatagramHasOneFault }
    ensures never_both { DatagramHasNoFault }
    ensures each { BytesAreDatagramOrFaulty }
{}

/// States that each byte list is one plaintext or has one fault, never both (RFC 8613, 5.3).
pub fn one_inner()
    ensures one { PlaintextIsOneMessage }
    ensures one_fault { PlaintextHasOneFault }
    ensures never_both { PlaintextHasNoFault }
    ensures each { BytesArePlaintextOrFaulty }
{}

/// States that a payload comes last in its datagram, that another payload of its length can take its place, and that a
/// payload can be added if there is none (RFC 7252, 3).
pub fn payload_stands_last()
    ensures last { PayloadIsTheEnd }
    ensures other { PayloadCanBeReplaced }
    ensures added { PayloadCanBeAdded }
{}

/// States that options are in ascending order of number (RFC 7252, 3.1).
pub fn options_ascend()
    ensures spelling { SpelledOptionsAscend }
    ensures datagram { OptionsAscend }
    ensures inner { InnerOptionsAscend }
    ensures held_message { ReadOptionsAscend }
    ensures held_inner { ReadInnerOptionsAscend }
    ensures held_options { OptionsLeftAscend }
{}

/// States that bytes spell the options of any message, plaintext or iterator over options that the caller holds
/// (RFC 7252, 3.1).
pub fn options_are_spelled()
    ensures held_message { ReadOptionsAreSpelled }
    ensures held_inner { ReadInnerOptionsAreSpelled }
    ensures held_options { OptionsLeftAreSpelled }
{}

/// States that the length of a spelling, of a datagram and of a plaintext follows from what it says (RFC 7252, 3;
/// RFC 8613, 5.3).
pub fn lengths_by_parts()
    ensures spelling { SpellingHasItsLength }
    ensures datagram { DatagramHasItsLength }
    ensures inner { InnerHasItsLength }
{}
