//! Laws about the definitions. Each is the contract of a function that does nothing.

ghost use Rattle.osc_message.specs.ArrivingLaws.{AckedOnce, AnsweredOnce, GetsWhatWasSent};
ghost use Rattle.osc_message.specs.Laws.{AckedRests, AtItsTimes, AtMostFour, AtMostFourEach, EndsOnce, IsGivenUpInTime, OneToAPeer, Punctually, RestIsYoung};
ghost use Rattle.osc_message.specs.MessageIds.{AreApart};

/// States how often a confirmable message is sent, and when, over every list of moments at which it is asked about (RFC 7252, 4.2).
pub fn messages_go_out_at_their_times()
    ensures at_most_four { AtMostFour }
    ensures at_its_times { AtItsTimes }
    ensures punctually { Punctually }
    ensures acked { AckedRests }
    ensures each { AtMostFourEach }
{}

/// States that a confirmable message has an end, MAX_TRANSMIT_WAIT after it was sent first at the latest, where it is asked about then (RFC
/// 7252, 4.8.2).
pub fn messages_end()
    ensures given_up { IsGivenUpInTime }
    ensures young { RestIsYoung }
{}

/// States that each call that was made is on its way or has ended, once, over every history.
pub fn messages_end_once()
    ensures { EndsOnce }
{}

/// States that at most one message to an address is without its ACK, over every history (RFC 7252, 4.7).
pub fn one_message_to_a_peer()
    ensures { OneToAPeer }
{}

/// States that a Message ID isn't given again within EXCHANGE_LIFETIME, over every history (RFC 7252, 4.4).
pub fn message_ids_are_apart()
    ensures { AreApart }
{}

/// States that what a message gets that comes again was sent for it, and that it is answered, and acknowledged by itself, once at most, over every
/// history (RFC 7252, 4.5 and 5.2).
pub fn arrivals_get_what_was_sent()
    ensures same { GetsWhatWasSent }
    ensures answered { AnsweredOnce }
    ensures acknowledged { AckedOnce }
{}
