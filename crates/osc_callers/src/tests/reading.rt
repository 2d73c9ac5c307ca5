//! Callers that prove a fact about a message from the public contracts alone.

ghost use Rattle.std.specs.Prelude.{◌≡◌, ℕ, List};
ghost use Rattle.std.specs.Option.{option_copied};
ghost use Rattle.osc_coap.specs.OptionNumbers.{oscore};
ghost use Rattle.osc_coap.specs.OptionSpelling.{AreBytes, Spells};
ghost use Rattle.osc_coap.specs.Search.{first_of, values_at};
ghost use Rattle.osc_coap.specs.Views.{number_before, options_left};

use osc_coap::option_numbers::OSCORE;
use osc_coap::{Options, options_are_spelled, parse, parse_inner};
use std::test::Fail;

/// Returns the first OSCORE option of the options that were passed in, whoever read them. Bytes spell these options.
fn first_oscore(options: Options<'_>) -> Option<&[u8]>
    ensures spelled { (text : List ℕ) × AreBytes text
        × Spells (number_before options.entry) (options_left options.entry) text }
    ensures first { option_copied result ≡ first_of (values_at oscore (options_left options.entry)) }
{
    options_are_spelled();
    options.first(OSCORE)
}

// The protected request of RFC 8613, C.4, and an OSCORE option after another option in a plaintext (RFC 7252, 3.1).
#[test]
fn first_oscore_option(rt: HostRuntime) -> Result<(), Fail> {
    let message = parse(b"\x44\x02\x5d\x1f\x00\x00\x39\x74\x39localhost\x62\x09\x14\xff\x61")?;
    assert_eq!(rt;
        first_oscore(message.options()),
        Some(b"\x09\x14".as_slice())
    );
    let inner = parse_inner(b"\x01\x31x\x61y\x01z")?;
    assert_eq!(rt; first_oscore(inner.options()), Some(b"y".as_slice()));
    Ok(())
}
