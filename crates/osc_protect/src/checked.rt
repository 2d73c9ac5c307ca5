//! What sealing has to know of a plain message, found in one pass over its options.

ghost use Rattle.std.specs.Prelude.{◌≡◌, ◌<◌, ◌≤◌, ◌⊎◌, ◌||◌, ℕ, List, true, false, IfErr, IfNone, IfOk, IfSome};
ghost use Rattle.osc_coap.specs.OptionNumbers.{oscore};
ghost use Rattle.osc_coap.specs.OptionSpelling.{last_number, spelling_length};
ghost use Rattle.osc_coap.specs.Search.{has_number};
ghost use Rattle.osc_coap.specs.Views.{options_left, parts_of};
ghost use Rattle.osc_protect.specs.OptionSets.{is_unsupported};
ghost use Rattle.osc_protect.specs.SealRefusals.{RefusesPlain};
ghost use Rattle.osc_protect.specs.Split.{Behind, Inside, Outside, has_observe, options_on};
ghost use Rattle.osc_protect.specs.Usage.{sealing_features};

use crate::checks::judge;
use crate::family::Family;
use crate::lengths::Tally;
use crate::option_sets::is_unsupported;
use crate::protect_error::ProtectError;
use crate::usage::{is_used, sealing_features};
use osc_coap::option_numbers::OBSERVE;
use osc_coap::{Message, Options};
use osc_context::Features;

/// The options of a message that can be sealed, counted on each side.
#[derive(Clone, Copy)]
pub(crate) struct Lists {
    pub(crate) outer: Tally,
    /// Those behind the OSCORE option.
    pub(crate) behind: Tally,
    pub(crate) inner: Tally,
}

/// A plain message that was checked, so that it can be sealed if it isn't too long and there is room for it.
#[derive(Clone, Copy)]
pub struct Checked {
    // One of the options counts as Observe.
    pub(crate) observes: bool,
    // Nothing, if one of them is longer than a datagram can be.
    pub(crate) lists: Option<Lists>,
}

impl Checked {
    ghost use Rattle.osc_protect.specs.Checks.{observes};

    /// Returns whether an option of the message counts as Observe: it is the first one, its value has at most 3 bytes, and the context takes
    /// part in Observe (RFC 7252, 5.4.3 and 5.4.5; RFC 7641, 2).
    #[must_use]
    pub fn observes(&self) -> bool
        ensures { result ≡ observes self.now }
    {
        self.observes
    }
}

/// Goes through the options once. Returns `None` if one of them keeps the message from being sealed, with the features that say so, or
/// if one of the lists is longer than a datagram can be.
#[inline(always)]
fn survey(family: Family, features: Features, options: Options<'_>) -> Option<(Lists, bool)>
    ensures supported { IfSome result (λ s. has_number (is_unsupported features) (options_left options.entry) ≡ false) }
    ensures observes { IfSome result (λ s. s.1 ≡ has_observe family.features.observe (options_left options.entry)) }
    ensures outer { IfSome result (λ s. s.0.outer.len ≡ spelling_length 0 (options_on (Outside family.features.observe) (options_left options.entry))) }
    ensures last { IfSome result (λ s. s.0.outer.number ≡ last_number 0 (options_on (Outside family.features.observe) (options_left options.entry))) }
    ensures behind { IfSome result (λ s. s.0.behind.len ≡ spelling_length oscore (options_on Behind (options_left options.entry))) }
    ensures inner { IfSome result (λ s. s.0.inner.len ≡ spelling_length 0 (options_on (Inside family.notifies) (options_left options.entry))) }
    ensures fits { IfSome result (λ s. (s.0.outer.len ≤ 65535) × (s.0.behind.len ≤ 65535) × (s.0.inner.len ≤ 65535)) }
    ensures nothing { IfNone result
        ((has_number (is_unsupported features) (options_left options.entry) ≡ true)
        ⊎ ((65535 < spelling_length 0 (options_on (Outside family.features.observe) (options_left options.entry)))
        ⊎ ((65535 < spelling_length oscore (options_on Behind (options_left options.entry)))
        ⊎ (65535 < spelling_length 0 (options_on (Inside family.notifies) (options_left options.entry)))))) }
{
    let mut outer = Tally::new();
    let mut behind = Tally::behind_oscore();
    let mut inner = Tally::new();
    let mut sought = family.sought();
    let mut observes = false;
    for (number, value) in options {
        if is_unsupported(features, number) {
            return None;
        }
        let (next, placed) = sought.place(number, value);
        outer = outer.and(number, placed.outside)?;
        behind = behind.and(number, placed.behind)?;
        inner = inner.and(number, placed.inside)?;
        observes |= placed.observes;
        sought = next;
    }
    let lists = Lists {
        outer,
        behind,
        inner,
    };
    Some((lists, observes))
}

ghost use Rattle.osc_protect.specs.Checks.{Checks};

/// Returns whether an option of the message counts as Observe.
fn has_observe(features: Features, plain: &Message<'_>) -> bool
    ensures { result ≡ has_observe features.observe (parts_of plain.now).options }
{
    features.observe && plain.options().interpreted(OBSERVE).is_some()
}

/// Checks the Type and the code, and then the options, in one pass.
#[inline(always)]
pub(crate) fn check(family: Family, plain: &Message<'_>) -> Result<Checked, ProtectError>
    ensures checked { IfOk result (λ c. Checks family (parts_of plain.now) c) }
    ensures refused { IfErr result
        (λ e. RefusesPlain family.usage (sealing_features family.usage family.features plain.now.code) (parts_of plain.now) e) }
{
    if !is_used(family.usage, plain) {
        return Err(ProtectError::NotThatKind);
    }
    let features = sealing_features(family.usage, family.features, plain.code);
    if let Some((lists, observes)) = survey(family, features, plain.options()) {
        let lists = Some(lists);
        return Ok(Checked { observes, lists });
    }
    // Refusals and messages that are too long are rare, so only here it is found out which of them comes first.
    judge(family.usage, features, plain)?;
    Ok(Checked {
        observes: has_observe(family.features, plain),
        lists: None,
    })
}
