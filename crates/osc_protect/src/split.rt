//! The options of a message, split by where its protection puts them (RFC 8613, 4.1).

ghost use Rattle.std.specs.Prelude.{◌≡◌, ℕ, List, length, IfSome, true, option_copied};
ghost use Rattle.osc_coap.specs.Views.{options_left};
ghost use Rattle.osc_coap.specs.Writer.{Holds, buffer_of};
ghost use Rattle.osc_coap.specs.Writing.{Draft, TakesOption, with_options};
ghost use Rattle.osc_protect.specs.OptionSets.{counts_as_observe, sought_behind};
ghost use Rattle.osc_protect.specs.Split.{Behind, Inside, Outside, TakesAll, option_with, options_on, value_on};

use crate::option_sets::{is_behind, is_valid_observe};
use osc_coap::option_numbers::{OBSERVE, OSCORE};
use osc_coap::{Class, Options, Writer, class_of};

/// Whether Observe is sought among the options from a place on: outside, and inside. Only the first Observe is one, so none is sought behind
/// it (RFC 7252, 5.4.5).
#[derive(Clone, Copy)]
pub(crate) struct Sought {
    pub(crate) outside: bool,
    /// Observe has an empty value inside: the message is a notification (RFC 8613, 4.1.3.5.2).
    pub(crate) inside: bool,
}

/// An option as its message is protected: the value that it has outside in front of the OSCORE option, outside behind that, and inside, each
/// `None` if it doesn't stand there. Outside stand the options of class U, and Observe; inside stand those of class E and of both classes; own
/// rule (RFC 8613, 4.1).
#[derive(Clone, Copy)]
pub(crate) struct Placed<'a> {
    pub(crate) outside: Option<&'a [u8]>,
    pub(crate) behind: Option<&'a [u8]>,
    pub(crate) inside: Option<&'a [u8]>,
    /// It counts as Observe outside.
    pub(crate) observes: bool,
}

/// Returns the value that an option has outside behind the OSCORE option, if it stands there.
#[inline(always)]
fn behind_value(number: u16, value: &[u8]) -> Option<&[u8]>
    ensures { option_copied result ≡ value_on Behind (number, value.now) }
{
    if is_behind(number) { Some(value) } else { None }
}

impl Sought {
    /// Returns what is sought behind an option, and where the option stands.
    #[inline(always)]
    pub(crate) fn place<'a>(self, number: u16, value: &'a [u8]) -> (Sought, Placed<'a>)
        ensures outer_behind { result.0.outside ≡ sought_behind self.outside (number, value.now) }
        ensures inner_behind { result.0.inside ≡ sought_behind self.inside (number, value.now) }
        ensures outside { option_copied result.1.outside ≡ value_on (Outside self.outside) (number, value.now) }
        ensures behind { option_copied result.1.behind ≡ value_on Behind (number, value.now) }
        ensures inside { option_copied result.1.inside ≡ value_on (Inside self.inside) (number, value.now) }
        ensures observes { result.1.observes ≡ counts_as_observe self.outside (number, value.now) }
    {
        let is_outer = matches!(class_of(number), Class::U);
        let is_observe = is_valid_observe(number, value);
        let observes = self.outside && is_observe;
        let is_emptied = self.inside && is_observe;
        let whole = if is_emptied { &value[..0] } else { value };
        let placed = Placed {
            outside: if observes || is_outer && number < OSCORE {
                Some(value)
            } else {
                None
            },
            behind: if is_behind(number) { Some(value) } else { None },
            inside: if is_outer { None } else { Some(whole) },
            observes,
        };
        let goes_on = number != OBSERVE;
        let behind = Sought {
            outside: self.outside && goes_on,
            inside: self.inside && goes_on,
        };
        (behind, placed)
    }
}

/// Writes an option, if it stands there. There must be room for it.
fn write_option(writer: &mut Writer<'_>, number: u16, placed: Option<&[u8]>)
    requires { (draft : Draft) × (old : List ℕ) × Holds writer.old draft old
        × IfSome (option_copied placed) (TakesOption (length old) draft number) }
    ensures same_reference { buffer_of writer.new ≡ buffer_of writer.old }
    ensures written { (draft : Draft) (old : List ℕ) → Holds writer.old draft old
        → Holds writer.new (with_options draft (option_with number (option_copied placed.entry))) old }
{
    if let Some(value) = placed {
        writer.add_option(number, value);
    }
}

/// Writes the options outside and inside, in order, in one pass. There must be room for them.
pub(crate) fn write_options(
    outer: &mut Writer<'_>,
    inner: &mut Writer<'_>,
    options: Options<'_>,
    mut sought: Sought,
)
    requires outer { (draft : Draft) × (old : List ℕ) × Holds outer.old draft old
        × TakesAll (length old) draft (options_on (Outside sought.outside) (options_left options)) }
    requires inner { (draft : Draft) × (old : List ℕ) × Holds inner.old draft old
        × TakesAll (length old) draft (options_on (Inside sought.inside) (options_left options)) }
    ensures same_outer { buffer_of outer.new ≡ buffer_of outer.old }
    ensures same_inner { buffer_of inner.new ≡ buffer_of inner.old }
    ensures outside { (draft : Draft) (old : List ℕ) → Holds outer.old draft old
        → Holds outer.new (with_options draft (options_on (Outside sought.outside) (options_left options.entry))) old }
    ensures inside { (draft : Draft) (old : List ℕ) → Holds inner.old draft old
        → Holds inner.new (with_options draft (options_on (Inside sought.inside) (options_left options.entry))) old }
{
    for (number, value) in options {
        let (behind, placed) = sought.place(number, value);
        write_option(outer, number, placed.outside);
        write_option(inner, number, placed.inside);
        sought = behind;
    }
}

/// Writes the options outside that stand behind the OSCORE option, in order. There must be room for them.
pub(crate) fn write_behind(outer: &mut Writer<'_>, options: Options<'_>)
    requires { (draft : Draft) × (old : List ℕ) × Holds outer.old draft old
        × TakesAll (length old) draft (options_on Behind (options_left options)) }
    ensures same_reference { buffer_of outer.new ≡ buffer_of outer.old }
    ensures written { (draft : Draft) (old : List ℕ) → Holds outer.old draft old
        → Holds outer.new (with_options draft (options_on Behind (options_left options.entry))) old }
{
    for (number, value) in options {
        write_option(outer, number, behind_value(number, value));
    }
}
