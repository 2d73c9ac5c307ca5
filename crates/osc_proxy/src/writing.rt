//! Writes the options of a range of numbers (RFC 7252, 3.1).

ghost use Rattle.std.specs.Prelude.{◌≡◌, ℕ, List, length, true};
ghost use Rattle.osc_coap.specs.Views.{options_left};
ghost use Rattle.osc_coap.specs.Writer.{Holds, buffer_of};
ghost use Rattle.osc_coap.specs.Writing.{Draft, with_options};
ghost use Rattle.osc_proxy.specs.Between.{TakesAll};
ghost use Rattle.osc_proxy.specs.Splitting.{between, part_options, parts_fit};
ghost use Rattle.osc_proxy.specs.UriViews.{parts_left};

use crate::parts::Components;
use crate::percent::percent_decoded;
use osc_coap::{Options, Writer};

/// Writes the options with numbers in this range, both ends in it, in order. There must be room for them.
pub(crate) fn write_between(writer: &mut Writer<'_>, options: Options<'_>, least: u16, most: u16)
    requires { (draft : Draft) × (old : List ℕ) × Holds writer.old draft old
        × TakesAll (length old) draft (between least most (options_left options)) }
    ensures same_reference { buffer_of writer.new ≡ buffer_of writer.old }
    ensures written { (draft : Draft) (old : List ℕ) → Holds writer.old draft old
        → Holds writer.new (with_options draft (between least most (options_left options.entry))) old }
{
    for (number, value) in options {
        if least <= number && number <= most {
            writer.add_option(number, value);
        }
    }
}

/// Writes the parts, each as an option with this number. There must be room for them.
pub(crate) fn write_parts(writer: &mut Writer<'_>, number: u16, parts: Components<'_>)
    requires fine { parts_fit (parts_left parts) ≡ true }
    requires taken { (draft : Draft) × (old : List ℕ) × Holds writer.old draft old
        × TakesAll (length old) draft (part_options number (parts_left parts)) }
    ensures same_reference { buffer_of writer.new ≡ buffer_of writer.old }
    ensures written { (draft : Draft) (old : List ℕ) → Holds writer.old draft old
        → Holds writer.new (with_options draft (part_options number (parts_left parts.entry))) old }
{
    for part in parts {
        let Ok(value) = percent_decoded(part) else {
            unreachable!()
        };
        writer.add_option(number, value.as_slice());
    }
}
