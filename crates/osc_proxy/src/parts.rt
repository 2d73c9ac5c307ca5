//! The parts of a path or of a query, one after the other.

ghost use Rattle.std.specs.Prelude.{◌≡◌, option_copied};
ghost use Rattle.osc_proxy.specs.UriViews.{parts_in};

use crate::cutting::cut;

/// The segments of a path, or the arguments of a query, in order, each percent-encoded.
#[derive(Clone, Copy, Debug)]
pub struct Components<'a> {
    rest: Option<&'a [u8]>,
    delimiter: u8,
}

impl<'a> Components<'a> {
    ghost use Rattle.osc_proxy.specs.UriViews.{parts_left};

    /// Makes the iterator over the parts of these bytes.
    pub(crate) fn new(rest: Option<&'a [u8]>, delimiter: u8) -> Components<'a>
        ensures { parts_left result ≡ parts_in delimiter (option_copied rest.entry) }
    {
        Components { rest, delimiter }
    }
}

impl<'a> Iterator for Components<'a> {
    ghost use Rattle.std.specs.Iterator.{YieldsFirstBy, item_count};
    ghost use Rattle.osc_proxy.specs.UriViews.{parts_left, seen_part};

    type Item = &'a [u8];

    ghost next_gives = { YieldsFirstBy seen_part parts_left };

    ghost remaining = { item_count parts_left };

    fn next(&mut self) -> Option<&'a [u8]> {
        let rest = self.rest?;
        let (part, behind) = cut(rest, self.delimiter);
        self.rest = behind;
        Some(part)
    }
}
