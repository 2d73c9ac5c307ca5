//! Places of their own for registrations.

ghost use Rattle.std.specs.Prelude.{◌≡◌};

/// How many of a client's places are for registrations alone, and how many for other requests alone.
#[derive(Clone, Copy, Debug, PartialEq, Eq)]
pub struct Apart {
    pub registrations: usize,
    pub others: usize,
}

impl Apart {
    ghost use Rattle.osc_client.specs.ClientAnswer.{places_for};
    ghost use Rattle.osc_client.specs.Views.{apart_among};

    /// Divides so many places: these for registrations, and the others for other requests. If no number is named, all are for both.
    pub(crate) fn among(places: usize, registrations: Option<usize>) -> Option<Apart>
        ensures { result ≡ apart_among places registrations }
    {
        match registrations {
            Some(registrations) => Some(Apart {
                registrations,
                others: places.saturating_sub(registrations),
            }),
            None => None,
        }
    }

    /// Returns how many places there are for registrations, or for the others.
    pub(crate) fn places_for(self, registering: bool) -> usize
        ensures { result ≡ places_for registering self }
    {
        if registering {
            self.registrations
        } else {
            self.others
        }
    }
}
