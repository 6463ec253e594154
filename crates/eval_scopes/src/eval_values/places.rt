// Places in lists.
ghost use Rattle.std.specs.Prelude.{◌≡◌, ◌<◌, ◌^◌, pos};
ghost use Rattle.std.specs.Option.{SomeIff};

use std::marker::Model;

/// A place in a list, from 1, or the length of one: at most 2^63-1, which an xs:integer holds
/// (XPath 2.0, 2.1.2).
#[derive(Clone, Copy)]
pub struct Place {
    number: u64,
}

impl Model for Place {
    ghost use Rattle.std.specs.Prelude.{ℕ, ◌<◌, ◌^◌};

    ghost Value = { ℕ };

    ghost view = { λ p. p.number };

    ghost inverse = { λ n. record { number = n } };

    ghost invariant = { λ p. p.number < 2 ^ 63 };
}

impl Place {
    /// The first place.
    pub fn first() -> Place
        ensures { result ≡ 1 }
    {
        Place { number: 1 }
    }

    /// The place; None exactly past 2^63-1.
    pub fn new(number: usize) -> Option<Place>
        ensures { SomeIff result (number < 2 ^ 63) number }
    {
        if number < 0x8000_0000_0000_0000 {
            Some(Place {
                number: number as u64,
            })
        } else {
            None
        }
    }

    /// The place as an integer.
    pub fn get(self) -> i64
        ensures { result ≡ pos self }
    {
        self.number as i64
    }
}
