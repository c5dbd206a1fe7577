//! Numbers of slots.
ghost use Rattle.std.specs.Prelude.{◌≡◌, ◌<◌, SomeIff};

use std::marker::Model;

/// The number of a slot, from 1 on.
#[derive(Clone, Copy, Debug, PartialEq, Eq)]
pub struct SlotNumber {
    number: u32,
}

impl Model for SlotNumber {
    ghost use Rattle.std.specs.Prelude.{ℕ, ◌<◌};

    ghost Value = { ℕ };

    ghost view = { λ s. s.number };

    ghost invariant = { λ s. 0 < s.number };

    ghost inverse = { λ n. record { number = n } };
}

impl SlotNumber {
    pub fn new(number: u32) -> Option<SlotNumber>
        ensures { SomeIff result (0 < number) number }
    {
        if number == 0 {
            None
        } else {
            Some(SlotNumber { number })
        }
    }

    pub fn get(self) -> u32
        ensures value { result ≡ self }
        ensures positive { 0 < result }
    {
        self.number
    }
}
