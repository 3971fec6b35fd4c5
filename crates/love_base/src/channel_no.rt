ghost use Rattle.std.specs.Prelude.{◌≡◌, ◌≤◌, ◌↔◌, IsSome, IfSome};

use std::marker::Model;

// The greatest number of a Channel.
const LAST: u32 = 1_024;

/// A Channel's number, from 1 to 1,024. Contracts see it as that number.
#[derive(Clone, Copy, Debug, PartialEq, Eq, PartialOrd, Ord, Hash)]
pub struct ChannelNo {
    number: u32,
}

impl Model for ChannelNo {
    ghost use Rattle.std.specs.Prelude.{ℕ, ◌≤◌};

    ghost Value = { ℕ };

    ghost view = { λ channel. channel.number };

    ghost invariant = { λ channel. (1 ≤ channel.number) × (channel.number ≤ 1024) };

    ghost inverse = { λ n. record { number = n } };
}

impl ChannelNo {
    /// The Channel of this number; `None` exactly for 0 and for a number over 1,024.
    pub fn new(n: u32) -> Option<ChannelNo>
        ensures range { IsSome result ↔ ((1 ≤ n) × (n ≤ 1024)) }
        ensures number { IfSome result (λ channel. channel ≡ n) }
    {
        if 1 <= n && n <= LAST {
            Some(ChannelNo { number: n })
        } else {
            None
        }
    }

    /// The number, from 1 to 1,024.
    pub fn get(self) -> u32
        ensures number { result ≡ self }
        ensures range { (1 ≤ result) × (result ≤ 1024) }
    {
        self.number
    }
}
