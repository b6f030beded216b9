// What the calls of a table answer.
ghost use Rattle.std.specs.Prelude.{◌≡◌, ℕ};

use std::marker::Model;

/// A drawn ticket.
#[derive(Debug, Drop)]
pub enum Ticket {
    /// The ticket of this number.
    Number(u32),
    /// All tickets are drawn.
    Spent,
}

/// What a look at a stratum found.
#[derive(Drop)]
pub enum Look {
    /// No seat had won the stratum.
    Open(OpenLook),
    /// This seat has won the stratum.
    Taken(u32),
}

/// A look that found a stratum open. An enlargement uses it up, so that there is none without a look.
#[derive(Drop)]
pub struct OpenLook {
    stratum: u32,
}

impl Model for OpenLook {
    ghost use Rattle.std.specs.Prelude.{ℕ};
    ghost use Rattle.std.specs.Coded.{coded_ℕ};

    ghost Value = { ℕ };

    ghost coded = { coded_ℕ };

    ghost view = { λ look. look.stratum };
}

impl OpenLook {
    pub(crate) fn new(stratum: u32) -> OpenLook
        ensures { result ≡ stratum }
    {
        OpenLook { stratum }
    }

    /// The stratum that was open.
    pub fn stratum(&self) -> u32
        ensures { result ≡ self.now }
    {
        self.stratum
    }
}

/// What a try to win a stratum came to.
pub enum Win {
    /// The stratum is won.
    Won(Won),
    /// This seat has won the stratum before.
    Lost(u32),
}

/// A stratum that a seat won. It is not dropped: it ends by `spend` alone.
pub struct Won {
    stratum: u32,
    seat: u32,
}

impl Model for Won {
    ghost use Rattle.std.specs.Prelude.{ℕ};
    ghost use Rattle.std.specs.Coded.{coded_ℕ, coded×};

    ghost Value = { ℕ × ℕ };

    ghost coded = { coded× coded_ℕ coded_ℕ };

    ghost view = { λ won. (won.stratum, won.seat) };
}

impl Won {
    pub(crate) fn new(stratum: u32, seat: u32) -> Won
        ensures { result ≡ (stratum, seat) }
    {
        Won { stratum, seat }
    }

    /// The stratum that was won.
    pub fn stratum(&self) -> u32
        ensures { result ≡ self.now.0 }
    {
        self.stratum
    }

    /// The seat that won it.
    pub fn seat(&self) -> u32
        ensures { result ≡ self.now.1 }
    {
        self.seat
    }

    /// The stratum and the seat.
    pub fn spend(self) -> (u32, u32)
        ensures { result ≡ self }
    {
        let Won { stratum, seat } = self;
        (stratum, seat)
    }
}
