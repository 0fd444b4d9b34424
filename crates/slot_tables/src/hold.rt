// Claims of slots.
ghost use Rattle.std.specs.Prelude.{◌≡◌, ℕ};

/// A claim of a slot. There is no bound `Drop`: code that compiles can't lose a claim.
pub trait Hold {
    /// The slot that the claim is of.
    ghost names: { Self → ℕ };

    fn slot(&self) -> u16
        ensures { result ≡ names self.now };
}

/// A claim that anyone can make.
#[derive(Clone, Copy, Debug, PartialEq, Eq)]
pub struct Plain {
    pub slot: u16,
}

impl Hold for Plain {
    ghost names = { λ claim. claim.slot };

    fn slot(&self) -> u16 {
        self.slot
    }
}
