ghost use Rattle.std.specs.Prelude.{◌≡◌, ◌<◌, ◌↔◌, IsNone, IfSome};

/// What a float member of a state holds here: 0 or 1, and no other number.
#[derive(Clone, Copy, Debug, PartialEq, Eq)]
pub enum Unit {
    Zero,
    One,
}

impl Unit {
    ghost use Rattle.foz_words.specs.Unit.{number_of};

    /// The unit of this number. It is `None` exactly above 1.
    pub fn of(number: u32) -> Option<Unit>
        ensures none { IsNone result ↔ (1 < number) }
        ensures value { IfSome result (λ unit. number_of unit ≡ number) }
    {
        match number {
            0 => Some(Unit::Zero),
            1 => Some(Unit::One),
            _ => None,
        }
    }

    pub fn get(&self) -> u32
        ensures { result ≡ number_of self.now }
    {
        match self {
            Unit::Zero => 0,
            Unit::One => 1,
        }
    }
}
