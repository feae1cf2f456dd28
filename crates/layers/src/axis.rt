// The number of an axis, from 0 to 7.
ghost use Rattle.std.specs.Prelude.{◌≡◌, ◌≤◌, Some, None, MatchResult};
ghost use Rattle.layers.specs.Axes.{refusal_number, axis_number, axis_refusal};

// Why an axis is refused.
#[derive(Clone, Copy, PartialEq, Eq, Debug)]
pub enum AxisRefusal {
    Over7 = 5,
}

impl AxisRefusal {
    // Its number. No trait over the refusals: each impl would be this line again.
    pub fn number(self) -> u8
        ensures { result ≡ refusal_number self }
    {
        self as u8
    }
}

// An axis is one of eight, so none is over 7.
#[derive(Clone, Copy, PartialEq, Eq, Debug)]
pub enum Axis {
    A0 = 0,
    A1 = 1,
    A2 = 2,
    A3 = 3,
    A4 = 4,
    A5 = 5,
    A6 = 6,
    A7 = 7,
}

impl Axis {
    pub fn number(self) -> u8
        ensures value { result ≡ axis_number self }
        ensures within { result ≤ 7 }
    {
        self as u8
    }
}

impl TryFrom<u8> for Axis {
    type Error = AxisRefusal;

    ghost try_from_gives = { λ number r. MatchResult r (λ axis. (axis_number axis ≡ number) × (axis_refusal number ≡ None)) (λ e. axis_refusal number ≡ Some e) };

    // An axis over 7 is refused: there is none.
    fn try_from(number: u8) -> Result<Axis, AxisRefusal> {
        match number {
            0 => Ok(Axis::A0),
            1 => Ok(Axis::A1),
            2 => Ok(Axis::A2),
            3 => Ok(Axis::A3),
            4 => Ok(Axis::A4),
            5 => Ok(Axis::A5),
            6 => Ok(Axis::A6),
            7 => Ok(Axis::A7),
            _ => Err(AxisRefusal::Over7),
        }
    }
}
