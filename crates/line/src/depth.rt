// The depth of the samples of a line.
ghost use Rattle.std.specs.Prelude.{◌≡◌};
ghost use Rattle.line.specs.Depths.{depth_bits, depth_of, unit_of};

use refusal::Refusal;

// How many bits a sample has.
#[derive(Clone, Copy, PartialEq, Eq, Debug)]
pub enum Depth {
    Eight = 8,
    Ten = 10,
    Twelve = 12,
}

// The depth of so many bits. All 32 bits of the number count: 264 is not taken for 8.
impl TryFrom<u32> for Depth {
    type Error = Refusal;

    ghost try_from_gives = { λ bits r. r ≡ depth_of bits };

    fn try_from(bits: u32) -> Result<Depth, Refusal> {
        match bits {
            8 => Ok(Depth::Eight),
            10 => Ok(Depth::Ten),
            12 => Ok(Depth::Twelve),
            _ => Err(Refusal::Depth),
        }
    }
}

impl TryFrom<u8> for Depth {
    type Error = Refusal;

    ghost try_from_gives = { λ bits r. r ≡ depth_of bits };

    fn try_from(bits: u8) -> Result<Depth, Refusal> {
        Depth::try_from(u32::from(bits))
    }
}

impl Depth {
    // The depth of so many bits, by the name that callers have known.
    pub fn from_bits(bits: u8) -> Result<Depth, Refusal>
        ensures answer { result ≡ depth_of bits }
    {
        Depth::try_from(bits)
    }

    // The number of bits.
    pub fn bits(&self) -> u8
        ensures answer { result ≡ depth_bits self.now }
    {
        *self as u8
    }

    // The unit q in which levels are given, so that one rule serves all depths. A table too, since it says the three at a glance.
    pub fn unit(&self) -> u16
        ensures answer { result ≡ unit_of self.now }
    {
        match *self {
            Depth::Eight => 1,
            Depth::Ten => 4,
            Depth::Twelve => 16,
        }
    }
}
