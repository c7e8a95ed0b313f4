// How many bits an image takes at a step.
ghost use Rattle.std.specs.Prelude.{◌≡◌, ◌≤◌};
ghost use Rattle.image.specs.Image.{edges_each};

use refusal::Refusal;

#[derive(Clone, Copy)]
pub struct Stride {
    pub(crate) bits: u64,
    ghost least: { 1 ≤ bits },
    ghost most: { bits ≤ 6 },
}

impl Stride {
    // How many bits a step takes: 1 to 6.
    pub fn bits(self) -> u64
        ensures is { result ≡ self.bits }
        ensures least { 1 ≤ result }
        ensures most { result ≤ 6 }
    {
        self.bits
    }

    // How many edges a vertex has.
    pub fn edges(self) -> u64
        ensures is { result ≡ edges_each self.bits }
        ensures most { result ≤ 64 }
    {
        1 << self.bits
    }
}

// Refused: a number that is not 1 to 6.
impl TryFrom<u64> for Stride {
    type Error = Refusal;

    ghost use Rattle.reader.specs.Rows.{StrideMade};

    ghost try_from_gives = { StrideMade };

    fn try_from(bits: u64) -> Result<Stride, Refusal> {
        match bits {
            1..=6 => Ok(Stride { bits }),
            _ => Err(Refusal::Stride),
        }
    }
}
