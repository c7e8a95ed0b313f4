// Which numbers are hops.
ghost use Rattle.refusal.specs.Hops.{Hops};

use crate::Refusal;

// The greatest hop.
const GREATEST: u64 = 65_535;

// The number as a hop, or the refusal of one that is none.
pub fn hop(number: u64) -> Result<u16, Refusal>
    ensures { Hops number result }
{
    match number {
        1..=GREATEST => Ok(number as u16),
        _ => Err(Refusal::Hop),
    }
}
