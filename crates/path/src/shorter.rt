// Up the routes from a prefix.
ghost use Rattle.net.specs.Prefix.{row_of};
ghost use Rattle.path.specs.Shorter.{NextShorter};

use net::Prefix;
use store::Store;

// The hop of the longest route whose prefix is a beginning of this one, and shorter; or none.
pub fn next_shorter<R: Store>(routes: &R, prefix: &Prefix) -> Option<u16>
    ensures { NextShorter (R.content routes.now).map (row_of prefix.now) result }
{
    (0..prefix.len() as usize)
        .rev()
        .find_map(|len| routes.get(&prefix.front(len)))
}
