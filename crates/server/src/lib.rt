// The stores of a forwarding server, and the loop that answers the lines of an input as they come.
#![tactic(auto)]

use chooser::Fnv;
use layer::Layer;
use net::Family;
use session::Session;
use std::io;
use std::io::{Read, Write};
use store::{FlatRow, Lent, Store};

// Serves a family: a row of 512 slots holds the routes, and FNV buckets over another such row hold the leaves. Each line of the
// input is answered on the output as it comes, until the input ends.
pub fn serve<F: Family + Copy, I: Read, O: Write>(input: &mut I, output: &mut O) -> io::Result<()> {
    let mut route_slots = [None; 512];
    let mut leaf_slots = [None; 512];
    let mut routes = FlatRow::new(&mut route_slots);
    let mut leaves = Layer::new(Fnv, FlatRow::new(&mut leaf_slots));
    serve_with::<F, _, _, _, _>(&mut routes, &mut leaves, input, output)
}

fn serve_with<F: Family + Copy, R: Store, L: Store, I: Read, O: Write>(
    routes: &mut R,
    leaves: &mut L,
    input: &mut I,
    output: &mut O,
) -> io::Result<()> {
    let mut session = Session::<F, Lent<R>, Lent<L>>::new(Lent::new(routes), Lent::new(leaves));
    let mut piece = [0u8; 4096];
    let mut row = [0u8; 4096];
    // The count is only a bound, since a reader of unknown bytes may never end.
    for _ in 0..u64::MAX {
        let n = input.read(&mut piece)?;
        if n == 0 {
            break;
        }
        answer(&mut session, &piece[..n], &mut row, output)?;
    }
    if let Ok(n) = session.finish(&mut row) {
        output.write_all(&row[..n])?;
    }
    Ok(())
}

// Feeds a whole piece, and hands the replies on as the row fills.
fn answer<F: Family + Copy, R: Store, L: Store, O: Write>(
    session: &mut Session<F, R, L>,
    piece: &[u8],
    row: &mut [u8; 4096],
    output: &mut O,
) -> io::Result<()> {
    let mut rest = piece;
    while !rest.is_empty() {
        let fed = session.feed(rest, row);
        output.write_all(&row[..fed.written])?;
        rest = &rest[fed.taken..];
    }
    Ok(())
}
