// A vertex that is drawn: a slot in use of a table, and how many bits a step of the image takes.
ghost use Rattle.std.specs.Prelude.{◌≡◌, true};
ghost use Rattle.graph.specs.Slots.{at, used};

use graph::Table;
use reader::Stride;

#[derive(Drop)]
pub(crate) struct Drawing<'a> {
    pub(crate) table: &'a Table,
    pub(crate) slot: u16,
    pub(crate) stride: Stride,
    ghost stands: { used (at table.now.slots slot) ≡ true },
}
