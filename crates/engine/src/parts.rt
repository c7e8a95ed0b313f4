// What a maker of images reads of an engine: its graph, and the store of its leaves.
ghost use Rattle.std.specs.Prelude.{◌≡◌};

use crate::engine::Engine;
use graph::{Edge, Table};
use net::Family;
use store::Store;

impl<F: Family, R: Store, L: Store> Engine<F, R, L> {
    // The table of vertices.
    pub fn table(&self) -> &Table
        ensures { result.now ≡ self.now.table }
    {
        &self.table
    }

    // The edge that every walk starts with.
    pub fn start(&self) -> Edge
        ensures { result ≡ self.now.start }
    {
        self.start
    }

    // The store of the leaves.
    pub fn leaves(&self) -> &L
        ensures { result.now ≡ self.now.leaves }
    {
        &self.leaves
    }
}
