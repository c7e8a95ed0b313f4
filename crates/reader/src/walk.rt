// The walk of an address through an image.
ghost use Rattle.std.specs.Prelude.{◌≡◌, ◌+◌, ◌-◌, ◌^◌, ◌<◌, ◌≤◌, Bool, false, drop, slice_index, IfSome, MatchOption};
ghost use Rattle.image.specs.Image.{next_edge, edge_at, image_walk, unfolded, log2 as log_of};
ghost use Rattle.image.specs.Picture.{mark as mark_of};
ghost use Rattle.reader.specs.Reader.{image_of, Walked};

use crate::reader::Reader;
use crate::stride::Stride;
use net::Family;
use refusal::Refusal;
use store::Store;

// The edge that the next bits of the address follow, with zeros past its end.
fn next_edge<F: Family>(address: &F, taken: u64, stride: Stride) -> u64
    requires { taken < 128 }
    ensures is { result ≡ next_edge stride.bits (drop taken (F.Family.row address.now)) }
    ensures small { result < 2 ^ stride.bits }
{
    (taken..taken + stride.bits).fold(0, |edge, i| 2 * edge + u64::from(address.bit(i as usize)))
}

// The mark of an edge.
fn mark(marks: u64, edge: u64) -> bool
    requires { edge < 64 }
    ensures { result ≡ mark_of marks edge }
{
    (marks >> edge) % 2 == 1
}

// The power of 2 that t is, where it is below the stride.
fn log2(stride: Stride, t: u64) -> Option<u64>
    ensures is { result ≡ log_of stride.bits t }
    ensures below { IfSome result (λ l. l < stride.bits) }
{
    (0..stride.bits).find(|l| t == 1 << l)
}

// The bits of a leaf that t edges side by side lead to, in a step that ends after `taken` bits; none where there is no such leaf.
fn leaf_bits(stride: Stride, width: u64, taken: u64, t: u64) -> Option<u64>
    requires { stride.bits ≤ taken }
    ensures { result ≡ unfolded width taken (log_of stride.bits t) }
{
    log2(stride, t)
        .map(|l| taken - l)
        .filter(|bits| *bits <= width)
}

impl Reader<'_> {
    // The vertex that an edge of a vertex leads to; none where it leads to the end, for which the row has 0 or nothing. Vertices are
    // plain numbers: a proof takes a NonZeroU16 that a loop changes apart, and does not close at the inner loop.
    fn edge(&self, vertex: u16, edge: u64) -> Option<u16>
        requires least { 1 ≤ vertex }
        requires few { edge < 64 }
        ensures { MatchOption result (edge_at (image_of self.now) vertex edge ≡ 0) (λ to. (1 ≤ to) × (to ≡ edge_at (image_of self.now) vertex edge)) }
    {
        let place = ((vertex as u64 - 1) * self.stride.edges() + edge) as usize;
        self.edges.get(place).copied().filter(|to| *to > 0)
    }

    // The marks of the edges of a vertex; 0 where the row has none.
    fn marks_of(&self, vertex: u16) -> u64
        requires { 1 ≤ vertex }
        ensures { result ≡ slice_index (image_of self.now).marks (vertex - 1) }
    {
        let place = vertex as usize - 1;
        self.marks.get(place).copied().unwrap_or(0)
    }

    // The leaf's length for the address, and none where the image is broken on the way. One loop ends with the length, and a run is counted
    // inside it: so the project writes this walk.
    fn leaf_length<F: Family>(&self, address: &F) -> Option<u64>
        ensures { result ≡ image_walk (image_of self.now) (F.Family.row address.now) }
    {
        if self.vertices == 0 {
            return Some(0);
        }
        let width = F::W as u64;
        let stride = self.stride;
        let mut vertex = 1;
        let mut taken = 0;
        loop {
            if taken >= width {
                break None;
            }
            let edge = next_edge(address, taken, stride);
            taken += stride.bits;
            let Some(to) = self.edge(vertex, edge) else {
                let marks = self.marks_of(vertex);
                let mut t = 0;
                'run: for other in 0..stride.edges() {
                    if mark(marks, other) == mark(marks, edge) {
                        t += 1;
                    } else if other > edge {
                        break 'run;
                    } else {
                        t = 0;
                    }
                }
                break leaf_bits(stride, width, taken, t);
            };
            if u64::from(to) > self.vertices {
                break None;
            }
            vertex = to;
        }
    }

    // The leaf's length for the address, and the leaf store's entry or none. Refused where the image is broken on the way.
    pub fn walk<F: Family, L: Store>(
        &self,
        address: &F,
        leaves: &L,
    ) -> Result<(usize, Option<u16>), Refusal>
        ensures { Walked (image_of self.now) (F.Family.row address.now) (L.content leaves.now) result }
    {
        let length = self.leaf_length(address).ok_or(Refusal::ImageBroken)? as usize;
        Ok((length, leaves.get(&address.front(length))))
    }
}
