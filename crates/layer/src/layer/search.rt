// Where a layer has a prefix, and where it has room for one.
ghost use Rattle.std.specs.Prelude.{◌≡◌, not};
ghost use Rattle.net.specs.Prefix.{row_of};
ghost use Rattle.store.specs.Slots.{spot};
ghost use Rattle.layer.specs.Buckets.{near, FindsNear, Rooms};

use super::Layer;
use chooser::Chooser;
use net::Prefix;
use store::Store;

impl<C: Chooser, S: Store> Layer<C, S> {
    // The slot that holds the prefix, in one of its four buckets. Each try costs a hash. A `find_map` over the tries found no proof.
    fn find_near(&self, prefix: &Prefix) -> Option<usize>
        ensures { FindsNear C.bucket self.now.buckets.slots prefix.now result }
    {
        for attempt in 0..4 {
            let chosen = self.chooser.choose(prefix, attempt);
            if let Some(i) = self.buckets.find_in(chosen, prefix) {
                return Some(i);
            }
        }
        None
    }

    // The slot that holds the prefix. All slots are searched only while some entry is astray.
    pub(super) fn find(&self, prefix: &Prefix) -> Option<usize>
        ensures { result ≡ spot self.now.buckets.slots (row_of prefix.now) }
    {
        if let Some(i) = self.find_near(prefix) {
            return Some(i);
        }
        if self.strays == 0 {
            return None;
        }
        self.buckets.find(prefix)
    }

    // Whether the bucket is none of the prefix's four.
    pub(super) fn astray(&self, prefix: &Prefix, bucket: usize) -> bool
        ensures { result ≡ not (near C.bucket prefix.now bucket) }
    {
        !(0..4).any(|attempt| usize::from(self.chooser.choose(prefix, attempt)) == bucket)
    }

    // A free slot in the least filled of the prefix's four buckets, the earliest try among equals; none where all four are full.
    // A `min_by_key` over the tries would answer an `Option` that is always there, so the loop is the plainer.
    pub(super) fn room(&self, prefix: &Prefix) -> Option<usize>
        ensures { Rooms C.bucket self.now.buckets.slots prefix.now result }
    {
        let mut best = self.chooser.choose(prefix, 0);
        let mut least = self.buckets.fill(best);
        for attempt in 1..4 {
            let chosen = self.chooser.choose(prefix, attempt);
            let fill = self.buckets.fill(chosen);
            if fill < least {
                best = chosen;
                least = fill;
            }
        }
        self.buckets.free_in(best)
    }
}
