// The calls on a layer. Where an entry goes is promised; only the slot inside a bucket and the bucket of last resort are left open.
ghost use Rattle.std.specs.Prelude.{◌≡◌, ◌+◌, min, None, false};
ghost use Rattle.net.specs.Prefix.{row_of};
ghost use Rattle.store.specs.Content.{absent, bad_hop, Empty, Puts, Removes};
ghost use Rattle.layer.specs.Buckets.{strays_in};
ghost use Rattle.layer.specs.Seen.{content_of, place_in, PlacedIn, PutPlacesIn};

use super::Layer;
use crate::bucket::{Buckets, SLOTS};
use crate::place::Place;
use chooser::Chooser;
use net::Prefix;
use refusal::Refusal;
use store::{Entry, Store};

// No store has a higher limit.
pub const MOST: u64 = 16_777_216;

impl<C: Chooser, S: Store> Layer<C, S> {
    // Sets a layer up on a store, and empties both.
    pub fn new(chooser: C, mut below: S) -> Layer<C, S>
        ensures empties { Empty (content_of result) }
        ensures emptied { Empty (S.content result.below) }
        ensures limits { (content_of result).limit ≡ min (768 + (S.content below).limit) 16777216 }
    {
        below.clear();
        Layer {
            chooser,
            below,
            buckets: Buckets::empty(),
            strays: 0,
        }
    }

    // Where the prefix is, or none.
    pub fn place(&self, prefix: &Prefix) -> Option<Place>
        ensures { result ≡ place_in self.now (row_of prefix.now) }
    {
        if let Some(i) = self.find(prefix) {
            return Some(Place::Bucket((i / 3) as u8));
        }
        if self.below.get(prefix).is_some() {
            return Some(Place::Below);
        }
        None
    }

    // How many entries lie in none of their four buckets.
    pub fn strays(&self) -> u64
        ensures { result ≡ strays_in C.bucket self.now.buckets.slots }
    {
        u64::from(self.strays)
    }

    // Sets the hop of a prefix that is not held.
    fn enter(&mut self, prefix: &Prefix, hop: u16) -> Result<(), Refusal>
        requires fresh { (content_of self.old).map (row_of prefix.now) ≡ absent }
        requires good { bad_hop hop ≡ false }
        ensures limits { (S.content self.new.below).limit ≡ (S.content self.old.below).limit }
        ensures puts { Puts (row_of prefix.now) hop (content_of self.old) (content_of self.new) result }
        ensures places { PutPlacesIn prefix.now self.old self.new result }
    {
        if self.held() == self.limit() {
            return Err(Refusal::StoreFull);
        }
        let entry = Entry {
            prefix: *prefix,
            hop,
        };
        if let Some(i) = self.room(prefix) {
            self.buckets.write(i, Some(entry));
            return Ok(());
        }
        if self.below.put(prefix, u64::from(hop)).is_ok() {
            return Ok(());
        }
        // The last resort: below its limit a layer has a free slot then.
        let i = self.buckets.find_free().ok_or(Refusal::StoreFull)?;
        self.buckets.write(i, Some(entry));
        self.strays += 1;
        Ok(())
    }
}

impl<C: Chooser, S: Store> Store for Layer<C, S> {
    ghost use Rattle.layer.specs.Numbers.{layer_sound};

    ghost content = { λ l. content_of l };

    ghost sound = { λ l. layer_sound l.buckets.slots (S.content l.below) l.buckets.long l.apart l.separate l.most (S.sound l.below) };

    fn get(&self, prefix: &Prefix) -> Option<u16> {
        if let Some(i) = self.find(prefix) {
            return self.buckets.hop_at(i);
        }
        self.below.get(prefix)
    }

    fn held(&self) -> u64 {
        self.buckets.used() + self.below.held()
    }

    fn limit(&self) -> u64 {
        (SLOTS as u64 + self.below.limit()).min(MOST)
    }

    fn put(&mut self, prefix: &Prefix, hop: u64) -> Result<(), Refusal>
        ensures limits { (content_of self.new).limit ≡ (content_of self.old).limit }
        ensures puts { Puts (row_of prefix.now) hop (content_of self.old) (content_of self.new) result }
        ensures places { PutPlacesIn prefix.now self.old self.new result }
    {
        let hop = refusal::hop(hop)?;
        if let Some(i) = self.find(prefix) {
            let entry = Entry {
                prefix: *prefix,
                hop,
            };
            self.buckets.write(i, Some(entry));
            return Ok(());
        }
        if self.below.get(prefix).is_some() {
            return self.below.put(prefix, u64::from(hop));
        }
        self.enter(prefix, hop)
    }

    fn remove(&mut self, prefix: &Prefix) -> Option<u16>
        ensures limits { (content_of self.new).limit ≡ (content_of self.old).limit }
        ensures removes { Removes (row_of prefix.now) (content_of self.old) (content_of self.new) result }
        ensures places { PlacedIn (row_of prefix.now) None self.old self.new }
    {
        let Some(i) = self.find(prefix) else {
            return self.below.remove(prefix);
        };
        let hop = self.buckets.hop_at(i);
        let stray = self.astray(prefix, i / 3);
        self.buckets.write(i, None);
        self.strays -= u16::from(stray);
        hop
    }

    fn clear(&mut self) {
        self.buckets = Buckets::empty();
        self.strays = 0;
        self.below.clear();
    }
}
