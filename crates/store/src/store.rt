// A store means a finite map from prefixes to hops, and a limit that never changes.
ghost use Rattle.std.specs.Prelude.{◌≡◌, ◌≤◌};
ghost use Rattle.net.specs.Prefix.{row_of};
ghost use Rattle.store.specs.Content.{Content, Puts, Removes, Empty, Sound};

use net::Prefix;
use refusal::Refusal;

pub trait Store {
    ghost content: { Self → Content };

    // The hop of a prefix, or none.
    fn get(&self, prefix: &Prefix) -> Option<u16>
        ensures { result ≡ (content self.now).map (row_of prefix.now) };

    // How many prefixes the map has.
    fn held(&self) -> u64
        ensures { result ≡ (content self.now).held };

    // How many it may have.
    fn limit(&self) -> u64
        ensures answer { result ≡ (content self.now).limit }
        ensures most { result ≤ 16777216 };

    // Sets the hop of a prefix. Refused: a number that is no hop, then a new prefix where the store is full.
    fn put(&mut self, prefix: &Prefix, hop: u64) -> Result<(), Refusal>
        ensures limits { (content self.new).limit ≡ (content self.old).limit }
        ensures puts { Puts (row_of prefix.now) hop (content self.old) (content self.new) result };

    // Takes a prefix out, and answers the hop that it had, or none.
    fn remove(&mut self, prefix: &Prefix) -> Option<u16>
        ensures limits { (content self.new).limit ≡ (content self.old).limit }
        ensures removes { Removes (row_of prefix.now) (content self.old) (content self.new) result };

    // Empties the map.
    fn clear(&mut self)
        ensures limits { (content self.new).limit ≡ (content self.old).limit }
        ensures empties { Empty (content self.new) };

    // Every store of the kind is sound, whatever was done to it.
    ghost sound: { (s : Self) → Sound (content s) };
}
