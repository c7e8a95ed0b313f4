// A store that is lent is a store again, so that a layer can stand on a store that the caller keeps.
ghost use Rattle.std.specs.Prelude.{◌≡◌};

use crate::store::Store;
use net::Prefix;
use refusal::Refusal;

#[derive(Drop)]
pub struct Lent<'a, S> {
    store: &'a mut S,
}

impl<'a, S: Store> Lent<'a, S> {
    pub fn new(store: &'a mut S) -> Lent<'a, S>
        ensures { result.store.now ≡ store.old }
    {
        Lent { store }
    }
}

impl<S: Store> Store for Lent<'_, S> {
    ghost content = { λ s. S.content s.store.now };

    ghost sound = { λ s. S.sound s.store.now };

    fn get(&self, prefix: &Prefix) -> Option<u16> {
        self.store.get(prefix)
    }

    fn held(&self) -> u64 {
        self.store.held()
    }

    fn limit(&self) -> u64 {
        self.store.limit()
    }

    fn put(&mut self, prefix: &Prefix, hop: u64) -> Result<(), Refusal> {
        self.store.put(prefix, hop)
    }

    fn remove(&mut self, prefix: &Prefix) -> Option<u16> {
        self.store.remove(prefix)
    }

    fn clear(&mut self) {
        self.store.clear();
    }
}
