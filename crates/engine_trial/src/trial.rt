// An engine beside its model, and calls drawn for both.
use crate::model::Model;
use crate::outcome::Tally;
use crate::row::Row;
use bits::Halves;
use engine::{Call, Engine};
use net::Family;
use random::Generator;
use std::alloc::{AllocError, Global};
use store::Store;

// How calls are drawn: how many, how many different prefixes, and how long they are at least.
#[derive(Clone, Copy)]
pub struct Plan {
    pub calls: u64,
    pub prefixes: u64,
    pub shortest: u64,
    pub all_addresses: bool,
}

#[derive(Drop)]
pub struct Trial<F: Family, R: Store, L: Store> {
    engine: Engine<F, R, L>,
    model: Model,
    random: Generator,
    plan: Plan,
    tally: Tally,
}

fn address_of<F: Family>(row: &Row) -> F {
    let (first, second) = row.halves();
    F::from_halves(Halves { first, second })
}

// The call on an address of the family.
fn on_family<F: Family>(call: Call<Row>) -> Call<F> {
    match call {
        Call::Announce(row, len, hop) => Call::Announce(address_of(&row), len, hop),
        Call::Withdraw(row, len) => Call::Withdraw(address_of(&row), len),
        Call::Lookup(row) => Call::Lookup(address_of(&row)),
        Call::Count => Call::Count,
    }
}

impl<F: Family + Copy, R: Store, L: Store> Trial<F, R, L> {
    pub fn new(heap: Global, routes: R, leaves: L, plan: Plan) -> Trial<F, R, L> {
        let width = F::W as u64;
        let model = Model::new(heap, width, routes.limit(), leaves.limit());
        Trial {
            engine: Engine::new(routes, leaves),
            model,
            random: Generator::new(1_804_289_383),
            plan,
            tally: Tally::default(),
        }
    }

    pub fn tally(&self) -> Tally {
        self.tally
    }

    pub fn calls(&mut self) -> Result<(), AllocError> {
        for _ in 0..self.plan.calls {
            let (row, len) = self.draw_prefix();
            if let Some(call) = self.draw_call(row, len) {
                self.call(call)?;
            }
            self.look_around(row)?;
        }
        Ok(())
    }

    // A whole address, with a length for its prefix: mostly with no bit past the length, sometimes with some, sometimes too long.
    fn draw_prefix(&mut self) -> (Row, u64) {
        let width = F::W as u64;
        let number = self.random.below(self.plan.prefixes).saturating_add(1);
        let first = number.wrapping_mul(0x9e37_79b9_7f4a_7c15);
        let second = number.wrapping_mul(0xc2b2_ae3d_27d4_eb4f);
        let spread = Row::from_halves(first, second).front(width);
        let shortest = self.plan.shortest;
        let lengths = width.saturating_add(1).saturating_sub(shortest);
        let len = shortest.saturating_add((first >> 7) % lengths.max(1));
        match self.random.below(40) {
            0 => (spread, len),
            1 => (spread, width.saturating_add(1)),
            _ => (spread.front(len).front(width), len),
        }
    }

    // Mostly a change of the prefix's route, sometimes a count, sometimes none.
    fn draw_call(&mut self, row: Row, len: u64) -> Option<Call<Row>> {
        match self.random.below(20) {
            0..=10 => {
                let hop = match self.random.below(30) {
                    0 => 0,
                    1 => 65_536,
                    _ => 1 + self.random.below(65_535),
                };
                Some(Call::Announce(row, len, hop))
            }
            11..=17 => Some(Call::Withdraw(row, len)),
            18 => Some(Call::Count),
            _ => None,
        }
    }

    fn call(&mut self, call: Call<Row>) -> Result<(), AllocError> {
        let answer = self.engine.step(on_family(call));
        let expected = self.model.step(call)?;
        self.tally.note(expected, answer);
        Ok(())
    }

    // After a change: every address of a narrow family, or one below the changed prefix and two elsewhere.
    fn look_around(&mut self, near: Row) -> Result<(), AllocError> {
        if self.plan.all_addresses {
            for n in 0..32u64 {
                let row = Row::from_halves(n << 59, 0).front(F::W as u64);
                self.call(Call::Lookup(row))?;
            }
            return Ok(());
        }
        self.call(Call::Lookup(near))?;
        for _ in 0..2 {
            let (row, _) = self.draw_prefix();
            self.call(Call::Lookup(row))?;
        }
        Ok(())
    }
}
