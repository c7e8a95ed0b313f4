// A prefix: the first bits of an address. Its halves hold them from the most significant bit on. It has no model, and clauses name its
// row by `row_of`: choosers are defined on halves and length, which a model would hide.
ghost use Rattle.std.specs.Prelude.{◌≡◌, ◌^◌, ◌<◌, ◌≤◌, false, drop};
ghost use Rattle.bits.specs.Rows.{any_one, halves as bits_of};

use bits::Halves;

pub mod calls;

#[derive(Clone, Copy, Debug)]
pub struct Prefix {
    halves: Halves,
    len: u8,
    ghost short: { len ≤ 128 },
    ghost fits: { (halves.first < 2 ^ 64) × (halves.second < 2 ^ 64) },
    // no bit past the length is 1
    ghost clear: { any_one (drop len (bits_of halves.first halves.second)) ≡ false },
}
