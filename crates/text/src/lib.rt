// The fields of a line: where they part, and the numbers and bits that they write.
#![tactic(auto)]

mod lines;

ghost use Rattle.std.specs.Prelude.{◌≡◌, ◌-◌, ◌*◌, ◌^◌, ◌<◌, ◌≤◌, [], ◌∷◌, length, IfSome, if◌then◌else◌, Some, None, MatchOption, nat_le};
ghost use Rattle.bits.specs.Rows.{padded, word};
ghost use Rattle.text.specs.Fields.{decimal as number_of, end_of_line, first_of, hex_digit, hex_row, is_digit, parted, Holds};

use bits::Halves;
pub use lines::Lines;

// The place of the first byte that is the mark.
pub fn first(bytes: &[u8], mark: u8) -> Option<usize>
    ensures place { result ≡ first_of mark bytes.now }
    ensures within { IfSome result (λ i. i < length bytes.now) }
{
    bytes.iter().position(|b| *b == mark)
}

// What stands before the first mark and what stands behind it, where there is one.
pub fn split_once(bytes: &[u8], mark: u8) -> Option<(&[u8], &[u8])>
    ensures { MatchOption result (parted mark bytes.now ≡ bytes.now ∷ []) (λ p. parted mark bytes.now ≡ p.0.now ∷ parted mark p.1.now) }
{
    let end = first(bytes, mark)?;
    Some((&bytes[..end], &bytes[end + 1..]))
}

// The end of the line that begins at `from`: the place of the next line feed, or the end of the input.
pub fn line_end(bytes: &[u8], from: usize) -> usize
    ensures place { result ≡ end_of_line bytes.now from }
    ensures within { result ≤ length bytes.now }
    ensures onward { from ≤ length bytes.now → from ≤ result }
{
    let len = bytes.len();
    if from > len {
        return len;
    }
    // A `map_or` with a closure found no proof here.
    match first(&bytes[from..len], b'\n') {
        Some(i) => from + i,
        None => len,
    }
}

const MOST_DIGITS: usize = 5;

// The number of one to five decimal digits without a leading zero, 0 itself excepted.
pub fn decimal(field: &[u8]) -> Option<u32>
    ensures { result ≡ number_of field.now }
{
    let len = field.len();
    if len == 0 || len > MOST_DIGITS {
        return None;
    }
    if len > 1 && field[0] == b'0' {
        return None;
    }
    let mut n = 0;
    for b in field {
        n = n * 10 + u32::from(decimal_value(*b)?);
    }
    Some(n)
}

fn decimal_value(b: u8) -> Option<u8>
    ensures { result ≡ if is_digit b then Some (b - 48) else None }
{
    match b {
        b'0'..=b'9' => Some(b - b'0'),
        _ => None,
    }
}

fn hex_value(b: u8) -> Option<u8>
    ensures { result ≡ hex_digit b }
{
    match b {
        b'0'..=b'9' => Some(b - b'0'),
        b'a'..=b'f' => Some(b - b'a' + 10),
        _ => None,
    }
}

// The number that up to sixteen hexadecimal digits write. The loop of `decimal` in another base: with digits and base as parameters it
// would take more lines than it saves.
fn hex_word(digits: &[u8]) -> Option<u64>
    requires { length digits.now ≤ 16 }
    ensures { MatchOption result (hex_row digits.now ≡ None) (λ n. (hex_row digits.now ≡ Some (word (4 * length digits.now) n)) × (n < 2 ^ (4 * length digits.now))) }
{
    let mut n: u64 = 0;
    for b in digits {
        n = n * 16 + u64::from(hex_value(*b)?);
    }
    Some(n)
}

// The bits of up to 32 lower-case hexadecimal digits, with zeros behind them.
pub fn hexadecimal(field: &[u8]) -> Option<Halves>
    ensures { Holds (if nat_le (length field.now) 32 then hex_row field.now else None) result }
{
    if field.len() > 32 {
        return None;
    }
    let (front, back) = field.split_at(field.len().min(16));
    Some(Halves {
        first: shifted(hex_word(front)?, front.len()),
        second: shifted(hex_word(back)?, back.len()),
    })
}

// The word that begins with the bits of these digits.
fn shifted(x: u64, digits: usize) -> u64
    requires few { digits ≤ 16 }
    requires small { x < 2 ^ (4 * digits) }
    ensures { word 64 result ≡ padded 64 (word (4 * digits) x) }
{
    if digits == 0 {
        0
    } else {
        x << (64 - 4 * digits)
    }
}
