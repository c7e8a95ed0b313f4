// Listings: a prefix a line, as hexadecimal digits of the address, a comma and a decimal length.
#![tactic(auto)]

ghost use Rattle.std.specs.Prelude.{◌≡◌, ◌+◌, ◌*◌, length};
ghost use Rattle.text.specs.Fields.{decimal, hex_row};
ghost use Rattle.listing.specs.Listing.{address_row, read_prefix, read_two, Reads};

use net::family::network;
use net::{Family, Ipv4, Ipv6, Prefix};
use refusal::Refusal;

// The prefix that a line stands for.
pub fn prefix(line: &[u8]) -> Result<Prefix, Refusal>
    ensures { Reads (read_prefix line.now) result }
{
    let (address, len) = text::split_once(line, b',').ok_or(Refusal::Line)?;
    if text::first(len, b',').is_some() {
        return Err(Refusal::Line);
    }
    two_fields(address, len)
}

// The prefix of an address field and the length field behind it.
fn two_fields(address: &[u8], len: &[u8]) -> Result<Prefix, Refusal>
    ensures { Reads (read_two (address_row address.now) (decimal len.now) (length address.now + 2)) result }
{
    match address.len() {
        8 => under::<Ipv4>(address, len),
        32 => under::<Ipv6>(address, len),
        _ => Err(Refusal::Field { column: 1 }),
    }
}

// The same in a family, where each digit of the address writes four bits of it.
fn under<F: Family + Copy>(address: &[u8], len: &[u8]) -> Result<Prefix, Refusal>
    requires { 4 * length address.now ≡ F.W }
    ensures { Reads (read_two (hex_row address.now) (decimal len.now) (length address.now + 2)) result }
{
    let halves = text::hexadecimal(address).ok_or(Refusal::Field { column: 1 })?;
    let column = address.len() as u64 + 2;
    let bits = text::decimal(len).ok_or(Refusal::Field { column })?;
    network(&F::from_halves(halves), u64::from(bits))
}
