// The reader of lines: which command a line is, with each field as a part of the line.
#![tactic(auto)]

mod fields;

ghost use Rattle.command.specs.Command.{command_of, Reads};

use fields::Fields;

// A field, as a part of its line, and the column of its first byte, counted from 1.
#[derive(Clone, Copy)]
pub struct Field<'a> {
    pub bytes: &'a [u8],
    pub column: u64,
}

// What a line asks for, by its letter.
#[derive(Clone, Copy)]
pub enum Command<'a> {
    // An address, a length and a hop.
    Announce(Field<'a>, Field<'a>, Field<'a>),
    // An address and a length.
    Withdraw(Field<'a>, Field<'a>),
    // An address.
    Lookup(Field<'a>),
    Count,
}

// The longest command.
const MOST_BYTES: usize = 80;

// The command that a line is, if it is one: at most 80 bytes, a known letter, and as many fields as the letter asks.
pub fn read(line: &[u8]) -> Option<Command<'_>>
    ensures { Reads (command_of line.now) result }
{
    if line.len() > MOST_BYTES {
        return None;
    }
    let mut fields = Fields::new(line);
    let first = fields.next()?;
    // A pattern of a slice: a letter is a field of one byte.
    let [letter] = first.bytes else {
        return None;
    };
    let command = match char::from(*letter) {
        'A' => Command::Announce(fields.next()?, fields.next()?, fields.next()?),
        'W' => Command::Withdraw(fields.next()?, fields.next()?),
        'L' => Command::Lookup(fields.next()?),
        'Q' => Command::Count,
        _ => return None,
    };
    fields.is_done().then_some(command)
}
