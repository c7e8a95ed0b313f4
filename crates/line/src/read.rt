// The call that a line stands for.
ghost use Rattle.std.specs.Prelude.{◌≡◌, Some, None, MatchResult};
ghost use Rattle.refusal.specs.declared.Refusal.TheVariants as refusals;
ghost use Rattle.text.specs.Fields.{decimal};
ghost use Rattle.command.specs.Command.{part_of, spelled};
ghost use Rattle.line.specs.Line.{address, meant, read_line, Means, ReadsField};

use command::{Command, Field};
use engine::Call;
use net::Family;
use refusal::Refusal;

// The call that a line stands for to a family. Refused: a line that is no command, and any line where the width is no multiple of 4;
// then the leftmost field that is ill written.
pub fn read_call<F: Family + Copy>(line: &[u8]) -> Result<Call<F>, Refusal>
    ensures { Means F.Family.row (read_line F.W line.now) result }
{
    if F::W % 4 != 0 {
        return Err(Refusal::Line);
    }
    call_of(command::read(line).ok_or(Refusal::Line)?)
}

fn call_of<F: Family + Copy>(command: Command<'_>) -> Result<Call<F>, Refusal>
    ensures { Means F.Family.row (meant F.W (spelled command.entry)) result }
{
    match command {
        Command::Announce(address, len, hop) => {
            let address = read_address(address)?;
            let len = read_number(len)?;
            let hop = read_number(hop)?;
            Ok(Call::Announce(address, len, hop))
        }
        Command::Withdraw(address, len) => {
            let address = read_address(address)?;
            let len = read_number(len)?;
            Ok(Call::Withdraw(address, len))
        }
        Command::Lookup(address) => Ok(Call::Lookup(read_address(address)?)),
        Command::Count => Ok(Call::Count),
    }
}

// The address whose bits the field writes, four with each digit.
fn read_address<F: Family + Copy>(field: Field<'_>) -> Result<F, Refusal>
    ensures { ReadsField (part_of field.entry).column (address F.W (part_of field.entry).bytes) (λ a. Some (F.Family.row a)) result }
{
    if field.bytes.len().saturating_mul(4) != F::W {
        return Err(ill_written(field));
    }
    let halves = text::hexadecimal(field.bytes).ok_or(ill_written(field))?;
    Ok(F::from_halves(halves))
}

fn read_number(field: Field<'_>) -> Result<u64, Refusal>
    ensures { ReadsField (part_of field.entry).column (decimal (part_of field.entry).bytes) (λ n. Some n) result }
{
    text::decimal(field.bytes)
        .map(u64::from)
        .ok_or(ill_written(field))
}

// Why a field is refused that writes nothing.
fn ill_written(field: Field<'_>) -> Refusal
    ensures { result ≡ refusals.Field field.entry.column }
{
    Refusal::Field {
        column: field.column,
    }
}
