// The fields of a line, one after the other.
ghost use Rattle.std.specs.Prelude.{◌+◌, ◌^◌, ◌≤◌, length};
ghost use Rattle.std.specs.Option.{ForSome};

use crate::Field;

// What follows the commas passed so far, if the last field is not out yet, and the column where it begins.
#[derive(Drop)]
pub(crate) struct Fields<'a> {
    rest: Option<&'a [u8]>,
    column: u64,
    ghost fits: { ForSome rest (λ r. column + length r.now ≤ 2 ^ 63) },
}

impl<'a> Fields<'a> {
    ghost use Rattle.std.specs.Prelude.{◌≡◌};
    ghost use Rattle.text.specs.Fields.{fields};
    ghost use Rattle.command.specs.Command.{placed};
    ghost use Rattle.command.specs.Left.{left, Done};

    pub(crate) fn new(line: &'a [u8]) -> Fields<'a>
        ensures { left result ≡ placed 1 (fields line.now) }
    {
        Fields {
            rest: Some(line),
            column: 1,
        }
    }

    // Whether no field is left. The bytes of the last one are not looked at.
    pub(crate) fn is_done(&self) -> bool
        ensures { Done self.now result }
    {
        self.rest.is_none()
    }
}

impl<'a> Iterator for Fields<'a> {
    type Item = Field<'a>;

    ghost use Rattle.command.specs.Left.{Gives};

    ghost next_gives = { Gives };

    #[tactic(auto, using(crate::proofs::Cutting::last_field, crate::proofs::Cutting::first_field))]
    fn next(&mut self) -> Option<Field<'a>> {
        let rest = self.rest?;
        let column = self.column;
        let Some(end) = text::first(rest, b',') else {
            self.rest = None;
            return Some(Field {
                bytes: rest,
                column,
            });
        };
        self.rest = Some(&rest[end + 1..]);
        self.column += end as u64 + 1;
        Some(Field {
            bytes: &rest[..end],
            column,
        })
    }
}
