// Writing a message of a named type of an edition from its cells.
#![tactic(auto)]

ghost use Rattle.std.specs.Prelude.{◌≡◌};
ghost use Rattle.answers.specs.Answers.{answered};
ghost use Rattle.meaning.specs.Messages.{write_message, bytes_after};

use answers::{Done, Failure, Reason, Refusal};
use types::FIRST_EDITION;
use writing::write_row;

// Writes the value whose cells are all of `sheet`, of the type with this type number in this edition, as a message into `bytes`, and
// answers how many bits and bytes it has, or why nothing was handed over. A refusal changes no byte.
pub fn write(
    edition: u64,
    type_number: u64,
    sheet: &[i64],
    bytes: &mut [u8],
) -> Result<Done, Failure>
    ensures answer { answered result ≡ write_message edition type_number sheet.now bytes.old }
    ensures message { bytes.new ≡ bytes_after edition type_number sheet.now bytes.old }
{
    let Some(row) = types::row_of(type_number) else {
        return Err(Failure::Refused(Refusal::new(Reason::UnknownType, 0)));
    };
    if edition != FIRST_EDITION {
        return Err(Failure::Refused(Refusal::new(Reason::UnknownEdition, 0)));
    }
    write_row(row, sheet, bytes)
}
