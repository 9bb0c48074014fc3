//! The kinds of commands: their letters, and what their operands say.
ghost use Rattle.std.specs.Prelude.{◌≡◌, ◌+◌, ◌≤◌, length};
ghost use Rattle.std.specs.Option.{ok_or};
ghost use Rattle.faults.specs.declared.refusal.Refusal.{Refusal};
ghost use Rattle.tape.specs.Kinds.{form, kind_of};
ghost use Rattle.tape.specs.Written.{word_at, command_of};

use crate::command::Command;
use faults::Refusal;

/// What a letter says: which command it begins.
#[derive(Clone, Copy)]
pub(crate) enum Kind {
    Add,
    Withdraw,
    Limit,
    Plan,
}

/// The number in two bytes, the high byte first.
fn word(bytes: &[u8], at: usize) -> u16
    requires { at + 2 ≤ length bytes.now }
    ensures { result ≡ word_at bytes.now at }
{
    u16::from_be_bytes([bytes[at], bytes[at + 1]])
}

impl TryFrom<u8> for Kind {
    type Error = Refusal;

    ghost try_from_gives = { λ letter kind. kind ≡ ok_or (kind_of letter) Refusal.UnknownLetter };

    /// The kind with this letter. A byte that is no kind's letter is refused.
    fn try_from(letter: u8) -> Result<Kind, Refusal> {
        match char::from(letter) {
            'A' => Ok(Kind::Add),
            'W' => Ok(Kind::Withdraw),
            'L' => Ok(Kind::Limit),
            'P' => Ok(Kind::Plan),
            _ => Err(Refusal::UnknownLetter),
        }
    }
}

impl Kind {
    /// How many bytes of operands follow the letter.
    pub(crate) fn width(self) -> usize
        ensures { result ≡ (form self).width }
    {
        match self {
            Kind::Add => 8,
            Kind::Withdraw => 2,
            Kind::Limit => 1,
            Kind::Plan => 0,
        }
    }

    /// The command of this kind with these operands.
    pub(crate) fn with_operands(self, operands: &[u8]) -> Command
        requires { length operands.now ≡ (form self).width }
        ensures { result ≡ command_of self operands.now }
    {
        match self {
            Kind::Add => Command::Add {
                number: word(operands, 0),
                start: operands[2],
                departure: word(operands, 3),
                end: operands[5],
                arrival: word(operands, 6),
            },
            Kind::Withdraw => Command::Withdraw {
                number: word(operands, 0),
            },
            Kind::Limit => Command::Limit { limit: operands[0] },
            Kind::Plan => Command::Plan,
        }
    }
}
