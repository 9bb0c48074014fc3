//! A reader of a tape.
ghost use Rattle.std.specs.Prelude.{◌≡◌, ◌<◌, [], ◌∷◌, length, Ok, Err, MatchResult};
ghost use Rattle.std.specs.Iterator.{item_count};
ghost use Rattle.tape.specs.Reading.{too_long, to_come, to_hand_on, all_of};
ghost use Rattle.tape.specs.Readers.{left, Next};
ghost use Rattle.tape.specs.Holds.{Gives};

use crate::command::Command;
use crate::kind::Kind;
use faults::{Fault, Layer, MOST_BYTES, Refusal};

/// What a reader hands on next.
#[derive(Clone, Copy)]
enum Place {
    /// The fault that the tape is too long.
    Overlong,
    /// The command that begins at this offset; at the tape's length nothing, as after the last command or a fault.
    At(usize),
}

/// A reader that hands on the commands of a tape one by one, up to the first fault, and then that
/// fault.
#[derive(Drop)]
pub struct TapeReader<'a> {
    tape: &'a [u8],
    place: Place,
}

/// The command at an offset and where the next one begins, or what is amiss there.
fn command_at(tape: &[u8], at: usize) -> Result<(Command, usize), Fault>
    requires { at < length tape.now }
    ensures { MatchResult result (λ p. to_come tape.now at ≡ Ok p.0 ∷ to_come tape.now p.1) (λ f. to_come tape.now at ≡ Err f ∷ []) }
{
    let kind = Kind::try_from(tape[at]).map_err(|refusal| Layer::Tape.fault(refusal, at))?;
    let width = kind.width();
    let operands = tape[at + 1..]
        .get(..width)
        .ok_or_else(|| Layer::Tape.fault(Refusal::OperandsCutShort, at))?;
    Ok((kind.with_operands(operands), at + 1 + width))
}

impl<'a> TapeReader<'a> {
    /// A reader that goes on from an offset. A step of its own, so that what `new` promises of offset 0 is
    /// proved of its call.
    fn from_offset(tape: &'a [u8], at: usize) -> TapeReader<'a>
        ensures comes { left result ≡ to_hand_on (too_long tape.now) tape.now at }
        ensures format { Gives tape.now (all_of tape.now) }
    {
        let place = if tape.len() > MOST_BYTES {
            Place::Overlong
        } else {
            Place::At(at)
        };
        TapeReader { tape, place }
    }

    /// A reader at the start of a tape. It will hand on the commands that the tape holds before its
    /// first fault, and that fault, and nothing else.
    pub fn new(tape: &'a [u8]) -> TapeReader<'a>
        ensures { Gives tape.now (left result) }
    {
        TapeReader::from_offset(tape, 0)
    }
}

impl Iterator for TapeReader<'_> {
    type Item = Result<Command, Fault>;

    ghost next_gives = { Next };

    ghost remaining = { item_count left };

    /// The next command, or the fault that ends the tape; None at the end and after a fault.
    fn next(&mut self) -> Option<Result<Command, Fault>> {
        let end = Place::At(self.tape.len());
        match self.place {
            Place::At(at) if at < self.tape.len() => match command_at(self.tape, at) {
                Ok((command, next)) => {
                    self.place = Place::At(next);
                    Some(Ok(command))
                }
                Err(fault) => {
                    self.place = end;
                    Some(Err(fault))
                }
            },
            Place::At(_) => None,
            Place::Overlong => {
                self.place = end;
                Some(Err(Layer::Tape.fault(Refusal::InputTooLong, 0)))
            }
        }
    }
}
