//! The layers that can refuse, and the words by which they are shown.
ghost use Rattle.std.specs.Prelude.{◌≡◌, Some};
ghost use Rattle.faults.specs.Shown.{fault_at};
ghost use Rattle.faults.specs.Words.{word_of};

use crate::fault::Fault;
use crate::refusal::Refusal;
use std::fmt;

/// The part of the program that refused: one of the six sheets, the tape, or what is made of them.
#[derive(Clone, Copy, PartialEq, Eq, Debug)]
pub enum Layer {
    /// The sheet of fairways between berths.
    Edges,
    /// The sheet of the timetable's events.
    Events,
    /// The sheet of the timetable's activities.
    Activities,
    /// The sheet with the ferry office's settings.
    Settings,
    /// The sheet of which tow may follow which.
    Links,
    /// The sheet with the tow office's charges.
    Charges,
    /// The tape of calls.
    Tape,
    /// The timetable as a whole.
    Timetable,
    /// The board of standing trips.
    Board,
    /// The planner, with its rules and tariffs.
    Planner,
}

impl fmt::Display for Layer {
    ghost output = { λ layer. Some (word_of layer) };

    /// Writes the word by which the layer is shown.
    fn fmt<W: fmt::Write>(&self, f: &mut fmt::Formatter<W>) -> fmt::Result {
        f.write_str(self.word())
    }
}

impl Layer {
    /// The word by which the layer is shown.
    pub fn word(self) -> &'static str
        ensures { result.now ≡ word_of self }
    {
        match self {
            Layer::Edges => "edges",
            Layer::Events => "events",
            Layer::Activities => "activities",
            Layer::Settings => "settings",
            Layer::Links => "links",
            Layer::Charges => "charges",
            Layer::Tape => "tape",
            Layer::Timetable => "timetable",
            Layer::Board => "board",
            Layer::Planner => "planner",
        }
    }

    /// The fault of this layer with a refusal and the place that it speaks of.
    pub fn fault(self, refusal: Refusal, place: usize) -> Fault
        ensures { result ≡ fault_at self refusal place }
    {
        Fault {
            refusal,
            layer: self,
            place,
        }
    }
}
