//! The page that answers are written on.
ghost use Rattle.std.specs.Prelude.{◌≡◌, ◌++◌, Ok, string_bytes, OnOk};
ghost use Rattle.tape_report.specs.Texts.{Added, answer_text, heard_text};

use calls::{Answer, Done};
use plan_report::PlanLines;
use plans::Plan;
use rows::Rowed;
use runs::Listener;
use std::alloc::AllocError;
use trips::Trip;

/// Text to which each answer's lines are added as it is heard. Once there was no memory for some line, there is no text, and
/// nothing is added any more.
#[derive(Drop)]
pub(crate) struct Page {
    pub(crate) text: Result<String, AllocError>,
}

/// Adds the lines of a plan.
fn write_plan<V: Rowed>(
    text: &mut String,
    plan: &Plan<V>,
    trips: &[Trip],
    successors: &[u16],
) -> Result<(), AllocError>
    ensures { OnOk result (string_bytes text.new ≡ string_bytes text.old ++ answer_text V.Rowed.row (Ok (Done.Planned plan.now)) trips.now successors.now) }
{
    let planned = &successors[..successors.len().min(trips.len())];
    let lines = PlanLines::new(planned, trips, plan.duties, plan.cost);
    write!(text, "{lines}")
}

/// Adds the lines of an answer.
fn write_answer<V: Rowed>(
    text: &mut String,
    answer: &Answer<V>,
    trips: &[Trip],
    successors: &[u16],
) -> Result<(), AllocError>
    ensures { OnOk result (string_bytes text.new ≡ string_bytes text.old ++ answer_text V.Rowed.row answer.now trips.now successors.now) }
{
    match answer {
        Ok(Done::Altered) => writeln!(text, "ok"),
        Ok(Done::Planned(plan)) => write_plan(text, plan, trips, successors),
        Err(fault) => writeln!(text, "{fault}"),
    }
}

impl<V: Rowed> Listener<V> for Page {
    ghost told = { λ s h t. Added string_bytes s.text t.text (heard_text V.Rowed.row h) };

    fn hear(&mut self, answer: &Answer<V>, trips: &[Trip], successors: &[u16], _prices: &[V]) {
        let Ok(text) = &mut self.text else {
            return;
        };
        if let Err(error) = write_answer(text, answer, trips, successors) {
            self.text = Err(error);
        }
    }
}
