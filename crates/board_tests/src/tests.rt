//! Boards under a rule that serves every trip but those from berth 9.
ghost use Rattle.std.specs.Prelude.{None};
ghost use Rattle.board_tests.specs.Quay.{quay_yard, no_link, yard_bound};

use board::Board;
use faults::Fault;
use rules::{Rule, YardCents};
use std::alloc::{AllocError, Global};
use std::process::Abort;
use std::test::Fail;
use trips::Trip;

/// The rule of a quay from which every trip is served but those from berth 9, and none linked.
#[derive(Clone, Copy)]
struct Quay;

impl Rule for Quay {
    ghost yard = { λ _ t. quay_yard t };

    ghost link = { λ _ _ _. None };

    ghost forward = { λ _ a b n e. no_link n e };

    ghost yardbound = { λ _ t y e. yard_bound t y e };

    ghost linkbound = { λ _ a b n e. no_link n e };

    fn yard_cents(&self, trip: &Trip) -> Option<YardCents> {
        if trip.start == 9 {
            None
        } else {
            Some(YardCents { out: 0, home: 0 })
        }
    }

    fn link_cents(&self, _from: &Trip, _to: &Trip) -> Option<u32> {
        None
    }
}

/// What a call answers is this text, as users see it: a fault, or nothing where it is accepted.
fn expect(
    rt: &impl Abort,
    heap: Global,
    answer: Result<(), Fault>,
    text: &str,
) -> Result<(), Fail> {
    let shown = match answer {
        Ok(()) => String::new(heap),
        Err(fault) => format!(in heap; "{fault}")?,
    };
    assert_eq!(rt; shown.as_str(), text);
    Ok(())
}

/// A board that is tried, with the memory for what it answers.
#[derive(Drop)]
struct Trial {
    heap: Global,
    board: Board,
}

impl Trial {
    fn new(heap: Global) -> Result<Trial, AllocError> {
        Ok(Trial {
            heap,
            board: Board::new(heap)?,
        })
    }

    fn add(&mut self, rt: &impl Abort, trip: Trip, text: &str) -> Result<(), Fail> {
        expect(rt, self.heap, self.board.add(&Quay, trip), text)
    }

    fn withdraw(&mut self, rt: &impl Abort, number: u16, text: &str) -> Result<(), Fail> {
        expect(rt, self.heap, self.board.withdraw(number), text)
    }

    fn set_limit(&mut self, rt: &impl Abort, limit: u16, text: &str) -> Result<(), Fail> {
        expect(rt, self.heap, self.board.set_limit(limit), text)
    }
}

/// A trip from berth 0 to berth 1 with this number, which takes a minute.
fn brief(number: u16, departure: u16) -> Trip {
    Trip::new(number, 0, departure, 1, departure.saturating_add(1))
}

#[test]
fn ranges_have_their_edges(rt: HostRuntime) -> Result<(), Fail> {
    let mut trial = Trial::new(rt.alloc())?;
    trial.add(&rt, Trip::new(65_535, 31, 20_159, 31, 20_160), "")?;
    trial.add(&rt, Trip::new(1, 0, 0, 0, 1), "")?;
    trial.add(&rt, Trip::new(0, 0, 0, 0, 1), "refused 13 board 0")?;
    trial.add(&rt, Trip::new(7, 32, 0, 0, 1), "refused 13 board 7")?;
    trial.add(&rt, Trip::new(7, 0, 0, 32, 1), "refused 13 board 7")?;
    trial.add(&rt, Trip::new(7, 0, 0, 0, 20_161), "refused 13 board 7")?;
    trial.add(&rt, Trip::new(7, 0, 20_161, 0, 1), "refused 13 board 7")?;
    trial.add(&rt, Trip::new(7, 0, 5, 0, 5), "refused 14 board 7")
}

#[test]
fn the_first_reason_is_given(rt: HostRuntime) -> Result<(), Fail> {
    let mut trial = Trial::new(rt.alloc())?;
    trial.add(&rt, brief(5, 10), "")?;
    trial.add(&rt, Trip::new(5, 32, 7, 0, 6), "refused 13 board 5")?;
    trial.add(&rt, Trip::new(5, 9, 7, 0, 6), "refused 14 board 5")?;
    trial.add(&rt, Trip::new(5, 9, 7, 0, 8), "refused 15 board 5")?;
    trial.add(&rt, Trip::new(6, 9, 7, 0, 8), "refused 16 board 6")
}

#[test]
fn two_hundred_trips_fill_a_board(rt: HostRuntime) -> Result<(), Fail> {
    let mut trial = Trial::new(rt.alloc())?;
    for number in 1..201 {
        trial.add(&rt, brief(number, 7), "")?;
    }
    assert_eq!(rt; trial.board.trips().len(), 200);
    trial.add(&rt, brief(201, 7), "refused 17 board 201")?;
    trial.add(&rt, Trip::new(201, 9, 7, 0, 8), "refused 16 board 201")?;
    trial.add(&rt, brief(200, 7), "refused 15 board 200")?;
    trial.withdraw(&rt, 200, "")?;
    trial.add(&rt, brief(201, 7), "")
}

#[test]
fn a_trip_is_withdrawn_once(rt: HostRuntime) -> Result<(), Fail> {
    let mut trial = Trial::new(rt.alloc())?;
    trial.add(&rt, brief(5, 10), "")?;
    trial.withdraw(&rt, 5, "")?;
    trial.withdraw(&rt, 5, "refused 18 board 5")?;
    trial.add(&rt, brief(5, 30), "")?;
    assert_eq!(rt; trial.board.trips().len(), 1);
    Ok(())
}

#[test]
fn trips_stand_by_departure_and_number(rt: HostRuntime) -> Result<(), Fail> {
    let mut trial = Trial::new(rt.alloc())?;
    trial.add(&rt, brief(3, 20), "")?;
    trial.add(&rt, brief(9, 10), "")?;
    trial.add(&rt, brief(2, 20), "")?;
    trial.add(&rt, brief(1, 30), "")?;
    trial.withdraw(&rt, 3, "")?;
    assert_eq!(rt;
        trial.board.trips(),
        [brief(9, 10), brief(2, 20), brief(1, 30)].as_slice()
    );
    Ok(())
}

#[test]
fn the_limit_is_at_most_200(rt: HostRuntime) -> Result<(), Fail> {
    let mut trial = Trial::new(rt.alloc())?;
    assert_eq!(rt; trial.board.limit(), 0);
    trial.set_limit(&rt, 200, "")?;
    trial.set_limit(&rt, 201, "refused 19 board 201")?;
    assert_eq!(rt; trial.board.limit(), 200);
    Ok(())
}
