//! A run writes what is stated of a bay before the search of the next begins.
use crate::calls::run_watched;
use crate::compare::assert_same;
use crate::six::{Choice, SIX_CONTAINERS, SIX_ORDERS, message, settings_of};
use crp_order::{BayProblem, Mode, Sequence};
use crp_plan::{Failure, Nowhere, Sink};
use crp_report::{Devices, RunSettings, Status, Watch, show};
use crp_solve::{NoGate, Solved};
use crp_yard::Yard;
use edi_text::Segments;
use std::alloc::Global;
use std::cell::RefCell;
use std::test::Fail;

// What was written and what was told, in the order in which it was.
const TWO_BAYS: &[u8] = b"orders 7 open 0 absent 0\n\
    begun\n\
    bay A 1: optimal 3\n\
    shift 1.3 2.2 C4\n\
    shift 1.2 2.3 C5\n\
    take 1.1 C1\n\
    take 3.2 C2\n\
    take 3.1 C3\n\
    shift 2.3 1.1 C5\n\
    take 2.2 C4\n\
    take 1.1 C5\n\
    take 2.1 C6\n\
    answered\n\
    begun\n\
    bay A 2: optimal 0\n\
    take 1.1 W1\n\
    answered\n\
    bays 2 decided 2\n\
    ended\n";

// A sink that writes into a list which others write too.
#[derive(Drop)]
struct Shared<'a> {
    list: &'a RefCell<Vec<u8>>,
    failed: u64,
}

impl Shared<'_> {
    // Whether the piece found room.
    fn push(&self, piece: &[u8]) -> bool {
        match self.list.try_borrow_mut() {
            Ok(mut list) => list.extend_from_slice(piece).is_ok(),
            Err(_) => false,
        }
    }
}

impl Sink for Shared<'_> {
    ghost failures = { λ s. s.failed };

    fn write(&mut self, piece: &[u8]) -> Result<usize, Failure> {
        if self.push(piece) {
            return Ok(piece.len());
        }
        self.failed = self.failed.saturating_add(1);
        Err(Failure::Failed)
    }
}

// Shows what it is told of the bays.
#[derive(Drop)]
struct Marks {
    gate: NoGate,
}

impl Watch for Marks {
    type Gate = NoGate;

    fn gate(&self) -> &NoGate {
        &self.gate
    }

    fn accepts<E: Sink>(
        &mut self,
        _alloc: Global,
        _yard: &Yard,
        _segments: &Segments,
        _sequence: &Sequence,
        _settings: &RunSettings,
        errors: &mut E,
    ) {
        show(errors, b"");
    }

    fn begins<E: Sink>(
        &mut self,
        _alloc: Global,
        _bay: &BayProblem,
        _behind: usize,
        _bays: usize,
        errors: &mut E,
    ) {
        show(errors, b"begun\n");
    }

    fn answers<E: Sink>(
        &mut self,
        _alloc: Global,
        _bay: &BayProblem,
        _solved: &Solved,
        _bytes: usize,
        errors: &mut E,
    ) {
        show(errors, b"answered\n");
    }

    fn ends<E: Sink>(&mut self, _alloc: Global, errors: &mut E) {
        show(errors, b"ended\n");
    }
}

#[test]
fn the_first_bay_is_written_before_the_second_begins(rt: HostRuntime) -> Result<(), Fail> {
    let alloc = rt.alloc();
    let mut yard = SIX_CONTAINERS.to_vec(alloc)?;
    yard.extend_from_slice(b"A,2,1,1,W1\n")?;
    let one_more: &[u8] = b"LOC+147+0020182'\nEQD+CN+W1'\n";
    let movins = message(alloc, &[SIX_ORDERS, one_more], b"18")?;
    let settings = settings_of(
        alloc,
        &Choice {
            budget: 1000,
            rows: 3,
            tiers: 3,
            mode: Mode::Listed,
        },
    )?;
    let list = RefCell::new(Vec::new(alloc));
    let mut out = Shared {
        list: &list,
        failed: 0,
    };
    let mut errors = Shared {
        list: &list,
        failed: 0,
    };
    let mut devices = Devices {
        yard: yard.as_slice(),
        movins: movins.as_slice(),
        certificates: Nowhere,
        yard_after: Nowhere,
        separator: b',',
    };
    let answer = run_watched(
        &rt,
        alloc,
        &mut devices,
        &settings,
        &mut out,
        &mut Marks { gate: NoGate },
        &mut errors,
    );
    assert!(rt; matches!(answer, Ok(Status::Decided)));
    let written = list.into_inner();
    assert_same(&rt, &written.as_slice(), &TWO_BAYS);
    Ok(())
}
