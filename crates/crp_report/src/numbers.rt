//! The three numbers of the first line of a report.
ghost use Rattle.std.specs.Prelude.{◌≡◌};
ghost use Rattle.crp_order.specs.BayProblems.{absent_of};
ghost use Rattle.crp_report.specs.Runs.{numbers_of};

use crp_movins::Orders;
use crp_order::{Sequence, absent};
use crp_said::Numbers;
use crp_yard::Yard;

/// The numbers of so many load orders and so many vacant slots, whose sequence this is.
pub(crate) fn numbers_with(
    yard: &Yard,
    orders: usize,
    vacant: usize,
    sequence: &Sequence,
) -> Numbers
    ensures { result ≡ record { orders = orders; vacant = vacant; absent = absent_of yard.now sequence.now } }
{
    Numbers {
        orders: orders as u64,
        vacant: vacant as u64,
        absent: absent(yard, sequence) as u64,
    }
}

/// The three numbers of the first line of a report: of the load orders, of the vacant slots, and of the ordered containers that are not in the yard.
pub fn numbers_of(yard: &Yard, orders: &Orders, sequence: &Sequence) -> Numbers
    ensures { result ≡ numbers_of yard.now orders.now sequence.now }
{
    numbers_with(yard, orders.list().len(), orders.vacant(), sequence)
}
