//! Reads segments into load orders, from the first to the last.

ghost use Rattle.std.specs.Prelude.{◌≡◌, ◌⊎◌, Some, None, IfOk, IfErr};
ghost use Rattle.crp_movins.specs.LoadOrders.{load_orders_of};
ghost use Rattle.crp_movins.specs.Faults.{first_fault};
ghost use Rattle.crp_movins.specs.declared.fault.MovinsFault.TheVariants.{Memory};

use crate::collected::Collected;
use crate::fault::MovinsFault;
use crate::headed::Headed;
use crate::kind::kind_at;
use crate::loading::Loading;
use crate::order::Orders;
use crate::standing::{Place, Standing};
use edi_text::Segments;
use std::alloc::Global;

/// More orders are not read.
pub const MAX_ORDERS: usize = 10000;

/// The load orders that are read, by place, and else the first fault (UN/EDIFACT D.95B
/// MOVINS; of the message's segment table TDT, DTM, HAN, LOC and EQD alone are looked at).
pub fn load_orders(
    alloc: Global,
    segments: &Segments,
    loading: &Loading,
) -> Result<Orders, MovinsFault>
    // Orders come exactly where no segment is faulty and there is a UNZ, unless memory runs out.
    ensures accepted { IfOk result (λ orders. first_fault segments.now loading.now ≡ None) }
    ensures orders { IfOk result (λ orders. orders ≡ load_orders_of segments.now loading.now) }
    ensures refused { IfErr result (λ fault. (fault ≡ Memory)
        ⊎ (first_fault segments.now loading.now ≡ Some fault)) }
{
    let mut standing = Standing::start();
    let mut headed = Headed::start();
    let mut orders = Collected::new(alloc);
    let mut number = 1;
    'segments: while number <= segments.count() {
        let at = Place {
            segments,
            loading,
            number,
        };
        let kind = kind_at(segments, number);
        if let Some(fault) = standing.fault(&at, kind, &orders) {
            return Err(fault);
        }
        standing.take_order(alloc, &at, kind, &mut orders)?;
        headed = headed.after(&at, standing.is_read);
        standing = standing.after(&at, kind);
        number += 1;
    }
    if !standing.is_closed {
        return Err(MovinsFault::OutOfPlace { segment: number });
    }
    let heading = headed.read(alloc, segments)?;
    Ok(Orders::new(orders.into_list(), standing.vacant, heading))
}
