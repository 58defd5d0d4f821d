//! A certificate is checked.
ghost use Rattle.std.specs.Prelude.{◌≡◌, ◌≤◌, List, None};
ghost use Rattle.crp_plan.specs.declared.moves.Move.{Move};
ghost use Rattle.crp_plan.specs.Bay.{cap, IsPlan, relocations};
ghost use Rattle.crp_cert.specs.declared.head.Head.{Head};
ghost use Rattle.crp_cert.specs.Text.{bound, IsHeadOf};
ghost use Rattle.crp_checker.specs.AcceptedTexts.{IsNotAccepted};
ghost use Rattle.crp_c.specs.Checks.{IsShown, IsRefusedFor, IsTrueOf};

use crate::fault::{Fault, at, fault_of};
use crate::known::{Known, known_by, nothing};
use crate::status::{DONE, MEMORY, REFUSED};
use crp_checker::check;
use std::alloc::Global;

/// What the check of a certificate says.
#[repr(C)]
#[derive(Clone, Copy)]
pub struct Checked {
    /// What it shows, if it is accepted.
    pub known: Known,
    /// Why it is refused, if it is.
    pub fault: Fault,
}

/// Checks the bytes of one certificate, with nothing before and nothing behind: `DONE` where it is accepted, with what it shows;
/// `REFUSED` where it is not, with the first fault; `MEMORY` where no memory is left.
#[unsafe(no_mangle)]
pub extern "C" fn crp_check(alloc: Global, certificate: &[u8], checked: &mut Checked) -> u32
    ensures one_of { result ≤ REFUSED }
    ensures accepted { result ≡ DONE → IsShown certificate.now checked.new.known }
    ensures refused { result ≡ REFUSED → IsRefusedFor certificate.now checked.new.fault }
    ensures rejected { result ≡ REFUSED → IsNotAccepted None certificate.now }

    // What this means for the problem that the bytes state.
    ensures bound { result ≡ DONE → (head : Head) (moves : List Move) → IsHeadOf certificate.now head
        → IsPlan head.problem moves → bound head.claim ≤ relocations moves }
    ensures none { result ≡ DONE → (head : Head) (moves : List Move) → IsHeadOf certificate.now head
        → bound head.claim ≡ cap head.problem → IsPlan head.problem moves → ⊥ }
    ensures says { result ≡ DONE → (head : Head) → IsHeadOf certificate.now head → IsTrueOf head.problem checked.new.known }
{
    match check(alloc, certificate) {
        Ok(verdict) => {
            *checked = Checked {
                known: known_by(verdict),
                fault: at(0, 0),
            };
            DONE
        }
        Err(refused) => {
            let fault = fault_of(&refused);
            *checked = Checked {
                known: nothing(),
                fault,
            };
            if fault.number == 0 { MEMORY } else { REFUSED }
        }
    }
}
