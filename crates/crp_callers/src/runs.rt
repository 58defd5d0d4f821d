//! Runs over a yard list and a message: which bytes the sinks get, and what is said of two of them.
ghost use Rattle.std.specs.Prelude.{◌≡◌, ◌<◌, ◌⊎◌, ℕ, ◌++◌, List, length, map, take, OnOk, IfErr, IsErrOf};
ghost use Rattle.crp_plan.specs.Rows.{total};
ghost use Rattle.crp_plan.specs.Devices.{CountsOne};
ghost use Rattle.crp_report.specs.Report.{ArePlanLines, certificates_text};
ghost use Rattle.crp_report.specs.Runs.{Made};
ghost use Rattle.crp_callers.specs.InStep.{IsMadeOf, EndsFor};

use crp_plan::{Nowhere, Plan, Received};
use crp_report::{Devices, Fault, Output, RunSettings, Status, print_moves, run};
use std::alloc::Global;
use std::sync::Wait;
use std::thread::Threads;

/// A run over two texts into two sinks. Where it succeeds, one gets the report and the other the certificates of its bays, in their order. Where it
/// does not, the certificates keep step with the lines of the bays: each stands there as soon as the lines of its bay do.
pub fn run_in_memory<T: Threads + Wait + Sync>(
    rt: &T,
    alloc: Global,
    devices: &mut Devices<&[u8], &[u8], Received, Nowhere>,
    settings: &RunSettings,
    report: &mut Received,
) -> Result<Status, Fault>
    ensures written { OnOk result ((m : Made) × IsMadeOf settings.now devices.old.yard.now devices.old.movins.now m
        × (report.new.bytes.items ≡ report.old.bytes.items ++ m.report)
        × (devices.new.certificates.bytes.items ≡ devices.old.certificates.bytes.items ++ certificates_text m.answered)) }
    ensures ended { IfErr result (λ fault. (lines : List ℕ) × (parts : List ℕ)
        × (report.new.bytes.items ≡ report.old.bytes.items ++ lines)
        × (devices.new.certificates.bytes.items ≡ devices.old.certificates.bytes.items ++ parts)
        × EndsFor settings.now devices.old.yard.now devices.old.movins.now fault lines parts) }
{
    run(rt, alloc, devices, settings, report)
}

/// Writes the moves of a plan behind what the sink has. It gets their lines; or, where the sink finds no memory, a front that is not all of them, and one
/// failure more; or nothing, where there is no memory for the lines.
pub fn receive_moves(
    alloc: Global,
    sink: &mut Received,
    plan: &Plan,
    names: &[Vec<u8>],
) -> Result<(), Fault>
    requires { length names.now ≡ total plan.now.problem.stacks }
    ensures all { OnOk result ((lines : List ℕ) × ArePlanLines (map (λ name. name.items) names.now) plan.now lines
        × (sink.new.bytes.items ≡ sink.old.bytes.items ++ lines)) }
    ensures part { IsErrOf result (Fault.Write Output.Report) → (lines : List ℕ) × ArePlanLines (map (λ name. name.items) names.now) plan.now lines
        × ((n : ℕ) × (n < length lines) × (sink.new.bytes.items ≡ sink.old.bytes.items ++ take n lines)) }
    ensures memory { IsErrOf result Fault.Memory → sink.new.bytes.items ≡ sink.old.bytes.items }
    ensures no_other { IfErr result (λ fault. (fault ≡ Fault.Write Output.Report) ⊎ (fault ≡ Fault.Memory)) }
    ensures no_failure { OnOk result (sink.new.failed ≡ sink.old.failed) }
    ensures one_failure { IsErrOf result (Fault.Write Output.Report) → CountsOne sink.old.failed sink.new.failed }
{
    print_moves(alloc, sink, plan, names)
}
