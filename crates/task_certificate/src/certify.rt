ghost use Rattle.std.specs.Prelude.{IfOk};
ghost use Rattle.task_certificate.specs.CertifyAnswer.{IsCertifyAnswer};
ghost use Rattle.task_certificate.specs.Delivery.{DeliveryIs};

use crate::certificate::CertificateDue;
use crate::delivery::Delivery;
use command_words::{SearchSettings, Settings};
use ground_state::{SolveAnswer, solve};
use potential_problem::Problem;
use run_answer::{budget_due, long_list_due};
use sidb_io::Gate;
use sidb_units::Memory;
use std::alloc::Global;
use std::thread::Threads;

/// The certificate of the ground list of the problem, or why there is none.
pub fn certify_answer<'a, R: Threads + Sync, G: Gate>(
    rt: &R,
    alloc: Global,
    settings: &Settings,
    problem: &'a Problem,
    gate: &G,
) -> Result<Delivery<'a>, Memory>
    ensures { IfOk result (DeliveryIs (IsCertifyAnswer settings.now problem.now)) }
{
    let SearchSettings { limit, workers, .. } = settings.search;
    match solve(rt, alloc, problem, limit, workers, gate) {
        SolveAnswer::List(solved) => Ok(Delivery::Certificate(CertificateDue::new(
            problem, solved,
        ))),
        SolveAnswer::Budget => Ok(Delivery::Text(budget_due(alloc, limit)?)),
        SolveAnswer::ListTooLong => Ok(Delivery::Text(long_list_due())),
        SolveAnswer::Memory => Err(Memory),
    }
}
