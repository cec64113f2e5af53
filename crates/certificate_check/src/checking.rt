ghost use Rattle.std.specs.Prelude.{◌≡◌, OnOk, IfOk, IfErr, pos};
ghost use Rattle.charge_model.specs.GroundList.{IsMarkedGroundList};
ghost use Rattle.window_model.specs.Windows.{IsMarkedWindowList};
ghost use Rattle.certificate_model.specs.Certificates.{FitsProblem, IsSound};
ghost use Rattle.certificate_check.specs.Checking.{IsNoCertificate};

use crate::checker::Checker;
use certificate_laws::laws::{sound_lists_are_ground_lists, sound_lists_are_window_lists};
use certificate_model::CertRefusal;
use ground_entries::GroundList;
use potential_problem::Problem;
use std::alloc::Global;
use token_sinks::{Certificate, Stop, Tokens, feed_tokens};
use window_model::{Window, window_of};

/// Whether a certificate is sound, or the first test that it fails.
fn check_tokens(
    alloc: Global,
    problem: &Problem,
    window: Window,
    list: &GroundList,
    tokens: &Tokens,
) -> Result<(), CertRefusal>
    requires { FitsProblem problem.now list.now }
    ensures sound { OnOk result (IsSound problem.now window.width list.now tokens.now) }
    ensures refused { IfErr result
        (IsNoCertificate problem.now window.width list.now tokens.now) }
{
    let _many = tokens.len();
    match Checker::within(alloc, problem, window, list) {
        Err(refusal) => Err(refusal),
        Ok(mut checker) => match feed_tokens(tokens, &mut checker) {
            Err(Stop::Memory) => Err(CertRefusal::Memory),
            Err(Stop::Fault) => checker.finish(),
            Ok(()) => checker.finish(),
        },
    }
}

/// The list of a certificate, where it is sound, so that it is the problem's window list with its
/// marks; or the first test that it fails.
pub fn check_within(
    alloc: Global,
    problem: &Problem,
    window: Window,
    list: &GroundList,
    tokens: &Tokens,
) -> Result<GroundList, CertRefusal>
    requires { FitsProblem problem.now list.now }
    ensures list { IfOk result (λ same. same ≡ list.now) }
    ensures sound { OnOk result (IsSound problem.now window.width list.now tokens.now) }
    ensures within { OnOk result (IsMarkedWindowList problem.now window.width list.now) }
    ensures refused { IfErr result
        (IsNoCertificate problem.now window.width list.now tokens.now) }
{
    sound_lists_are_window_lists();
    let _known = problem.sites();
    check_tokens(alloc, problem, window, list, tokens)?;
    let same = list.copy(alloc)?;
    Ok(same)
}

/// The list of a certificate, where it is sound, so that it is the problem's ground list with its
/// marks; or the first test that it fails.
pub fn check(alloc: Global, certificate: &Certificate) -> Result<GroundList, CertRefusal>
    requires { FitsProblem certificate.now.problem certificate.now.list }
    ensures list { IfOk result (λ same. same ≡ certificate.now.list) }
    ensures sound { OnOk result (IsSound certificate.now.problem (pos 0) certificate.now.list
        certificate.now.tokens) }
    ensures ground { OnOk result
        (IsMarkedGroundList certificate.now.problem certificate.now.list) }
    ensures refused { IfErr result (IsNoCertificate certificate.now.problem (pos 0)
        certificate.now.list certificate.now.tokens) }
{
    sound_lists_are_ground_lists();
    let _known = certificate.problem.sites();
    check_within(
        alloc,
        &certificate.problem,
        window_of(0),
        &certificate.list,
        &certificate.tokens,
    )
}
