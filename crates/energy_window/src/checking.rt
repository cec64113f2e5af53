ghost use Rattle.std.specs.Prelude.{◌≡◌, OnOk, IfOk, IfErr};
ghost use Rattle.window_model.specs.Windows.{IsWindow, IsMarkedWindowList};
ghost use Rattle.certificate_model.specs.Certificates.{FitsProblem, IsSound};
ghost use Rattle.certificate_check.specs.Checking.{IsNoCertificate};

use certificate_check::check_within;
use certificate_model::CertRefusal;
use ground_entries::GroundList;
use potential_problem::Problem;
use std::alloc::Global;
use token_sinks::Tokens;
use window_model::window_of;

/// A problem, a window in 10^-12 V, the window list with its marks, and the tokens that close every
/// other charge list. The tokens describe a tree in preorder, from the empty prefix on.
#[derive(Drop)]
pub struct WindowCertificate {
    pub problem: Problem,
    pub window: i64,
    pub list: GroundList,
    pub tokens: Tokens,
}

/// The list of a certificate, where it is sound, so that it is the problem's window list with its
/// marks; or the first test that it fails.
pub fn check_window(
    alloc: Global,
    certificate: &WindowCertificate,
) -> Result<GroundList, CertRefusal>
    requires window { IsWindow certificate.now.window }
    requires fits { FitsProblem certificate.now.problem certificate.now.list }
    ensures list { IfOk result (λ same. same ≡ certificate.now.list) }
    ensures sound { OnOk result (IsSound certificate.now.problem certificate.now.window
        certificate.now.list certificate.now.tokens) }
    ensures within { OnOk result (IsMarkedWindowList certificate.now.problem
        certificate.now.window certificate.now.list) }
    ensures refused { IfErr result (IsNoCertificate certificate.now.problem
        certificate.now.window certificate.now.list certificate.now.tokens) }
{
    check_within(
        alloc,
        &certificate.problem,
        window_of(certificate.window),
        &certificate.list,
        &certificate.tokens,
    )
}
