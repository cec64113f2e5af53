// The task that checks a certificate.
ghost use Rattle.std.specs.Prelude.{◌≡◌, ◌⊎◌, ℕ, pos, List, IfOk, OnOk, IfErr};
ghost use Rattle.certificate_model.specs.declared.token.Token.{Token as TokenData};
ghost use Rattle.certificate_model.specs.Certificates.{IsSound};
ghost use Rattle.certificate_check.specs.Checking.{IsNoCertificate};
ghost use Rattle.certificate_reading.specs.Texts.{IsCertificateFront, IsFrontOf};
ghost use Rattle.run_answer.specs.Due.{DueIs};
ghost use Rattle.ground_report.specs.Subject.{AreListsOfProblem};
ghost use Rattle.task_certificate.specs.CheckAnswer.{IsCheckAnswer, IsReportAnswer, IsCheckVerdict};

use certificate_check::laws::fed_checkers_tell;
use certificate_check::{CertRefusal, Checker};
use certificate_reading::laws::read_texts_fit;
use certificate_reading::{CertFront, feed, scan_certificate};
use command_words::Settings;
use ground_report::About;
use run_answer::{Due, DueText, InputFault, Status, fault_due, refusal_due};
use sidb_units::{MAX_CERTIFICATE_BYTES, Memory};
use std::alloc::Global;
use task_ground::report_of;
use token_sinks::Stop;

/// The report of the list of the certificate whose text this is, or why it is refused: by the first
/// fault of the text, or by the first test that the certificate fails.
pub fn check_answer(alloc: Global, settings: &Settings, text: &[u8]) -> Result<Due, Memory>
    ensures { IfOk result (DueIs (IsCheckAnswer settings.now text.now)) }
{
    if text.len() > MAX_CERTIFICATE_BYTES {
        return fault_due(alloc, InputFault::TooLong);
    }
    match scan_certificate(alloc, text) {
        Ok(front) => verdict_due(alloc, settings, text, &front),
        Err(fault) => fault_due(alloc, InputFault::Text(fault)),
    }
}

/// The report of a certificate's list, or the first test that the certificate fails.
fn verdict_due(
    alloc: Global,
    settings: &Settings,
    text: &[u8],
    front: &CertFront,
) -> Result<Due, Memory>
    requires { IsCertificateFront text.now front.now }
    ensures { IfOk result (λ due. (tokens : List TokenData) → IsFrontOf tokens text.now front.now
        → DueIs (IsCheckVerdict settings.now front.now.problem front.now.list tokens) due) }
{
    read_texts_fit();
    match checked(alloc, text, front) {
        Ok(()) => report_due(alloc, settings, front),
        Err(refusal) => refusal_due(alloc, refusal),
    }
}

/// The report of the list of a sound certificate.
fn report_due(alloc: Global, settings: &Settings, front: &CertFront) -> Result<Due, Memory>
    requires { AreListsOfProblem front.now.problem front.now.list }
    ensures { IfOk result (DueIs (IsReportAnswer settings.now front.now.problem front.now.list)) }
{
    let about = About {
        layout: None,
        skipped: 0,
    };
    let text = report_of(alloc, settings, &about, &front.problem, &front.list)?;
    Ok(Due {
        status: Status::Answered,
        text: DueText::Whole(text.into_bytes()),
    })
}

/// Whether the certificate is sound, or the first test that it fails.
fn checked(alloc: Global, text: &[u8], front: &CertFront) -> Result<(), CertRefusal>
    requires { IsCertificateFront text.now front.now }
    ensures sound { OnOk result ((tokens : List TokenData) → IsFrontOf tokens text.now front.now
        → IsSound front.now.problem (pos 0) front.now.list tokens) }
    ensures refused { IfErr result (λ r. (tokens : List TokenData)
        → IsFrontOf tokens text.now front.now
        → IsNoCertificate front.now.problem (pos 0) front.now.list tokens r) }
{
    fed_checkers_tell();
    read_texts_fit();
    let mut checker = match Checker::new(alloc, &front.problem, &front.list) {
        Ok(checker) => checker,
        Err(refusal) => return Err(refusal),
    };
    match feed(text, front, &mut checker) {
        Err(Stop::Memory) => Err(CertRefusal::Memory),
        Err(Stop::Fault) => checker.finish(),
        Ok(()) => checker.finish(),
    }
}
