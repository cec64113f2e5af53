// Reads what the task of the settings reads.
ghost use Rattle.std.specs.Prelude.{◌≡◌, ◌≤◌, length};
ghost use Rattle.std.specs.Io.KnownBytes.{IsAtEnd};
ghost use Rattle.sidb_io.specs.Outside.{HasFault};
ghost use Rattle.sim_cli.specs.Answer.{input_limit};
ghost use Rattle.sim_cli.specs.Kind.{kind_of, ReadsInput};
ghost use Rattle.sim_cli.specs.Reading.{IsAnswerable, IsReadFor, IsReadingOf, IsToTheEnd};
ghost use Rattle.sim_cli.specs.Run.{ForBytesLeft, IsUnread, TellsFaults};

use crate::kind::{InputKind, kind_of};
use command_words::{Settings, Task};
use run_answer::InputFault;
use sidb_io::{ReadAllFault, Source, read_all};
use sidb_units::{MAX_CERTIFICATE_BYTES, MAX_INPUT_BYTES};
use std::alloc::Global;
use task_input::laws::inputs_have_layouts;
use task_input::{Input, read_input};

/// What was read for a task: what its input means, or why there is none.
#[derive(Drop)]
pub enum Reading {
    /// A problem, and what is told of it.
    Problem(Input),
    /// The text of a certificate.
    Certificate(Vec<u8>),
    /// Nothing, since the task reads nothing.
    Nothing,
    /// The input is refused.
    Refused(InputFault),
    /// A read failed.
    ReadFault,
    /// Memory did not suffice.
    Memory,
}

/// Reads what the task reads, and what it means.
pub fn read_for<S: Source>(alloc: Global, settings: &Settings, source: &mut S) -> Reading
    ensures means { ForBytesLeft (S.left source.old) (IsReadingOf settings.now result) }
    ensures task { IsReadFor settings.now result }
    ensures end { IsToTheEnd result → IsAtEnd (S.left source.new) }
    ensures short { ReadsInput settings.now.task → ForBytesLeft (S.left source.old)
        (λ bytes. length bytes ≤ input_limit settings.now.task)
        → IsAnswerable result → IsAtEnd (S.left source.new) }
    ensures fault { TellsFaults Reading.ReadFault result
        (HasFault (S.faults source.old) (S.faults source.new))
        (S.faults source.old) (S.faults source.new) }
    ensures unread { kind_of settings.now.task ≡ InputKind.NoText → IsUnread
        (S.left source.old) (S.left source.new) (S.faults source.old) (S.faults source.new) }
{
    if kind_of(settings.task) == InputKind::NoText {
        return Reading::Nothing;
    }
    read_whole(alloc, settings, source)
}

/// Reads the input whole, and what it means.
fn read_whole<S: Source>(alloc: Global, settings: &Settings, source: &mut S) -> Reading
    requires { ReadsInput settings.now.task }
    ensures means { ForBytesLeft (S.left source.old) (IsReadingOf settings.now result) }
    ensures task { IsReadFor settings.now result }
    ensures end { IsToTheEnd result → IsAtEnd (S.left source.new) }
    ensures short { ForBytesLeft (S.left source.old)
        (λ bytes. length bytes ≤ input_limit settings.now.task)
        → IsAnswerable result → IsAtEnd (S.left source.new) }
    ensures fault { TellsFaults Reading.ReadFault result
        (HasFault (S.faults source.old) (S.faults source.new))
        (S.faults source.old) (S.faults source.new) }
{
    match read_all(alloc, source, input_limit(settings.task)) {
        Ok(bytes) => reading_of(alloc, settings, bytes),
        Err(ReadAllFault::ReadFault) => Reading::ReadFault,
        Err(ReadAllFault::TooLong) => Reading::Refused(InputFault::TooLong),
        Err(ReadAllFault::Memory) => Reading::Memory,
    }
}

/// The most bytes of a task's input.
fn input_limit(task: Task) -> usize
    ensures value { result ≡ input_limit task }
    ensures within { result ≤ MAX_CERTIFICATE_BYTES }
{
    match kind_of(task) {
        InputKind::ProblemText => MAX_INPUT_BYTES,
        InputKind::CertificateText => MAX_CERTIFICATE_BYTES,
        InputKind::NoText => 0,
    }
}

/// What the bytes of the input mean.
fn reading_of(alloc: Global, settings: &Settings, bytes: Vec<u8>) -> Reading
    requires { ReadsInput settings.now.task }
    ensures means { IsReadingOf settings.now result bytes.items }
    ensures task { IsReadFor settings.now result }
    ensures answerable { IsAnswerable result }
{
    inputs_have_layouts();
    if kind_of(settings.task) == InputKind::CertificateText {
        return Reading::Certificate(bytes);
    }
    match read_input(alloc, settings, &bytes) {
        Ok(input) => Reading::Problem(input),
        Err(fault) => Reading::Refused(fault),
    }
}
