// The front of a certificate text, with its whole text tested.
ghost use Rattle.std.specs.Prelude.{◌≡◌, ◌⊎◌, ◌+◌, ◌≤◌, ◌++◌, ◌∷◌, [], ℕ, List, Bool, length, take, IfSome, IfNone, IfOk, IfErr, MatchOption};
ghost use Rattle.text_rows.specs.Rows.{rows, text_of};
ghost use Rattle.table_lines.specs.declared.fault.TableFault.{TableFault as TableWrong};
ghost use Rattle.table_lines.specs.Lines.{table_line_words as table_words};
ghost use Rattle.table_reading.specs.Reading.{IsTableText, IsFrontFault};
ghost use Rattle.certificate_reading.specs.declared.fault.CertText.TheVariants.{Memory as OutOfMemory};
ghost use Rattle.certificate_reading.specs.Texts.{BeginsWithLine, IsHeaded, IsCertificateFront, IsCertFault, head_words, table_head};

use crate::scanned::scan_lines;
use crate::{CertFront, CertText};
use ground_entries::list_of;
use std::alloc::Global;
use table_reading::{LineWhy, TableFault, TableFront, read_table_front};

// How many bytes there are.
fn size_of(text: &[u8]) -> usize
    ensures { result ≡ length text.now }
{
    text.len()
}

// What stands behind these bytes at the front of the text.
fn behind<'a>(text: &'a [u8], front: &[u8]) -> Option<&'a [u8]>
    ensures { MatchOption result (((rest : List ℕ) × (text.now ≡ front.now ++ rest)) → ⊥)
        (λ rest. text.now ≡ front.now ++ rest.now) }
{
    text.strip_prefix(front)
}

// Whether the first line names version 2, and what stands behind that line.
fn behind_head(text: &[u8]) -> Option<(bool, &[u8])>
    ensures found { IfSome result (λ head. IsHeaded head.0 text.now head.1.now) }
    ensures none { IfNone result
        ((second : Bool) → BeginsWithLine (head_words second) text.now → ⊥) }
{
    if let Some(rest) = behind(text, b"sidb-certificate 1\n") {
        return Some((false, rest));
    }
    if let Some(rest) = behind(text, b"sidb-certificate 2\n") {
        return Some((true, rest));
    }
    None
}

// What stands behind the first line of a table text of this version.
fn behind_version(second: bool, text: &[u8]) -> Option<&[u8]>
    ensures { MatchOption result (BeginsWithLine (table_words (table_head second)) text.now → ⊥)
        (λ rest. text.now ≡ text_of (table_words (table_head second) ∷ []) ++ rest.now) }
{
    if second {
        behind(text, b"sidb-table 2\n")
    } else {
        behind(text, b"sidb-table 1\n")
    }
}

// The table text at the front of the text behind the first line.
fn table_front(alloc: Global, text: &[u8]) -> Result<TableFront, CertText>
    ensures found { IfOk result (λ front. IsTableText (take front.bytes text.now) front.problem) }
    ensures within { IfOk result (λ front. front.bytes ≤ length text.now) }
    ensures lines { IfOk result
        (λ front. length (rows (take front.bytes text.now)) ≡ front.lines + 1) }
    ensures fault { IfErr result (λ fault. (fault ≡ OutOfMemory)
        ⊎ ((wrong : TableWrong) × (fault ≡ CertText.Table wrong) × IsFrontFault 2 text.now wrong)) }
{
    match read_table_front(alloc, text, 2) {
        Ok(front) => Ok(front),
        Err(TableFault::Memory) => Err(CertText::Memory),
        Err(fault) => Err(CertText::Table(fault)),
    }
}

/// The front of a certificate text, where the text is one to its end, else its first fault. Tokens
/// are tested and not kept.
pub fn scan_certificate(alloc: Global, text: &[u8]) -> Result<CertFront, CertText>
    ensures found { IfOk result (λ front. IsCertificateFront text.now front) }
    ensures fault { IfErr result
        (λ fault. (fault ≡ OutOfMemory) ⊎ IsCertFault text.now fault) }
{
    let size = size_of(text);
    let Some((second, rest)) = behind_head(text) else {
        return Err(CertText::Line(1, LineWhy::Form));
    };
    let Some(_) = behind_version(second, rest) else {
        return Err(CertText::Table(TableFault::Line(2, LineWhy::Form)));
    };
    let table = table_front(alloc, rest)?;
    let body = &rest[table.bytes..];
    let scanned = match scan_lines(alloc, &table.problem, body, table.lines + 2) {
        Ok(scanned) => scanned,
        Err(fault) => return Err(fault),
    };
    Ok(CertFront {
        problem: table.problem,
        list: list_of(scanned.entries),
        bytes: size - body.len() + scanned.start,
        tokens: scanned.counts.tokens,
    })
}
