// A certificate text, kept whole.
ghost use Rattle.std.specs.Prelude.{◌≡◌, ◌⊎◌, IfOk, IfErr};
ghost use Rattle.certificate_reading.specs.declared.fault.CertText.TheVariants.{Memory as OutOfMemory};
ghost use Rattle.certificate_reading.specs.Texts.{IsCertText, IsCertFault};

use crate::CertText;
use crate::feeding::feed;
use crate::scan::scan_certificate;
use std::alloc::Global;
use token_sinks::{Certificate, Tokens};

/// The certificate, exactly where the text is a certificate text, else its first fault.
pub fn read_certificate(alloc: Global, text: &[u8]) -> Result<Certificate, CertText>
    ensures found { IfOk result (λ c. IsCertText c.problem c.list c.tokens text.now) }
    ensures fault { IfErr result
        (λ fault. (fault ≡ OutOfMemory) ⊎ IsCertFault text.now fault) }
{
    let front = scan_certificate(alloc, text)?;
    let mut tokens = Tokens::new(alloc)?;
    match feed(text, &front, &mut tokens) {
        Ok(()) => Ok(Certificate {
            problem: front.problem,
            list: front.list,
            tokens,
        }),
        Err(_) => Err(CertText::Memory),
    }
}
