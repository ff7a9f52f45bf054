// Certificates that are short enough to be read.
ghost use Rattle.std.specs.Prelude.{◌≡◌, IfOk, MatchOption, None};
ghost use Rattle.bp_certificate.specs.Ranges.{IsCertificate};
ghost use Rattle.bp_certificate.specs.Text.{certificate_text};
ghost use Rattle.bp_solve.specs.Solved.{IsReadable};
ghost use Rattle.bp_solve.specs.Steps.{with_bound};

use crate::ranges::can_tell;
use crate::text::text_of;
use bp_base::{NoMemory, Sequence};
use bp_certificate::Certificate;
use bp_document::law_of_sizes;
use std::alloc::Global;

// The text of a certificate, where it can be read. Without its lemmas it is within its ranges.
pub fn readable_text(
    alloc: Global,
    certificate: &Certificate,
) -> Result<Option<Sequence<u8>>, NoMemory>
    requires { IsCertificate (with_bound certificate.now certificate.now.bound None) }
    ensures { IfOk result (λ text. MatchOption text (IsReadable certificate.now → ⊥) (λ bytes. (bytes ≡ certificate_text certificate.now) × IsReadable certificate.now)) }
{
    let fits = can_tell(alloc, &certificate.lemmas)?;
    if !fits {
        return Ok(None);
    }
    text_of(alloc, certificate)
}

// The text of a certificate without lemmas.
pub fn plain_text(alloc: Global, certificate: &Certificate) -> Result<Sequence<u8>, NoMemory>
    requires ranges { IsCertificate certificate.now }
    requires lemmas { certificate.now.lemmas ≡ None }
    ensures { IfOk result (λ bytes. (bytes ≡ certificate_text certificate.now) × IsReadable certificate.now) }
{
    law_of_sizes();
    let written = text_of(alloc, certificate)?;
    match written {
        Some(text) => Ok(text),
        None => unreachable!(),
    }
}
