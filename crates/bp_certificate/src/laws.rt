// Laws of the text of certificates.
ghost use Rattle.std.specs.Prelude.{ℕ, List};
ghost use Rattle.bp_certificate.specs.Faults.{HasOneAnswer};
ghost use Rattle.bp_certificate.specs.Scanning.{HasSameFault, IsTooLongForAll};

/// A line of more than 1,000,000 bytes is of no form at any place, so all such lines have the same fault there.
pub fn law_of_long_certificate_lines()
    ensures form { (line : List ℕ) → IsTooLongForAll line }
    ensures fault { (line : List ℕ) (other : List ℕ) → HasSameFault line other }
{}

/// Bytes are the text of at most one certificate, or have at most one first fault, and not both.
pub fn law_of_one_certificate()
    ensures { (bytes : List ℕ) → HasOneAnswer bytes }
{}
