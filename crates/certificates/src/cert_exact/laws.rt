//! The laws of the grammar of version 3.

ghost use Rattle.std.specs.Prelude.{◌≡◌, ◌<◌, ℕ, List, Ok, slice_index};
ghost use Rattle.cert_format.specs.declared.cert.Sizes.{Sizes};
ghost use Rattle.cert_format.specs.Grammar.{AreSmall};
ghost use Rattle.certificates.specs.declared.cert_exact.cert.ExactParts.{ExactParts};
ghost use Rattle.certificates.specs.CertExact.Grammar.{SpellsThree};
ghost use Rattle.certificates.specs.CertExact.Reading.{exact_at};

/// No bytes spell two certificates, and no certificate has two spellings.
pub fn one_spelling()
    ensures certificate { (sizes : Sizes) (bytes : List ℕ) (c d : ExactParts) → SpellsThree sizes bytes c → SpellsThree sizes bytes d → c ≡ d }
    ensures bytes { (sizes other : Sizes) (bytes more : List ℕ) (c : ExactParts) → SpellsThree sizes bytes c → SpellsThree other more c → bytes ≡ more }
{}

/// What is read, as `exact_at` has it, is the certificate that the bytes spell.
pub fn reads_what_is_spelled()
    ensures found { (sizes : Sizes) (bytes : List ℕ) (c : ExactParts) → AreSmall sizes → ((i : ℕ) → slice_index bytes i < 256) → exact_at sizes bytes ≡ Ok c → SpellsThree sizes bytes c }
    ensures only { (sizes : Sizes) (bytes : List ℕ) (c : ExactParts) → SpellsThree sizes bytes c → exact_at sizes bytes ≡ Ok c }
{}
