//! The laws of the grammar.

ghost use Rattle.std.specs.Prelude.{◌≡◌, ℕ, List};
ghost use Rattle.cert_format.specs.declared.cert.Sizes.{Sizes};
ghost use Rattle.cert_format.specs.Parts.{CertParts};
ghost use Rattle.cert_format.specs.Grammar.{SpellsOne};

/// No bytes spell two certificates, and no certificate has two spellings.
pub fn one_spelling()
    ensures certificate { (sizes : Sizes) (bytes : List ℕ) (c d : CertParts) → SpellsOne sizes bytes c → SpellsOne sizes bytes d → c ≡ d }
    ensures bytes { (sizes other : Sizes) (bytes more : List ℕ) (c : CertParts) → SpellsOne sizes bytes c → SpellsOne other more c → bytes ≡ more }
{}
