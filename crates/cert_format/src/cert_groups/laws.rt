//! The laws of the grammar of versions 1 and 2.

ghost use Rattle.std.specs.Prelude.{◌≡◌, ℕ, List};
ghost use Rattle.cert_format.specs.declared.cert.Sizes.{Sizes};
ghost use Rattle.cert_format.specs.declared.cert_groups.cert.AnyCert.{AnyCert};
ghost use Rattle.cert_format.specs.CertGroups.Grammar.{SpellsAny};

/// No bytes spell two certificates, of whatever versions, and no certificate has two spellings.
pub fn one_spelling()
    ensures certificate { (sizes : Sizes) (bytes : List ℕ) (c d : AnyCert) → SpellsAny sizes bytes c → SpellsAny sizes bytes d → c ≡ d }
    ensures bytes { (sizes other : Sizes) (bytes more : List ℕ) (c : AnyCert) → SpellsAny sizes bytes c → SpellsAny other more c → bytes ≡ more }
{}
