//! Different values have different texts. Each function here is a law: it does nothing, and its contract is the law.
ghost use Rattle.std.specs.Prelude.{◌≡◌, ℕ, ℤ, decimal};
ghost use Rattle.std.specs.Fmt.{signed_decimal};
ghost use Rattle.dubp_atoms.specs.Spelling.{IsNumber, IsSigned, IsDec, dec_text, IsStamp, stamp_text};
ghost use Rattle.dubp_atoms.specs.declared.dec.Dec.{Dec as DecValue};
ghost use Rattle.dubp_atoms.specs.declared.stamp.Stamp.{Stamp as StampValue};

/// Two numbers of one text are one.
pub fn numbers_have_one_text()
    ensures { (m n : ℕ) → IsNumber m → IsNumber n → decimal m ≡ decimal n → m ≡ n }
{}

/// Two signed numbers of one text are one.
pub fn signed_numbers_have_one_text()
    ensures { (m n : ℤ) → IsSigned m → IsSigned n → signed_decimal m ≡ signed_decimal n → m ≡ n }
{}

/// Two decimal numbers of one text are one.
pub fn decimals_have_one_text()
    ensures { (c d : DecValue) → IsDec c → IsDec d → dec_text c ≡ dec_text d → c ≡ d }
{}

/// Two stamps of one text are one.
pub fn stamps_have_one_text()
    ensures { (s t : StampValue) → IsStamp s → IsStamp t → stamp_text s ≡ stamp_text t → s ≡ t }
{}
