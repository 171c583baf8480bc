// Letters of names, request W-201: which bytes count as the same letter (specs/Bytes.antt).
ghost use Rattle.std.specs.Prelude.{◌≡◌, eqb};
ghost use Rattle.sheet_format.specs.Bytes.{folded};

// Whether two bytes are equal but for the case of letters.
#[tactic(auto, using(crate::proofs::letters::Laws::folded_lowercase))]
pub fn same_letter(a: u8, b: u8) -> bool
    ensures { result ≡ eqb (folded a) (folded b) }
{
    a.eq_ignore_ascii_case(&b)
}
