// Words of names: the length and a fingerprint in one number (specs/Fingerprints.antt).
ghost use Rattle.std.specs.Prelude.{◌≡◌, ◌-◌, ◌%◌, ◌<◌};
ghost use Rattle.node_table.specs.Fingerprints.{with_byte, fingerprint_from, word_at};

use super::layout;
use memory::byte;

// Fingerprints have 27 bits.
const FINGERPRINT_LIMIT: u32 = 134217728;

// The fingerprint h with one byte more. A capital and its small letter are 32 apart.
#[tactic(auto, unfolding(crate::specs::Fingerprints::with_byte))]
fn with_byte(h: u32, b: u8) -> u32
    requires { h < 134217728 }
    ensures { (result ≡ with_byte h b) × (result < 134217728) }
{
    (31 * h + u32::from(b % 32)) % FINGERPRINT_LIMIT
}

// The fingerprint of the bytes from `start` up to `end`.
#[tactic(auto, using(crate::proofs::Words::fingerprint_on, crate::proofs::Words::fingerprint_end))]
fn fingerprint(s: &[u8], start: usize, end: usize) -> u32
    ensures { (result ≡ fingerprint_from (end - start) s.now start 0) × (result < 134217728) }
{
    let mut h: u32 = 0;
    for i in start..end {
        h = with_byte(h, byte(s, i));
    }
    h
}

// The length of a name, as far as its word has it.
fn length_part(start: usize, end: usize) -> u32
    ensures { (result ≡ (end - start) % 32) × (result < 32) }
{
    (end.saturating_sub(start) % 32) as u32
}

// The word of the name that stands in s from `start` up to `end`.
#[tactic(auto, unfolding(crate::specs::Fingerprints::word_at))]
pub fn word_at(s: &[u8], start: usize, end: usize) -> u32
    ensures { result ≡ word_at s.now start (end - start) }
{
    length_part(start, end) + layout::FINGERPRINT_UNIT * fingerprint(s, start, end)
}
