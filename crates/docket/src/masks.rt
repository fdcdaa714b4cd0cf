ghost use Rattle.std.specs.Prelude.{◌≡◌, ℕ, ◌+◌, ◌*◌, ◌^◌, ◌<◌, ◌≤◌, ◌&&◌, Bool, length, nat_lt};
ghost use Rattle.truth.specs.Bit.{bit};
ghost use Rattle.docket.specs.Plays.{flag, byte_is};

use play::plays::Plays;

// A mask whose bits are one higher, with a new bit 0.
fn with_bit(mask: u64, low: bool) -> u64
    requires { mask < 2 ^ 63 }
    ensures { result ≡ 2 * mask + flag low }
{
    if low { 2 * mask + 1 } else { 2 * mask }
}

// Bit k for each of the first so many k that pass a test.
fn mask_of<F: Fn(usize) -> bool>(count: usize, test: F) -> u64
    requires few { count ≤ 64 }
    requires callable { (k : ℕ) → k < count → F.pre test k }
    ensures { (p : ℕ → Bool) → ((k : ℕ) (r : Bool) → k < count → F.post test k r → r ≡ p k) → (k : ℕ) → bit result k ≡ nat_lt k count && p k }
{
    let mut mask = 0;
    for k in (0..count).rev() {
        mask = with_bit(mask, test(k));
    }
    mask
}

// The plays whose byte `at` is this one: bit k for play k.
pub fn plays_with(plays: Plays<'_>, at: usize, byte: u16) -> u64
    requires { at < 96 }
    ensures { (k : ℕ) → bit result k ≡ nat_lt k plays.entry.count && byte_is plays.entry.bytes.now at byte k }
{
    mask_of(plays.count, |k| u16::from(plays.byte(k, at)) == byte)
}

// All plays.
pub fn all_plays(plays: Plays<'_>) -> u64
    ensures { (k : ℕ) → bit result k ≡ nat_lt k plays.entry.count }
{
    mask_of(plays.count, |_| true)
}
