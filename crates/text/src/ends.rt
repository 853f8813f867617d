// Where a run of bytes ends.
ghost use Rattle.std.specs.Prelude.{◌≡◌, ℕ, ◌+◌, ◌≤◌, Bool, length, drop};
ghost use Rattle.std.specs.List.{prefix_len};

// Where the bytes that pass a test end, from a place on. Places are plain numbers, as in a slice; each function says that its own
// lie in the text.
pub(crate) fn end_of<F: Fn(u8) -> bool>(text: &[u8], at: usize, passes: F) -> usize
    requires within { at ≤ length text.now }
    requires callable { F.IsAlwaysCallable passes }
    ensures within { (at ≤ result) × (result ≤ length text.now) }
    ensures passed { (p : ℕ → Bool) → ((b : ℕ) (r : Bool) → F.post passes b r → r ≡ p b) → result ≡ at + prefix_len p (drop at text.now) }
{
    at + text[at..].iter().take_while(|b| passes(**b)).count()
}
