// A test of each byte of a text.
ghost use Rattle.std.specs.Prelude.{◌≡◌, ℕ, ◌<◌, Bool};
ghost use Rattle.text.specs.Bytes.{every};

// Whether the test holds of each byte. No early way out, so that many bytes are tested at once.
pub fn every<F: Fn(u8) -> bool>(t: &[u8], test: F) -> bool
    requires { F.IsAlwaysCallable test }
    ensures { (p : ℕ → Bool) → ((b : ℕ) (r : Bool) → b < 256 → F.post test b r → r ≡ p b) → result ≡ every p t.now }
{
    let mut ok = true;
    for b in t {
        ok = ok & test(*b);
    }
    ok
}
