//! Results that are written through the pointers of a caller.
ghost use Rattle.std.specs.Prelude.{◌≡◌, ◌++◌, drop, length, take};
ghost use Rattle.ctf_c.specs.service.Given.{fit_text};

/// Writes the front of `from` over the front of `to`, as much as fits.
fn write_front(from: &[u8], to: &mut [u8])
    ensures { to.new ≡ take (length to.old) from.now ++ drop (length from.now) to.old }
{
    if from.len() < to.len() {
        to[..from.len()].copy_from_slice(from);
    } else {
        to.copy_from_slice(&from[..to.len()]);
    }
}

/// Writes as much of a text as fits, and its whole length.
pub fn tell(said: &[u8], text: &mut [u8], len: &mut u64)
    ensures { record { text = text.new; len = len.new }
        ≡ fit_text said.now (record { text = text.old; len = len.old }) }
{
    write_front(said, text);
    *len = said.len() as u64;
}
