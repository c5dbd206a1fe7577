//! Where bytes come from.
ghost use Rattle.std.specs.Prelude.{◌≡◌, ◌-◌, ◌^◌, ◌<◌, ◌≤◌, length, IfSome};
ghost use Rattle.ctf_wire.specs.Streams.{Pulled, Pulls};

/// Bytes to be pulled, and whether pulls failed or met the end.
pub trait Source {
    /// What is known of its bytes, how many pulls were made, and whether they succeeded.
    ghost pulled: { Self → Pulled };

    /// Moves some bytes to the front of the buffer, none only at the end, and returns how many.
    fn pull(&mut self, buffer: &mut [u8]) -> Option<usize>
        requires room { 0 < length buffer.old }
        requires count { (pulled self.old).pulls < 2 ^ 64 - 1 }
        ensures within { IfSome result (λ n. n ≤ length buffer.new) }
        ensures pulled { Pulls (pulled self.old) result buffer.new (pulled self.new) };

    /// How many pulls were made.
    fn pulls(&self) -> u64
        ensures { result ≡ (pulled self.now).pulls };

    /// Whether a pull met the end.
    fn ended(&self) -> bool
        ensures { result ≡ (pulled self.now).ended };

    /// Whether a pull failed.
    fn failed(&self) -> bool
        ensures { result ≡ (pulled self.now).failed };
}
