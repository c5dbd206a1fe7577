//! Where bytes go.
ghost use Rattle.std.specs.Prelude.{◌≡◌, ◌<◌, ◌≤◌, length, IfSome};
ghost use Rattle.ctf_wire.specs.Streams.{Pushed, Pushes, Passes};

/// Takes bytes, and passes them on when it is flushed.
pub trait Sink {
    /// What is known of the bytes and flushes that it got, and whether they succeeded.
    ghost pushed: { Self → Pushed };

    /// Takes some bytes from the front, and returns how many. Taking none of some bytes is a
    /// failure.
    fn push(&mut self, bytes: &[u8]) -> Option<usize>
        ensures within { IfSome result (λ n. n ≤ length bytes.now) }
        ensures some { IfSome result (λ n. 0 < length bytes.now → 0 < n) }
        ensures pushed { Pushes (pushed self.old) result bytes.now (pushed self.new) };

    /// Passes on all bytes that it took, and returns whether that succeeded.
    fn flush(&mut self) -> bool
        ensures { Passes (pushed self.old) result (pushed self.new) };

    /// Whether a push or a flush failed.
    fn failed(&self) -> bool
        ensures { result ≡ (pushed self.now).failed };
}
