//! Sinks for texts: the end of a line, or a measure of their length.
ghost use Rattle.std.specs.Prelude.{◌≡◌, ◌≤◌, ◌++◌, [], ◌∷◌, true, ℕ, List, length, decimal};
ghost use Rattle.ctf_protocol.specs.lines.Text.{hex_of};
ghost use Rattle.ctf_lines.specs.Rows.{member_row};

/// A sink to which texts are written, one after the other.
pub trait TextSink {
    /// `Took old text new`: writing `text` to `old` can give `new`.
    ghost Took: { Self → List ℕ → Self → Type 0 };

    /// Whether it stays as it is, whatever is written.
    fn is_full(&self) -> bool
        ensures { result ≡ true → (text : List ℕ) → Took self.now text self.now };

    /// Writes a text.
    fn put(&mut self, text: &[u8])
        ensures { Took self.old text.now self.new };

    /// Writes a byte.
    fn put_one(&mut self, byte: u8)
        ensures { Took self.old (byte ∷ []) self.new };

    /// Writes a text between two short ones.
    fn put_between(&mut self, front: &[u8], text: &[u8], back: &[u8])
        requires { (length front.now ≤ 16) × (length back.now ≤ 16) }
        ensures { Took self.old (front.now ++ (text.now ++ back.now)) self.new };

    /// Writes a number between two short texts.
    fn put_numbered(&mut self, front: &[u8], number: u64, back: &[u8])
        requires { (length front.now ≤ 16) × (length back.now ≤ 16) }
        ensures { Took self.old (front.now ++ (decimal number ++ back.now)) self.new };

    /// Writes a member, whose name needs no escapes.
    fn put_member(&mut self, name: &[u8], offset: u64, number: u64)
        ensures { Took self.old (member_row name.now offset number) self.new };

    /// Writes the digits of bytes, two for each.
    fn put_hex(&mut self, bytes: &[u8])
        ensures { Took self.old (hex_of bytes.now) self.new };

    /// Writing a text without bytes leaves it as it is.
    ghost nothing: { (sink : Self) → Took sink [] sink };

    /// Writing two texts one after the other is writing one.
    ghost joined: { (old mid new : Self) → (a b : List ℕ)
        → Took old a mid → Took mid b new → Took old (a ++ b) new };
}
