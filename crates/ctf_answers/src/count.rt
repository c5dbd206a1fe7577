//! A number in the answer to a change.
ghost use Rattle.std.specs.Prelude.{◌<◌, ◌≤◌, ◌^◌, length};

/// A number under a short key.
#[derive(Clone, Copy)]
pub struct Count {
    pub key: &'static str,
    pub number: u64,
    pub ghost short: { length key.now ≤ 6 },
    pub ghost fits: { number < 2 ^ 64 },
}
