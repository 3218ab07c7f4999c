ghost use Rattle.std.specs.Prelude.{◌≤◌};

// The bytes of a reply, at the front of `held`: fixed memory for the most room that a call can give, since nothing here allocates.
#[derive(Clone, Copy, Debug)]
pub struct Reply {
    pub(crate) held: [u8; 255],
    pub(crate) len: usize,
    ghost fits: { len ≤ 255 },
}
