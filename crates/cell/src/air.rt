// A frame on the air: the unit that sent it, and how many bits of its bytes it has, from the top. Nothing here has a heap, so the
// bytes are those of the longest frame. Frames are not compared: the bytes behind the bits of one say nothing.
#[derive(Clone, Copy, Debug)]
pub struct Frame {
    pub from: u8,
    pub count: usize,
    pub bytes: [u8; 42],
}

// What becomes of the frame on the air when it is carried.
#[derive(Clone, Copy, Debug, PartialEq, Eq)]
pub enum Fate {
    // nobody hears it
    Lost,
    // every unit but its sender hears it
    Heard,
    // every unit but its sender hears it twice; only the second answer stays
    HeardTwice,
    // its bits are changed by a pattern, the top bit of which lies on the start bit; then it is heard
    Changed { start: usize, pattern: u16 },
}
