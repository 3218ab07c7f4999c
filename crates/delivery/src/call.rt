// A call of a cell, written down. Any unit number, fate and start bit will do: the cell refuses those that are out of range.
#[derive(Clone, Copy, Debug)]
pub enum Call<'a> {
    // a host command to a unit, with room for so many bytes of reply
    Command {
        unit: u8,
        host: &'a [u8],
        room: u8,
    },
    // the level of a unit's CE pin
    Ce {
        unit: u8,
        high: bool,
    },
    // a tick of a unit
    Tick {
        unit: u8,
    },
    // the fate of the frame on the air, by its number; start bit and pattern matter for fate 3 alone
    Carry {
        fate: u8,
        start: usize,
        pattern: u16,
    },
}
