ghost use Rattle.std.specs.Prelude.{◌≡◌, slice_index};
ghost use Rattle.std.specs.Fn.{iterate};
ghost use Rattle.embed.specs.Repeating.{packed_again, before_packing, read_again, before_reading};

use crate::packing::sinkapricot_pack;
use crate::reading::{PacketRead, sinkapricot_read};
use crate::repeating::work::{Work, turned};

// A turn: a frame to the address E7E7E7E7E7 with packet identity 1 and these 32 bytes is packed. The payload's first byte becomes
// byte 39 of the frame, which has bits of the check. At first each byte of the payload is 5A. The answer is the last byte 39.
#[derive(Drop)]
struct Packing {
    kind: u8,
    payload: [u8; 32],
    frame: [u8; 42],
}

impl Work for Packing {
    ghost step = { packed_again };

    #[inline(never)]
    fn turn(&mut self) {
        let _bits = sinkapricot_pack(
            self.kind,
            &[0xE7; 5],
            1,
            false,
            &self.payload,
            &mut self.frame,
        );
        self.payload[0] = self.frame[39];
    }
}

#[unsafe(no_mangle)]
pub extern "C" fn sinkapricot_repeat_pack(kind: u8, turns: u64) -> u8
    ensures { result ≡ slice_index (iterate packed_again turns (before_packing kind)).frame 39 }
{
    let work = Packing {
        kind,
        payload: [0x5A; 32],
        frame: [0; 42],
    };
    turned(work, turns).frame[39]
}

// A turn: the frame is read. Its preamble, which no reader looks at, becomes the sum of itself and the last byte of the payload,
// modulo 256. The frame is the one that the first turn of packing makes. The answer is the last preamble.
#[derive(Drop)]
struct Reading {
    kind: u8,
    bits: usize,
    frame: [u8; 42],
    packet: PacketRead,
}

impl Work for Reading {
    ghost step = { read_again };

    #[inline(never)]
    fn turn(&mut self) {
        let _outcome = sinkapricot_read(self.kind, 5, &self.frame, self.bits, &mut self.packet);
        let sum = u16::from(self.frame[0]) + u16::from(self.packet.payload[31]);
        self.frame[0] = (sum % 256) as u8;
    }
}

#[unsafe(no_mangle)]
pub extern "C" fn sinkapricot_repeat_read(kind: u8, turns: u64) -> u8
    ensures { result ≡ slice_index (iterate read_again turns (before_reading kind)).frame 0 }
{
    let mut frame = [0; 42];
    let bits = sinkapricot_pack(kind, &[0xE7; 5], 1, false, &[0x5A; 32], &mut frame);
    let work = Reading {
        kind,
        bits,
        frame,
        packet: PacketRead::none(),
    };
    turned(work, turns).frame[0]
}
