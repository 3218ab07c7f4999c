// Scripts as text in and results as text out: each reason for a `cannot`, and the ways a line can end.
#![tactic(auto)]

#[cfg(test)]
mod tests {
    use desk::Units;
    use requests::{Kind, Line, Stop, parse};
    use results::{Answer, carry_out};
    use script::{Console, Halt, feed};
    use std::alloc::Global;
    use std::io;
    use std::io::{ErrorKind, Read, Write};
    use std::process::Abort;

    // Feeds a script to a new console, and compares what it writes and how many lines could not be carried out.
    fn gives(rt: &impl Abort, heap: Global, script: &[u8], expected: &[u8], unable: u64) {
        let mut console = Console::new();
        let mut out: Vec<u8> = Vec::new(heap);
        assert!(rt; feed(&mut console, heap, script, &mut out).is_ok());
        assert!(rt; out.as_slice() == expected);
        let (_, failed) = console.tally();
        assert_eq!(rt; failed, unable);
    }

    // The line is gone when the answer comes: an answer owns what it says.
    fn answered(units: &mut Units, heap: Global, line: Line) -> Result<Answer, Stop> {
        carry_out(units, heap, &line)
    }

    #[test]
    fn answer_outlives_its_line(rt: HostRuntime) {
        let heap = rt.alloc();
        let mut units = Units::new(Kind::Crc16);
        let mut profile: Vec<u8> = Vec::new(heap);
        let sound = profile.extend_from_slice(&[0x00, 0x00, 0x00, 0x30, 0x2F, 0x4C]);
        assert!(&rt; sound.is_ok());
        let register = 0x05;
        let answer = answered(&mut units, heap, Line::Field { register, profile });
        let text = answer.map(|answer| format!(in heap; "{answer}"));
        assert!(&rt; matches!(&text, Ok(Ok(text)) if text.as_str() == "ok 4C"));
    }

    // What a line of these words answers, with no units and the 16-bit check.
    fn answer_to(heap: Global, words: &[&[u8]]) -> Result<Answer, Stop> {
        let line = parse(heap, words)?;
        answered(&mut Units::new(Kind::Crc16), heap, line)
    }

    // The check of this frame by long division is CE12.
    #[test]
    fn check_comes_with_a_packet(rt: HostRuntime) {
        let frame: [&[u8]; 17] = [
            b"read", b"5", b"105", b"AA", b"E7", b"04", b"03", b"02", b"01", b"11", b"6F", b"56",
            b"DF", b"77", b"E7", b"09", b"00",
        ];
        let answer = answer_to(rt.alloc(), &frame);
        assert!(&rt; matches!(&answer, Ok(Answer::Read(Ok(Some(heard)))) if heard.check == 0xCE12));
    }

    #[test]
    fn refused_profile_is_a_field(rt: HostRuntime) {
        let answer = answer_to(rt.alloc(), &[b"field", b"05", b"00"]);
        assert!(&rt; matches!(&answer, Ok(Answer::Field(Err(_)))));
    }

    #[test]
    fn taken_lines_are_added_and_counted(rt: HostRuntime) {
        let heap = rt.alloc();
        let mut console = Console::new();
        let mut out: Vec<u8> = Vec::new(heap);
        assert!(&rt; console.take(heap, b"kind crc8", &mut out).is_ok());
        assert!(&rt; console.take(heap, b"", &mut out).is_ok());
        assert!(&rt; console.take(heap, b"make x", &mut out).is_ok());
        let results: &[u8] = b"1: ok\n3: cannot (too many words: make)\n";
        assert!(&rt; out.as_slice() == results);
        assert!(&rt; console.tally() == (1, 1));
    }

    #[test]
    fn first_words(rt: HostRuntime) {
        let heap = rt.alloc();
        let why: &[u8] =
            b"1: cannot (word 1: a line begins with kind, pack, read, bench, load, field, check, box, command, ce, irq, tick, hear, make or carry)\n";
        gives(&rt, heap, b"foo 1\n", why, 1);
        gives(&rt, heap, b"\xff\xfe\x00\n", why, 1);
        gives(&rt, heap, b"PACK E7E7E7 0 0\n", why, 1);
    }

    #[test]
    fn kinds(rt: HostRuntime) {
        let heap = rt.alloc();
        gives(
            &rt,
            heap,
            b"kind\n",
            b"1: cannot (too few words: kind K)\n",
            1,
        );
        gives(
            &rt,
            heap,
            b"kind crc8 crc16\n",
            b"1: cannot (too many words: kind K)\n",
            1,
        );
        gives(
            &rt,
            heap,
            b"kind crc32\n",
            b"1: cannot (word 2: a kind is crc8 or crc16)\n",
            1,
        );
        gives(&rt, heap, b"kind crc8\nkind crc16\n", b"1: ok\n2: ok\n", 0);
    }

    #[test]
    fn addresses(rt: HostRuntime) {
        let heap = rt.alloc();
        let why: &[u8] =
            b"1: cannot (word 2: an address is 3 to 5 bytes, 6, 8 or 10 hexadecimal digits together)\n";
        gives(&rt, heap, b"pack E7E7 0 0\n", why, 1);
        gives(&rt, heap, b"pack E7E7E7E7E7E7 0 0\n", why, 1);
        gives(&rt, heap, b"pack E7E7E7E 0 0\n", why, 1);
        gives(&rt, heap, b"pack E7E7EG 0 0\n", why, 1);
    }

    #[test]
    fn packs(rt: HostRuntime) {
        let heap = rt.alloc();
        let few: &[u8] = b"1: cannot (too few words: pack ADDRESS PID NOACK BYTES)\n";
        gives(&rt, heap, b"pack\n", few, 1);
        gives(&rt, heap, b"pack E7E7E7 0\n", few, 1);
        gives(
            &rt,
            heap,
            b"pack E7E7E7 4 0\n",
            b"1: cannot (word 3: a PID is 0 to 3)\n",
            1,
        );
        gives(
            &rt,
            heap,
            b"pack E7E7E7 -1 0\n",
            b"1: cannot (word 3: a PID is 0 to 3)\n",
            1,
        );
        gives(
            &rt,
            heap,
            b"pack E7E7E7 0 2\n",
            b"1: cannot (word 4: NOACK is 0 or 1)\n",
            1,
        );
        gives(
            &rt,
            heap,
            b"pack E7E7E7 0 0 1\n",
            b"1: cannot (word 5: a byte is two hexadecimal digits)\n",
            1,
        );
        gives(
            &rt,
            heap,
            b"pack E7E7E7 0 0 11 1G\n",
            b"1: cannot (word 6: a byte is two hexadecimal digits)\n",
            1,
        );
    }

    #[test]
    fn long_payloads(rt: HostRuntime) {
        let heap = rt.alloc();
        let script: &[u8] =
            b"pack E7E7E7 0 0 00 01 02 03 04 05 06 07 08 09 0A 0B 0C 0D 0E 0F 10 11 12 13 14 15 16 17 18 19 1A 1B 1C 1D 1E 1F 20\n";
        gives(&rt, heap, script, b"1: cannot (over 32 payload bytes)\n", 1);
    }

    #[test]
    fn reads(rt: HostRuntime) {
        let heap = rt.alloc();
        let width: &[u8] = b"1: cannot (word 2: an address is 3 to 5 bytes wide)\n";
        let bits: &[u8] = b"1: cannot (word 3: a bit count is 0 to 65535)\n";
        gives(
            &rt,
            heap,
            b"read 3\n",
            b"1: cannot (too few words: read WIDTH BITS BYTES)\n",
            1,
        );
        gives(&rt, heap, b"read 2 0\n", width, 1);
        gives(&rt, heap, b"read 6 0\n", width, 1);
        gives(&rt, heap, b"read 3 65536\n", bits, 1);
        gives(&rt, heap, b"read 3 99999999999999999999\n", bits, 1);
        gives(
            &rt,
            heap,
            b"read 3 8 A\n",
            b"1: cannot (word 4: a byte is two hexadecimal digits)\n",
            1,
        );
    }

    // A refusal is an answer: the line was carried out.
    #[test]
    fn refusals(rt: HostRuntime) {
        let heap = rt.alloc();
        gives(
            &rt,
            heap,
            b"read 3 9 AA\n",
            b"1: refused 18 (bits beyond the frame's bytes)\n",
            0,
        );
        gives(&rt, heap, b"read 3 0\n", b"1: ok nothing\n", 0);
        gives(
            &rt,
            heap,
            b"read 5 105 AA E7 04 03 02 01 11 6F 57 DF 77 E7 09 00\n",
            b"1: ok nothing\n",
            0,
        );
    }

    #[test]
    fn ends_of_lines(rt: HostRuntime) {
        let heap = rt.alloc();
        gives(&rt, heap, b"", b"", 0);
        gives(
            &rt,
            heap,
            b"\n\n  \t\n# only a comment\nkind crc8",
            b"5: ok\n",
            0,
        );
        gives(
            &rt,
            heap,
            b"kind crc8\r\n\r\nread 3 0\r\n",
            b"1: ok\n3: ok nothing\n",
            0,
        );
        gives(&rt, heap, b"kind crc8#no blank before\n", b"1: ok\n", 0);
    }

    // A line that cannot be carried out leaves the check as it was.
    #[test]
    fn nothing_changes(rt: HostRuntime) {
        let heap = rt.alloc();
        let frame: &[u8] = b"kind crc8\nkind crc99\nread 3 57 55 00 C2 C2 04 00 B0 00\n";
        let mut console = Console::new();
        let mut out: Vec<u8> = Vec::new(heap);
        assert!(rt; feed(&mut console, heap, frame, &mut out).is_ok());
        let start: &[u8] =
            b"1: ok\n2: cannot (word 2: a kind is crc8 or crc16)\n3: ok 00C2C2 0 0 01\n     preamble  55 ";
        assert!(rt; out.as_slice().starts_with(start));
    }

    // Words of the lines for units.
    #[test]
    fn unit_words(rt: HostRuntime) {
        let heap = rt.alloc();
        let label: &[u8] = b"1: cannot (word 2: a unit is 0 to 7)\n";
        let room: &[u8] = b"1: cannot (word 3: a reply buffer is /0 to /255)\n";
        gives(
            &rt,
            heap,
            b"bench\ncheck 1 2\nbox\nirq 0 0\n",
            b"1: cannot (too few words: bench U)\n2: cannot (too many words: check U)\n3: cannot (too few words: box U)\n4: cannot (too many words: irq U)\n",
            4,
        );
        gives(
            &rt,
            heap,
            b"load\nfield\ncommand\n",
            b"1: cannot (too few words: load U BYTES)\n2: cannot (too few words: field RR BYTES)\n3: cannot (too few words: command U BYTES or command U /R BYTES)\n",
            3,
        );
        gives(&rt, heap, b"bench 8\n", label, 1);
        gives(&rt, heap, b"load x 00\n", label, 1);
        gives(
            &rt,
            heap,
            b"command /3 04\n",
            b"1: cannot (word 2: the number of a unit is 0 to 255)\n",
            1,
        );
        gives(&rt, heap, b"command 0 /256 04\n", room, 1);
        gives(&rt, heap, b"command 0 /\n", room, 1);
        gives(
            &rt,
            heap,
            b"command 0 04 /33\nload 0 0\nfield 5 00\n",
            b"1: cannot (word 4: a byte is two hexadecimal digits)\n2: cannot (word 3: a byte is two hexadecimal digits)\n3: cannot (word 2: a register is two hexadecimal digits)\n",
            3,
        );
    }

    // A unit that is not there, that is boxed, or that is still on the bench.
    #[test]
    fn unit_places(rt: HostRuntime) {
        let heap = rt.alloc();
        gives(
            &rt,
            heap,
            b"load 3\ncheck 3\nbox 3\nirq 3\ncommand 3 04\n",
            b"1: cannot (unit 3 is not there; a line bench makes one, 0 to 7)\n2: cannot (unit 3 is not there; a line bench makes one, 0 to 7)\n3: cannot (unit 3 is not there; a line bench makes one, 0 to 7)\n4: cannot (unit 3 is not there; a line bench makes one, 0 to 7)\n5: cannot (unit 3 is not there; a line bench makes one, 0 to 7)\n",
            5,
        );
        gives(
            &rt,
            heap,
            b"bench 7\nirq 7\nbox 7\nload 7\ncheck 7\nbox 7\ncommand 7 04\nirq 7\n",
            b"1: ok\n2: cannot (unit 7 is on the bench; the line is for a boxed unit)\n3: ok\n4: cannot (unit 7 is boxed; the line is for a unit on the bench)\n5: cannot (unit 7 is boxed; the line is for a unit on the bench)\n6: cannot (unit 7 is boxed; the line is for a unit on the bench)\n7: refused 12 00 (the check finds a fault in CONFIG)\n8: ok high\n",
            4,
        );
        // a kind drops all units, and bench puts a new unit in the place of another
        gives(
            &rt,
            heap,
            b"bench 0\nkind crc8\ncheck 0\nbench 0\ncommand 0 25 01\nbench 0\ncommand 0 05\n",
            b"1: ok\n2: ok\n3: cannot (unit 0 is not there; a line bench makes one, 0 to 7)\n4: ok\n5: ok 0E\n6: ok\n7: ok 0E 02\n",
            1,
        );
    }

    #[test]
    fn unit_refusals(rt: HostRuntime) {
        let heap = rt.alloc();
        gives(
            &rt,
            heap,
            b"bench 0\ncommand 0\ncommand 0 18\ncommand 0 A0 01\ncommand 0 04 00\n",
            b"1: ok\n2: refused 1 (no command byte)\n3: refused 2 (no such command or register)\n4: refused 3 (not for a bench unit, or not for its role)\n5: refused 4 (a wrong number of data bytes)\n",
            0,
        );
        gives(
            &rt,
            heap,
            b"bench 0\ncommand 0 /1 04\ncommand 0 28 00\ncommand 0 25 7E\ncommand 0 05\nload 0\nfield 05\n",
            b"1: ok\n2: refused 6 (the reply buffer is too short)\n3: refused 7 (read only, or fixed by boxing)\n4: refused 9 05 (the value is not allowed for RF_CH)\n5: ok 0E 02\n6: refused 11 (the profile's map or length is wrong)\n7: refused 11 (the profile's map or length is wrong)\n",
            0,
        );
    }

    // A profile is loaded and read back; a unit is boxed with a fault, and one without.
    #[test]
    fn profiles_and_boxes(rt: HostRuntime) {
        let heap = rt.alloc();
        gives(
            &rt,
            heap,
            b"bench 5\nload 5 00 00 00 30 2F 4C\ncommand 5 04\ncommand 5 05\ncommand 5 /255 0B\n",
            b"1: ok\n2: ok\n     04 SETUP_RETR  2F\n     05 RF_CH       4C\n3: ok 0E 2F\n4: ok 0E 4C\n5: ok 0E C2 C2 C2 C2 C2\n",
            0,
        );
        gives(
            &rt,
            heap,
            b"bench 0\ncheck 0\nbox 0\nirq 0\nkind crc8\nbench 0\ncheck 0\nbox 0\nirq 0\n",
            b"1: ok\n2: refused 12 00 (the check finds a fault in CONFIG)\n3: ok\n4: ok high\n5: ok\n6: ok\n7: ok\n8: ok\n9: ok high\n",
            0,
        );
    }

    // Gives its bytes one at a time, each after an interruption, and then fails.
    #[derive(Drop)]
    struct Broken<'a> {
        rest: &'a [u8],
        interrupted: bool,
    }

    impl Read for Broken<'_> {
        fn read(&mut self, buf: &mut [u8]) -> io::Result<usize> {
            self.interrupted = !self.interrupted;
            if self.interrupted {
                return Err(ErrorKind::Interrupted.into());
            }
            let Some((first, rest)) = self.rest.split_first() else {
                return Err(ErrorKind::BrokenPipe.into());
            };
            let Some(place) = buf.first_mut() else {
                return Ok(0);
            };
            *place = *first;
            self.rest = rest;
            Ok(1)
        }
    }

    // Where the input fails, the whole lines before that are taken and written, and the begun one is not.
    #[test]
    fn broken_input(rt: HostRuntime) {
        let heap = rt.alloc();
        let mut console = Console::new();
        let mut out: Vec<u8> = Vec::new(heap);
        let input = Broken {
            rest: b"kind crc8\nkind crc9\nkind crc16\nkind cr",
            interrupted: false,
        };
        let fed = feed(&mut console, heap, input, &mut out);
        assert!(rt; matches!(fed, Err(Halt::Input(_))));
        let why: &[u8] = b"1: ok\n2: cannot (word 2: a kind is crc8 or crc16)\n3: ok\n";
        assert!(rt; out.as_slice() == why);
        assert!(rt; console.tally() == (2, 1));
    }

    // Takes two bytes at a time, each time after an interruption, as long as there is room.
    #[derive(Drop)]
    struct Narrow<'a> {
        held: &'a mut Vec<u8>,
        room: usize,
        interrupted: bool,
    }

    impl Write for Narrow<'_> {
        fn write(&mut self, buf: &[u8]) -> io::Result<usize> {
            self.interrupted = !self.interrupted;
            if self.interrupted {
                return Err(ErrorKind::Interrupted.into());
            }
            let count = buf.len().min(2).min(self.room);
            if count == 0 {
                return Err(ErrorKind::BrokenPipe.into());
            }
            self.held.extend_from_slice(&buf[..count])?;
            self.room -= count;
            Ok(count)
        }

        fn flush(&mut self) -> io::Result<()> {
            Ok(())
        }
    }

    // Where the output fails, a front of the results is written, and the line whose result fails is the last that is taken.
    #[test]
    fn broken_output(rt: HostRuntime) {
        let heap = rt.alloc();
        let mut console = Console::new();
        let mut held: Vec<u8> = Vec::new(heap);
        let mut out = Narrow {
            held: &mut held,
            room: 9,
            interrupted: false,
        };
        let script: &[u8] = b"kind crc8\nkind crc16\nkind crc8\n";
        let fed = feed(&mut console, heap, script, &mut out);
        assert!(rt; matches!(fed, Err(Halt::Output(_))));
        let front: &[u8] = b"1: ok\n2: ";
        assert!(rt; held.as_slice() == front);
        assert!(rt; console.tally() == (2, 0));
    }

    // Words of the lines for boxed units.
    #[test]
    fn call_words(rt: HostRuntime) {
        let heap = rt.alloc();
        gives(
            &rt,
            heap,
            b"ce\nce 1\nce 1 1 1\ntick\ntick 1 1 1\nhear\nhear 1\nirq\n",
            b"1: cannot (too few words: ce U 0 or ce U 1)\n2: cannot (too few words: ce U 0 or ce U 1)\n3: cannot (too many words: ce U 0 or ce U 1)\n4: cannot (too few words: tick U or tick U N)\n5: cannot (too many words: tick U or tick U N)\n6: cannot (too few words: hear U BITS BYTES)\n7: cannot (too few words: hear U BITS BYTES)\n8: cannot (too few words: irq U)\n",
            8,
        );
        gives(
            &rt,
            heap,
            b"ce 1 2\nce 1 x\nce 256 1\nirq 256\ncommand 256 FF\n",
            b"1: cannot (word 3: a level is 0 or 1)\n2: cannot (word 3: a level is 0 or 1)\n3: cannot (word 2: the number of a unit is 0 to 255)\n4: cannot (word 2: the number of a unit is 0 to 255)\n5: cannot (word 2: the number of a unit is 0 to 255)\n",
            5,
        );
        gives(
            &rt,
            heap,
            b"tick 1 0\ntick 1 65536\ntick 1 -1\ntick 256\ntick one\n",
            b"1: cannot (word 3: a count of ticks is 1 to 65535)\n2: cannot (word 3: a count of ticks is 1 to 65535)\n3: cannot (word 3: a count of ticks is 1 to 65535)\n4: cannot (word 2: the number of a unit is 0 to 255)\n5: cannot (word 2: the number of a unit is 0 to 255)\n",
            5,
        );
        gives(
            &rt,
            heap,
            b"hear 8 0\nhear 1 65536\nhear 1 8 A\n",
            b"1: cannot (word 2: a unit is 0 to 7)\n2: cannot (word 3: a bit count is 0 to 65535)\n3: cannot (word 4: a byte is two hexadecimal digits)\n",
            3,
        );
    }

    // A unit that is not there, by a label's number or another, and one that is still on the bench.
    #[test]
    fn call_places(rt: HostRuntime) {
        let heap = rt.alloc();
        gives(
            &rt,
            heap,
            b"ce 9 1\ntick 1\nhear 2 0\nirq 255\ncommand 8 FF\n",
            b"1: cannot (unit 9 is not there; a line bench makes one, 0 to 7)\n2: cannot (unit 1 is not there; a line bench makes one, 0 to 7)\n3: cannot (unit 2 is not there; a line bench makes one, 0 to 7)\n4: cannot (unit 255 is not there; a line bench makes one, 0 to 7)\n5: cannot (unit 8 is not there; a line bench makes one, 0 to 7)\n",
            5,
        );
        gives(
            &rt,
            heap,
            b"bench 3\nce 3 1\ntick 3 5\nhear 3 0\n",
            b"1: ok\n2: cannot (unit 3 is on the bench; the line is for a boxed unit)\n3: cannot (unit 3 is on the bench; the line is for a boxed unit)\n4: cannot (unit 3 is on the bench; the line is for a boxed unit)\n",
            3,
        );
    }

    // At reset a unit has a fault for the 16-bit check: boxed with it, it refuses every call.
    #[test]
    fn boxed_with_a_fault(rt: HostRuntime) {
        let heap = rt.alloc();
        gives(
            &rt,
            heap,
            b"bench 0\nbox 0\ncommand 0 FF\ncommand 0\nce 0 1\ntick 0\ntick 0 65535\nhear 0 0\nhear 0 9 AA\nirq 0\n",
            b"1: ok\n2: ok\n3: refused 12 00 (the check finds a fault in CONFIG)\n4: refused 12 00 (the check finds a fault in CONFIG)\n5: refused 12 00 (the check finds a fault in CONFIG)\n6: refused 12 00 (the check finds a fault in CONFIG)\n7: refused 12 00 (the check finds a fault in CONFIG)\n8: refused 12 00 (the check finds a fault in CONFIG)\n9: refused 12 00 (the check finds a fault in CONFIG)\n10: ok high\n",
            0,
        );
    }

    // A fourth payload that waits is refused, and STATUS then says that the queue is full.
    #[test]
    fn full_queue(rt: HostRuntime) {
        let heap = rt.alloc();
        gives(
            &rt,
            heap,
            b"bench 1\ncommand 1 20 0C\nbox 1\ncommand 1 A0 11\ncommand 1 A0 22\ncommand 1 A0 33\ncommand 1 A0 44\ncommand 1 FF\ncommand 1 61\ncommand 1 E1\ncommand 1 FF\n",
            b"1: ok\n2: ok 0E\n3: ok\n4: ok 0E\n5: ok 0E\n6: ok 0E\n7: refused 10 (the TX queue is full)\n8: ok 0F\n9: refused 3 (not for a bench unit, or not for its role)\n10: ok 0F\n11: ok 0E\n",
            0,
        );
    }

    // A sender is powered up and sends by the 14th tick; with ARD and ARC 3 it sends three times again, after waits of 100 ticks, and gives up.
    #[test]
    fn sends_and_gives_up(rt: HostRuntime) {
        let heap = rt.alloc();
        gives(
            &rt,
            heap,
            b"bench 1\ncommand 1 20 0C\ncommand 1 24 33\nbox 1\ncommand 1 20 0E\ntick 1 200\nce 1 1\ncommand 1 A0 01\ntick 1 13\ntick 1\n",
            b"1: ok\n2: ok 0E\n3: ok 0E\n4: ok\n5: ok 0E\n6: ok 200\n7: ok\n8: ok 0E\n9: ok 13\n10: ok 1 frame 81 AA E7 E7 E7 E7 E7 05 00 E0 5B 00\n",
            0,
        );
        gives(
            &rt,
            heap,
            b"bench 1\ncommand 1 20 0C\ncommand 1 24 33\nbox 1\ncommand 1 20 0E\ntick 1 200\nce 1 1\ncommand 1 A0 01\ntick 1 14\ntick 1 65535\ntick 1 100\ntick 1 99\ntick 1\ntick 1 99\ncommand 1 FF\ntick 1\nirq 1\ncommand 1 08\n",
            b"1: ok\n2: ok 0E\n3: ok 0E\n4: ok\n5: ok 0E\n6: ok 200\n7: ok\n8: ok 0E\n9: ok 14 frame 81 AA E7 E7 E7 E7 E7 05 00 E0 5B 00\n10: ok 100 frame 81 AA E7 E7 E7 E7 E7 05 00 E0 5B 00\n11: ok 100 frame 81 AA E7 E7 E7 E7 E7 05 00 E0 5B 00\n12: ok 99\n13: ok 1 frame 81 AA E7 E7 E7 E7 E7 05 00 E0 5B 00\n14: ok 99\n15: ok 0E\n16: ok 1\n17: ok low\n18: ok 1E 13\n",
            0,
        );
    }

    // A receiver with the 8-bit check takes a payload once, answers a repeat, drops a damaged frame, and answers none that wants no answer.
    #[test]
    fn hears(rt: HostRuntime) {
        let heap = rt.alloc();
        gives(
            &rt,
            heap,
            b"kind crc8\nbench 0\ncommand 0 20 09\ncommand 0 22 01\ncommand 0 31 01\nbox 0\nhear 0 73 AA E7 E7 E7 E7 E7 05 00 CA 00\ncommand 0 20 0B\ntick 0 200\nce 0 1\ntick 0 13\nhear 0 73 AA E7 E7 E7 E7 E7 05 00 CA 00\nhear 0 73 AA E7 E7 E7 E7 E7 05 00 CA 00\nhear 0 73 AA E7 E7 E7 E7 E7 05 01 CA 00\nhear 0 73 AA E7 E7 E7 E7 E7 05 80 C0 80\nhear 0 72 AA E7 E7 E7 E7 E7 05 00 CA\nhear 0 73 AA E7 E7 E7 E7 E7 05 00 CA\nirq 0\ncommand 0 61\ncommand 0 61\ncommand 0 61\n",
            b"1: ok\n2: ok\n3: ok 0E\n4: ok 0E\n5: ok 0E\n6: ok\n7: ok\n8: ok 0E\n9: ok 200\n10: ok\n11: ok 13\n12: ok frame 65 AA E7 E7 E7 E7 E7 01 32 00\n13: ok frame 65 AA E7 E7 E7 E7 E7 01 32 00\n14: ok\n15: ok\n16: ok\n17: refused 18 (bits beyond the frame's bytes)\n18: ok low\n19: ok 40 01\n20: ok 40 01\n21: refused 5 (the RX queue is empty)\n",
            0,
        );
    }

    // Words of the lines for a cell.
    #[test]
    fn cell_words(rt: HostRuntime) {
        let heap = rt.alloc();
        gives(
            &rt,
            heap,
            b"make 1\ncarry\ncarry 1 2\ncarry 1 2 0000 5\n",
            b"1: cannot (too many words: make)\n2: cannot (too few words: carry F or carry F START PATTERN)\n3: cannot (too few words: carry F or carry F START PATTERN)\n4: cannot (too many words: carry F or carry F START PATTERN)\n",
            4,
        );
        gives(
            &rt,
            heap,
            b"carry 256\ncarry x 0 0000\ncarry 3 65536 8000\ncarry 3 0 800\ncarry 3 0 80000\ncarry 3 0 80g0\n",
            b"1: cannot (word 2: a fate is 0 to 255)\n2: cannot (word 2: a fate is 0 to 255)\n3: cannot (word 3: a start bit is 0 to 65535)\n4: cannot (word 4: a pattern is four hexadecimal digits)\n5: cannot (word 4: a pattern is four hexadecimal digits)\n6: cannot (word 4: a pattern is four hexadecimal digits)\n",
            6,
        );
    }

    // A cell is made once its units fit; then lines are for it, until a kind ends it. After a refusal the units stay.
    #[test]
    fn makes(rt: HostRuntime) {
        let heap = rt.alloc();
        gives(
            &rt,
            heap,
            b"make\nbench 0\ncommand 0 20 0D\ncommand 0 22 01\ncommand 0 31 01\nbox 0\nmake\nirq 0\nbench 1\ncommand 1 20 0C\nmake\nbox 1\nbench 3\nbox 3\ncarry 1\nmake\nmake\n",
            b"1: refused cell 0 13 (the cell cannot be made)\n2: ok\n3: ok 0E\n4: ok 0E\n5: ok 0E\n6: ok\n7: refused cell 1 13 (the cell cannot be made)\n8: ok high\n9: ok\n10: ok 0E\n11: refused cell 1 13 (the cell cannot be made)\n12: ok\n13: ok\n14: ok\n15: cannot (there is no cell; a line make makes it)\n16: ok\n17: cannot (there is a cell already; a line kind ends it)\n",
            2,
        );
        gives(
            &rt,
            heap,
            b"bench 0\ncommand 0 20 0D\ncommand 0 22 01\ncommand 0 31 01\nbox 0\nbench 1\ncommand 1 20 0C\nbox 1\nbench 3\nbox 3\nmake\nbench 5\nload 0\ncheck 1\nbox 3\nhear 0 0\nirq 3\nirq 1\ncommand 3 FF\nce 200 1\ntick 3 5\ncommand 3\ncarry 1\nkind crc8\ncarry 1\nirq 0\n",
            b"1: ok\n2: ok 0E\n3: ok 0E\n4: ok 0E\n5: ok\n6: ok\n7: ok 0E\n8: ok\n9: ok\n10: ok\n11: ok\n12: cannot (unit 5 is out of reach; a cell is made, and the line is for a unit outside of one)\n13: cannot (unit 0 is out of reach; a cell is made, and the line is for a unit outside of one)\n14: cannot (unit 1 is out of reach; a cell is made, and the line is for a unit outside of one)\n15: cannot (unit 3 is out of reach; a cell is made, and the line is for a unit outside of one)\n16: cannot (unit 0 is out of reach; a cell is made, and the line is for a unit outside of one)\n17: cannot (unit 3 is no unit of the cell)\n18: ok high\n19: refused cell 3 14 (no such unit)\n20: refused cell 200 14 (no such unit)\n21: refused cell 3 14 (no such unit)\n22: refused cell 3 14 (no such unit)\n23: refused cell 0 16 (the air is empty)\n24: ok\n25: cannot (there is no cell; a line make makes it)\n26: cannot (unit 0 is not there; a line bench makes one, 0 to 7)\n",
            8,
        );
    }

    // With the 8-bit check a pattern has only 8 bits; the last of 73 bits is changed, and the frame is sent again and taken. Then two
    // payloads are flushed.
    #[test]
    fn carries(rt: HostRuntime) {
        let heap = rt.alloc();
        let script: &[u8] =
            b"kind crc8\nbench 0\ncommand 0 20 09\ncommand 0 22 01\ncommand 0 31 01\nbox 0\nbench 1\nbox 1\nmake\ncommand 0 20 0B\ntick 0 200\nce 0 1\ntick 0 13\ncommand 1 20 0A\ntick 1 200\nce 1 1\ncommand 1 A0 01\ntick 1 20\ntick 0\ncarry 3 8 0001\ncarry 3 65535 8000\ncarry 3 0 0000\ncarry 255\ncarry 3 72 8000\ntick 1 25\ncarry 1\ncarry 1\ncommand 1 FF\ncommand 0 61\nce 1 0\ncommand 1 A0 02\ncommand 1 A0 03\ncommand 1 E1\n";
        let expected: &[u8] =
            b"1: ok\n2: ok\n3: ok 0E\n4: ok 0E\n5: ok 0E\n6: ok\n7: ok\n8: ok\n9: ok\n10: ok 0E\n11: ok 200\n12: ok\n13: ok 13\n14: ok 0E\n15: ok 200\n16: ok\n17: ok 0E\n18: ok 14 frame 73 AA E7 E7 E7 E7 E7 05 00 CA 00\n19: refused cell 0 15 (the air holds a frame)\n20: refused cell 0 17 (the fate is not allowed)\n21: refused cell 0 17 (the fate is not allowed)\n22: refused cell 0 17 (the fate is not allowed)\n23: refused cell 0 17 (the fate is not allowed)\n24: ok\n25: ok 25 frame 73 AA E7 E7 E7 E7 E7 05 00 CA 00\n26: ok frame 65 AA E7 E7 E7 E7 E7 01 32 00\n27: ok\n28: ok 2E\n29: ok 40 01\n30: ok\n31: ok 2E\n32: ok 2E\n33: ok 2E\n";
        gives(&rt, heap, script, expected, 0);
        let mut console = Console::new();
        let mut out: Vec<u8> = Vec::new(heap);
        assert!(rt; feed(&mut console, heap, script, &mut out).is_ok());
        let summary = format!(in heap; "{}", console.summary());
        assert!(rt;
            summary.is_ok_and(|text| text.as_str()
                == "     sender 1: 3 written, 1 sent, 0 given up, 2 flushed, 0 still waiting\n     read on pipes 0 to 5: 1 0 0 0 0 0\n")
        );
    }
}
