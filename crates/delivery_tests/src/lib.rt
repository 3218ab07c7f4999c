// A cell made of bench units, and a list of calls replayed on it.
#![tactic(auto)]

#[cfg(test)]
mod tests {
    use bench::Bench;
    use cell::{Cell, Unmade};
    use checks::{Check, Crc8};
    use delivery::{Call, Entry, Outcome, replay};
    use std::alloc::AllocError;
    use std::process::Abort;
    use unit::Boxed;

    fn boxed<C: Check>(rt: &impl Abort, commands: &[&[u8]]) -> Boxed<C> {
        let mut bench = Bench::new();
        for command in commands {
            let mut reply = [0; 1];
            assert!(rt; bench.command(command, &mut reply).is_ok());
        }
        Boxed::new(bench)
    }

    // A receiver with pipe 0 alone, for payloads of one byte.
    fn receiver<C: Check>(rt: &impl Abort) -> Boxed<C> {
        boxed(rt, &[&[0x20, 0x09], &[0x22, 0x01], &[0x31, 0x01]])
    }

    fn sender<C: Check>(rt: &impl Abort) -> Boxed<C> {
        boxed(rt, &[])
    }

    // Refused with 13 at that unit, and all the units are back.
    fn is_refused(made: Result<Cell<Crc8>, Unmade<Crc8>>, unit: u8, count: usize) -> bool {
        match made {
            Ok(_) => false,
            Err(unmade) => {
                unmade.refusal.cause.number() == 13
                    && unmade.refusal.unit == unit
                    && unmade.units.len() == count
            }
        }
    }

    #[test]
    fn the_lowest_unit_at_fault(rt: HostRuntime) -> Result<(), AllocError> {
        let alloc = rt.alloc();
        assert!(rt; is_refused(Cell::make(vec![in alloc]?), 0, 0));
        assert!(rt; is_refused(Cell::make(vec![in alloc; receiver(&rt)]?), 1, 1));
        assert!(rt; is_refused(Cell::make(vec![in alloc; sender(&rt), sender(&rt)]?), 0, 2));
        assert!(rt;
            is_refused(
                Cell::make(vec![in alloc; receiver(&rt), receiver(&rt)]?),
                1,
                2
            )
        );
        assert!(rt;
            is_refused(
                Cell::make(vec![in alloc; receiver(&rt), sender(&rt), sender(&rt)]?),
                2,
                3
            )
        );
        Ok(())
    }

    fn add<'a>(
        entries: &mut Vec<Entry<'a>>,
        call: Call<'a>,
        times: usize,
    ) -> Result<(), AllocError> {
        for _ in 0..times {
            entries.push(Entry::new(call))?;
        }
        Ok(())
    }

    // The unit is powered up, its CE raised, and it is tuned.
    fn power(
        entries: &mut Vec<Entry<'static>>,
        unit: u8,
        host: &'static [u8],
    ) -> Result<(), AllocError> {
        add(
            entries,
            Call::Command {
                unit,
                host,
                room: 1,
            },
            1,
        )?;
        add(entries, Call::Tick { unit }, 200)?;
        add(entries, Call::Ce { unit, high: true }, 1)
    }

    fn is_reply(entry: &Entry<'_>, wanted: &[u8]) -> bool {
        match entry.outcome {
            Some(Outcome::Replied(reply)) => reply.bytes() == wanted,
            _ => false,
        }
    }

    #[test]
    fn a_payload_is_delivered(rt: HostRuntime) -> Result<(), AllocError> {
        let alloc = rt.alloc();
        let mut entries = vec![in alloc]?;
        power(&mut entries, 0, &[0x20, 0x0B])?;
        add(&mut entries, Call::Tick { unit: 0 }, 13)?;
        power(&mut entries, 1, &[0x20, 0x0A])?;
        add(
            &mut entries,
            Call::Command {
                unit: 1,
                host: &[0xA0, 0x5A],
                room: 1,
            },
            1,
        )?;
        add(&mut entries, Call::Tick { unit: 1 }, 14)?;
        add(
            &mut entries,
            Call::Carry {
                fate: 1,
                start: 0,
                pattern: 0,
            },
            2,
        )?;
        add(
            &mut entries,
            Call::Command {
                unit: 0,
                host: &[0x61],
                room: 255,
            },
            2,
        )?;
        let units = vec![in alloc; receiver::<Crc8>(&rt), sender(&rt)]?;
        match Cell::make(units) {
            Ok(mut cell) => {
                replay(&mut cell, &mut entries);
                let count = entries.len();
                assert!(rt; count > 4);
                assert!(rt; is_reply(&entries[count - 2], &[0x40, 0x5A]));
                assert!(rt; matches!(entries[count - 1].outcome, Some(Outcome::Refused(_))));
            }
            Err(_) => assert!(rt; false),
        }
        Ok(())
    }
}
