// Checks and frames against values that an independent program reckoned.
#![tactic(auto)]

mod table;

pub use table::{CHECKED, Checked, FRAMED, Framed};

#[cfg(test)]
mod tests {
    use super::*;
    use checks::{Check, Crc8, Crc16, Word};
    use frames::{Address, Fields, Heard, Payload, Pid};
    use std::process::Abort;
    use std::test::Fail;

    #[test]
    fn checks_are_those_of_long_division(rt: HostRuntime) {
        for case in CHECKED.iter() {
            assert_eq!(rt; Crc8::of(case.data, case.bits), case.crc8);
            assert_eq!(rt; Crc16::of(case.data, case.bits), case.crc16);
        }
    }

    fn fields_of(case: &Framed) -> Result<Fields, Fail> {
        Ok(Fields {
            address: Address::new(case.address).ok_or("no address has so many bytes")?,
            pid: Pid::try_from(case.pid)?,
            no_ack: case.no_ack,
            payload: Payload::new(case.payload).ok_or("no payload has so many bytes")?,
        })
    }

    // The frame's bytes, and behind them what was in the buffer.
    fn is_packed(case: &Framed, buffer: &[u8]) -> bool {
        buffer
            .strip_prefix(case.frame)
            .is_some_and(|rest| rest.iter().all(|b| *b == 0xA5))
    }

    fn is_heard(case: &Framed, heard: Option<Heard>) -> bool {
        heard.is_some_and(|heard| {
            heard.fields.address.bytes() == case.address
                && heard.fields.pid.number() == case.pid
                && heard.fields.no_ack == case.no_ack
                && heard.fields.payload.bytes() == case.payload
        })
    }

    fn frames_of<C: Check>(rt: &impl Abort) -> Result<(), Fail> {
        for case in FRAMED.iter().filter(|case| usize::from(case.wide) == C::W) {
            let fields = fields_of(case)?;
            let mut buffer = [0xA5; 48];
            let bits = frames::pack::<C>(&fields, &mut buffer)?;
            assert_eq!(rt; bits, case.bits);
            assert!(rt; is_packed(case, &buffer));
            let heard = frames::read::<C>(&buffer, bits, fields.address.width())?;
            assert!(rt; is_heard(case, heard));
            frames::change(&mut buffer, bits, case.start, case.pattern);
            let damaged = frames::read::<C>(&buffer, bits, fields.address.width())?;
            assert!(rt; damaged.is_none());
        }
        Ok(())
    }

    // a test for each kind of check, so that each is named and counted by itself
    #[test]
    fn frames_of_8_bit_checks(rt: HostRuntime) -> Result<(), Fail> {
        frames_of::<Crc8>(&rt)
    }

    #[test]
    fn frames_of_16_bit_checks(rt: HostRuntime) -> Result<(), Fail> {
        frames_of::<Crc16>(&rt)
    }

    #[test]
    fn refused(rt: HostRuntime) -> Result<(), Fail> {
        let fields = fields_of(&FRAMED[0])?;
        let mut short = [0xA5; 41];
        assert!(rt; frames::pack::<Crc8>(&fields, &mut short).is_err());
        assert!(rt; short == [0xA5; 41]);
        assert!(rt; frames::read::<Crc8>(&short, 329, fields.address.width()).is_err());
        Ok(())
    }
}
