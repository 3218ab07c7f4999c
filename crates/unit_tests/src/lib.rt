// Boxed units against answers that an independent model gave.
#![tactic(auto)]

pub mod table;

#[cfg(test)]
mod tests {
    use crate::table::*;
    use bench::Bench;
    use checks::{Check, Crc8, Crc16};
    use commands::Refusal;
    use registers::Register;
    use std::process::Abort;
    use unit::Boxed;

    fn is_refused(refusal: Refusal, number: u8, register: Option<u8>) -> bool {
        refusal.number() == number && refusal.register().map(Register::address) == register
    }

    // The bytes wanted, and behind them what was in the buffer.
    fn begins(buffer: &[u8], wanted: &[u8]) -> bool {
        buffer
            .strip_prefix(wanted)
            .is_some_and(|rest| rest.iter().all(|b| *b == 0xA5))
    }

    fn is_answered(res: Result<usize, Refusal>, buffer: &[u8], answer: Answer) -> bool {
        match (res, answer) {
            (Ok(count), Answer::Gives(wanted, bytes)) => count == wanted && begins(buffer, bytes),
            (Err(refusal), Answer::Refuses(number, register)) => is_refused(
                refusal, number, register,
            ) && begins(buffer, &[]),
            _ => false,
        }
    }

    // Whether a test holds of a call with a buffer of that room.
    fn in_buffer<F: FnOnce(&mut [u8]) -> bool>(room: usize, test: F) -> bool
        requires { F.IsAlwaysCallable test }
    {
        let mut buffer = [0xA5; 48];
        test(&mut buffer[..room.min(48)])
    }

    fn command<C: Check>(unit: &mut Boxed<C>, bytes: &[u8], room: usize, answer: Answer) -> bool {
        in_buffer(room, |part| {
            is_answered(unit.command(bytes, part), part, answer)
        })
    }

    fn tick<C: Check>(unit: &mut Boxed<C>, room: usize, answer: Answer) -> bool {
        in_buffer(room, |part| is_answered(unit.tick(part), part, answer))
    }

    fn ticks<C: Check>(unit: &mut Boxed<C>, times: usize) -> bool {
        (0..times).all(|_| tick(unit, 42, Answer::Gives(0, &[])))
    }

    fn hear<C: Check>(
        unit: &mut Boxed<C>,
        frame: &[u8],
        bits: usize,
        room: usize,
        answer: Answer,
    ) -> bool {
        in_buffer(room, |part| {
            is_answered(unit.hear(frame, bits, part), part, answer)
        })
    }

    fn ce<C: Check>(unit: &mut Boxed<C>, high: bool, answer: Answer) -> bool {
        is_answered(unit.ce(high).map(|()| 0), &[], answer)
    }

    fn holds<C: Check>(unit: &mut Boxed<C>, step: Step) -> bool {
        match step {
            Step::Load(_) => false,
            Step::Command(bytes, room, answer) => command(unit, bytes, room, answer),
            Step::Ce(high, answer) => ce(unit, high, answer),
            Step::Tick(room, answer) => tick(unit, room, answer),
            Step::Ticks(times) => ticks(unit, times),
            Step::Hear(bits, frame, room, answer) => hear(unit, frame, bits, room, answer),
            Step::Irq(low) => unit.irq_is_low() == low,
        }
    }

    fn boxed<C: Check>(rt: &impl Abort, profile: &[u8]) -> Boxed<C> {
        let (bench, loaded) = Bench::new().load(profile);
        assert!(rt; loaded.is_ok());
        Boxed::<C>::new(bench)
    }

    // Step by step; a `Load` begins with a new unit.
    fn run<C: Check>(rt: &impl Abort, steps: &[Step]) {
        let mut unit = Boxed::<C>::new(Bench::new());
        for (i, step) in steps.iter().enumerate() {
            if let Step::Load(profile) = step {
                unit = boxed::<C>(rt, profile);
            } else {
                assert!(rt; holds(&mut unit, *step), "{}", i);
            }
        }
    }

    // The same with either kind of check. Each list of steps is a test of its own below, so that it is named and counted by itself.
    fn both(rt: &impl Abort, narrow: &[Step], wide: &[Step]) {
        run::<Crc8>(rt, narrow);
        run::<Crc16>(rt, wide);
    }

    #[test]
    fn starting(rt: HostRuntime) {
        both(&rt, &STARTING_NARROW, &STARTING_WIDE);
    }

    #[test]
    fn waiting(rt: HostRuntime) {
        both(&rt, &WAITING_NARROW, &WAITING_WIDE);
    }

    #[test]
    fn max_rt(rt: HostRuntime) {
        both(&rt, &MAX_RT_NARROW, &MAX_RT_WIDE);
    }

    #[test]
    fn flush_tx(rt: HostRuntime) {
        both(&rt, &FLUSH_TX_NARROW, &FLUSH_TX_WIDE);
    }

    #[test]
    fn acknowledged(rt: HostRuntime) {
        both(&rt, &ACKNOWLEDGED_NARROW, &ACKNOWLEDGED_WIDE);
    }

    #[test]
    fn identities(rt: HostRuntime) {
        both(&rt, &IDENTITIES_NARROW, &IDENTITIES_WIDE);
    }

    #[test]
    fn power(rt: HostRuntime) {
        both(&rt, &POWER_NARROW, &POWER_WIDE);
    }

    #[test]
    fn refusals_of_sender(rt: HostRuntime) {
        both(&rt, &REFUSALS_OF_SENDER_NARROW, &REFUSALS_OF_SENDER_WIDE);
    }

    #[test]
    fn refusals_of_receiver(rt: HostRuntime) {
        both(
            &rt,
            &REFUSALS_OF_RECEIVER_NARROW,
            &REFUSALS_OF_RECEIVER_WIDE,
        );
    }

    #[test]
    fn faults(rt: HostRuntime) {
        both(&rt, &FAULTS_NARROW, &FAULTS_WIDE);
    }

    #[test]
    fn readout(rt: HostRuntime) {
        both(&rt, &READOUT_NARROW, &READOUT_WIDE);
    }

    #[test]
    fn hearing(rt: HostRuntime) {
        both(&rt, &HEARING_NARROW, &HEARING_WIDE);
    }

    #[test]
    fn repeats(rt: HostRuntime) {
        both(&rt, &REPEATS_NARROW, &REPEATS_WIDE);
    }

    #[test]
    fn memories(rt: HostRuntime) {
        both(&rt, &MEMORIES_NARROW, &MEMORIES_WIDE);
    }

    #[test]
    fn interrupts(rt: HostRuntime) {
        both(&rt, &INTERRUPTS_NARROW, &INTERRUPTS_WIDE);
    }

    #[test]
    fn ce_of_sender(rt: HostRuntime) {
        both(&rt, &CE_OF_SENDER_NARROW, &CE_OF_SENDER_WIDE);
    }

    #[test]
    fn ce_of_receiver(rt: HostRuntime) {
        both(&rt, &CE_OF_RECEIVER_NARROW, &CE_OF_RECEIVER_WIDE);
    }

    #[test]
    fn lost(rt: HostRuntime) {
        run::<Crc16>(&rt, &LOST_WIDE);
    }

    #[test]
    fn most_retransmits(rt: HostRuntime) {
        run::<Crc16>(&rt, &MOST_RETRANSMITS_WIDE);
    }

    #[test]
    fn longest_wait(rt: HostRuntime) {
        run::<Crc16>(&rt, &LONGEST_WAIT_WIDE);
    }
}
