// What a line does to a unit, or what the unit lacks.
ghost use Rattle.std.specs.Prelude.{◌≡◌, Some, Ok, Err, MatchResult};
ghost use Rattle.std.specs.Borrow.{sem};
ghost use Rattle.commands.specs.Decode.{ordered};
ghost use Rattle.bench.specs.Commands.{registers_after};
ghost use Rattle.desk.specs.Lending.{on_bench, LendsBench};
ghost use Rattle.desk.specs.Answers.{said_of, Says, result_said, bench_reply};
ghost use Rattle.desk.specs.Slots.{loaded, load_said, check_said, in_box, box_said, hearing, hear_said, commanded, command_said, leveled, ce_said, irq_said, ticked, tick_said};

use crate::answer::{UnitAnswer, UnitResult};
use crate::boxed;
use crate::slot::AnyUnit;
use bench::Bench;
use checks::Check;
use commands::Refusal;
use requests::{Lack, Times};
use std::mem::replace;
use unit::Boxed;

// A host command on a bench unit, with so many bytes for the reply.
fn command_bench(unit: &mut Bench, room: u8, bytes: &[u8]) -> UnitResult
    ensures after { unit.new.registers ≡ registers_after unit.old.registers room (ordered bytes.now) }
    ensures answer { said_of result ≡ bench_reply unit.old.registers room bytes.now }
{
    let mut buffer = [0; 255];
    let length = unit.command(bytes, &mut buffer[..usize::from(room)])?;
    Ok(UnitAnswer::Reply { length, buffer })
}

// What a unit gives where it only carries out or refuses.
fn done(carried: Result<(), Refusal>) -> UnitResult
    ensures { said_of result ≡ result_said carried }
{
    carried?;
    Ok(UnitAnswer::Done)
}

impl<C: Check> AnyUnit<C> {
    // The unit, while it is on the bench; lent for a change, so `check`, which only reads, has a match of its own.
    fn bench(&mut self) -> Result<&mut Bench, Lack>
        ensures* writes_back { sem 𝓛 (LendsBench C.row self.entry result) }
        ensures value { MatchResult result (λ x. on_bench self.old ≡ Ok x.now) (λ e. on_bench self.old ≡ Err e) }
    {
        match self {
            AnyUnit::Bench(unit) => Ok(unit),
            AnyUnit::Boxed(_) => Err(Lack::IsBoxed),
        }
    }

    // Loading uses the bench unit up and gives it back, so a new one stands in its place meanwhile.
    pub(crate) fn load(&mut self, profile: &[u8]) -> Result<UnitResult, Lack>
        ensures after { Some self.new ≡ loaded profile.now (Some self.old) }
        ensures answer { Says result (load_said profile.now (Some self.old)) }
    {
        let unit = self.bench()?;
        let (loaded, result) = replace(unit, Bench::new()).load(profile);
        *unit = loaded;
        Ok(done(result))
    }

    pub(crate) fn check(&self) -> Result<UnitResult, Lack>
        ensures { Says result (check_said C.Check.W (Some self.now)) }
    {
        match self {
            AnyUnit::Bench(unit) => Ok(done(unit.check::<C>())),
            AnyUnit::Boxed(_) => Err(Lack::IsBoxed),
        }
    }

    // Closes the box for good.
    pub(crate) fn close(&mut self) -> Result<UnitResult, Lack>
        ensures after { Some self.new ≡ in_box C.Check.W (Some self.old) }
        ensures answer { Says result (box_said (Some self.old)) }
    {
        let unit = replace(self.bench()?, Bench::new());
        *self = AnyUnit::Boxed(Boxed::new(unit));
        Ok(Ok(UnitAnswer::Done))
    }

    pub(crate) fn hear(&mut self, bits: u16, bytes: &[u8]) -> Result<UnitResult, Lack>
        ensures after { Some self.new ≡ hearing C.Check.W C.meaning bits bytes.now (Some self.old) }
        ensures answer { Says result (hear_said C.Check.W C.meaning bits bytes.now (Some self.old)) }
    {
        match self {
            AnyUnit::Bench(_) => Err(Lack::OnBench),
            AnyUnit::Boxed(unit) => Ok(boxed::hear(unit, bits, bytes)),
        }
    }

    pub(crate) fn command(&mut self, room: u8, bytes: &[u8]) -> Result<UnitResult, Lack>
        ensures after { Some self.new ≡ commanded room bytes.now (Some self.old) }
        ensures answer { Says result (command_said room bytes.now (Some self.old)) }
    {
        match self {
            AnyUnit::Bench(unit) => Ok(command_bench(unit, room, bytes)),
            AnyUnit::Boxed(unit) => Ok(boxed::command(unit, room, bytes)),
        }
    }

    pub(crate) fn ce(&mut self, high: bool) -> Result<UnitResult, Lack>
        ensures after { Some self.new ≡ leveled high (Some self.old) }
        ensures answer { Says result (ce_said (Some self.old)) }
    {
        match self {
            AnyUnit::Bench(_) => Err(Lack::OnBench),
            AnyUnit::Boxed(unit) => Ok(done(unit.ce(high))),
        }
    }

    pub(crate) fn irq(&self) -> Result<UnitResult, Lack>
        ensures { Says result (irq_said (Some self.now)) }
    {
        match self {
            AnyUnit::Bench(_) => Err(Lack::OnBench),
            AnyUnit::Boxed(unit) => Ok(Ok(UnitAnswer::Pin {
                is_low: unit.irq_is_low(),
            })),
        }
    }

    pub(crate) fn tick(&mut self, times: Times) -> Result<UnitResult, Lack>
        ensures after { Some self.new ≡ ticked C.Check.W C.meaning times.count (Some self.old) }
        ensures answer { Says result (tick_said C.Check.W C.meaning times.count (Some self.old)) }
    {
        match self {
            AnyUnit::Bench(_) => Err(Lack::OnBench),
            AnyUnit::Boxed(unit) => Ok(boxed::tick(unit, times)),
        }
    }
}
