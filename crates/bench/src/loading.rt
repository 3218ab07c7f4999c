// Loading a profile.
ghost use Rattle.std.specs.Prelude.{◌≡◌, not};
ghost use Rattle.std.specs.Option.{option_map};
ghost use Rattle.registers.specs.Address.{registers};
ghost use Rattle.commands.specs.declared.refusal.Refusal.TheVariants.{NotAllowed};
ghost use Rattle.commands.specs.Refusals.{first_of, unless};
ghost use Rattle.profile.specs.Reading.{bytes_of};
ghost use Rattle.bench.specs.Loading.{field, refuses, field_refusals, load_refusal, with_field, fields_written, load_after, Fills, FillsAll, Loaded};

use crate::unit::Bench;
use commands::Refusal;
use profile::Profile;
use registers::Register;

// The two that only ask are functions of a profile, which is another crate's type and can get no methods here.

// Whether the register takes the field that the profile has for it, if there is one.
fn takes_field(register: Register, profile: &Profile) -> bool
    ensures { result ≡ not (refuses register (field (bytes_of profile.now) register)) }
{
    profile
        .field(register)
        .is_none_or(|value| register.allows(value))
}

// The lowest register that does not take its field.
fn refused_field(profile: &Profile) -> Option<Register>
    ensures { option_map (λ r. NotAllowed r) result ≡ first_of (field_refusals (bytes_of profile.now) registers) }
{
    Register::all()
        .into_iter()
        .find(|register| !takes_field(*register, profile))
}

impl Bench {
    // Writes the field that the profile has for the register, if there is one.
    fn write_field(&mut self, register: Register, profile: &Profile)
        ensures after { self.new.registers ≡ with_field self.old.registers register (field (bytes_of profile.now) register) }
        ensures law { Fills self.old.registers register (field (bytes_of profile.now) register) self.new.registers }
    {
        if let Some(value) = profile.field(register) {
            self.registers.write(register, value);
        }
    }

    // Writes all fields, by ascending register.
    fn write_fields(&mut self, profile: &Profile)
        ensures after { self.new.registers ≡ fields_written registers (bytes_of profile.now) self.old.registers }
        ensures law { FillsAll (bytes_of profile.now) self.old.registers self.new.registers }
    {
        for register in Register::all() {
            self.write_field(register, profile);
        }
    }

    // Loads a profile where the unit stands.
    fn load_here(&mut self, profile: &[u8]) -> Result<(), Refusal>
        ensures answer { result ≡ unless (load_refusal profile.now) tt }
        ensures registers { self.new.registers ≡ load_after profile.now self.old.registers }
        ensures law { Loaded profile.now self.old.registers self.new.registers }
    {
        let profile = Profile::read(profile)?;
        if let Some(register) = refused_field(&profile) {
            return Err(Refusal::NotAllowed(register));
        }
        self.write_fields(&profile);
        Ok(())
    }

    // Loads a profile: all of its fields, or none. A rule of the project: loading uses the bench unit up and hands it back beside
    // the answer, so that no one goes on with a unit whose load was refused without taking it back.
    pub fn load(mut self, profile: &[u8]) -> (Bench, Result<(), Refusal>)
        ensures answer { result.1 ≡ unless (load_refusal profile.now) tt }
        ensures registers { result.0.registers ≡ load_after profile.now self.registers }
        ensures law { Loaded profile.now self.registers result.0.registers }
    {
        let answer = self.load_here(profile);
        (self, answer)
    }
}
