// A profile, and the fields in it.
ghost use Rattle.std.specs.Prelude.{◌≡◌};
ghost use Rattle.std.specs.Option.{option_map};
ghost use Rattle.registers.specs.Address.{address_of};
ghost use Rattle.profile.specs.Profile.{map_of, named_below, if_sound, field_of, lent};
ghost use Rattle.profile.specs.Reading.{bytes_of, Reads};

use crate::map::Map;
use crate::reading::Profile;
use commands::Refusal;
use registers::Register;

impl<'a> Profile<'a> {
    // The profile that the bytes are.
    pub fn read(bytes: &'a [u8]) -> Result<Profile<'a>, Refusal>
        ensures { Reads bytes.now result }
    {
        let first = bytes.first_chunk().ok_or(Refusal::Profile)?;
        let map = Map(u32::from_be_bytes(*first));
        if map.is_allowed() && bytes.len() == map.place(24) {
            Ok(Profile { bytes, map })
        } else {
            Err(Refusal::Profile)
        }
    }

    // How many registers it names.
    pub fn number_of_fields(&self) -> u32
        ensures { result ≡ named_below (map_of (bytes_of self.now)) 24 }
    {
        self.map.count_below(24)
    }

    // The field of a register, as that part of the profile's own bytes; none where it is not named. No `then`: nothing is proved of a
    // part of the profile that a closure hands on.
    pub fn field(&self, register: Register) -> Option<&'a [u8]>
        ensures { option_map (λ x. x.now) result ≡ field_of (bytes_of self.now) (address_of register) }
    {
        if self.map.names(register) {
            let at = self.map.place(register.address());
            Some(&self.bytes[at..at + register.size()])
        } else {
            None
        }
    }
}

// The calls on a profile's bytes, for those who ask one thing of them and keep no `Profile`.

// How many registers a profile names.
pub fn number_of_fields(profile: &[u8]) -> Result<u32, Refusal>
    ensures { result ≡ if_sound profile.now (named_below (map_of profile.now) 24) }
{
    Ok(Profile::read(profile)?.number_of_fields())
}

// The field of the register at an address, as that part of the profile's own bytes; none where it is not named.
pub fn field(profile: &[u8], register: u8) -> Result<Option<&[u8]>, Refusal>
    ensures { lent result ≡ if_sound profile.now (field_of profile.now register) }
{
    let profile = Profile::read(profile)?;
    // not `and_then`: nothing is proved of a part of the profile that a closure hands on
    let Ok(register) = Register::try_from(register) else {
        return Ok(None);
    };
    Ok(profile.field(register))
}
