ghost use Rattle.std.specs.Prelude.{◌≡◌, true};
ghost use Rattle.profile.specs.Profile.{map_of, sound};

use crate::map::Map;

// A profile whose map and length are right: the map names only registers that may be named, and behind it are just their fields.
#[derive(Clone, Copy)]
pub struct Profile<'a> {
    pub(crate) bytes: &'a [u8],
    pub(crate) map: Map,
    ghost sound: { sound bytes.now ≡ true },
    ghost first: { map.0 ≡ map_of bytes.now },
}
