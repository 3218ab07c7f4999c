// Making entries.
ghost use Rattle.std.specs.Prelude.{◌≡◌, ◌<◌, ◌≤◌, length, MatchOption};
ghost use Rattle.frames.specs.Calls.{payload_bytes, payload_of};
ghost use Rattle.unit.specs.Entries.{data_bytes, entry_of};

use crate::entry::Data;
use frames::Payload;

impl Data {
    // The bytes given, of which there are 1 to 32. No TryFrom: an error would say no more than None does.
    pub fn new(given: &[u8]) -> Option<Data>
        ensures whole { result ≡ entry_of given.now }
        ensures bytes { MatchOption result ((1 ≤ length given.now → length given.now ≤ 32 → ⊥)) (λ d. data_bytes d ≡ given.now) }
    {
        Data::of(Payload::new(given)?)
    }

    // An entry of the payload as it is, which has zeros behind its bytes; there is none of an empty one.
    pub(crate) fn of(payload: Payload) -> Option<Data>
        requires { payload ≡ payload_of (payload_bytes payload) }
        ensures { result ≡ entry_of (payload_bytes payload) }
    {
        if payload.bytes().is_empty() {
            return None;
        }
        Some(Data { payload })
    }
}
