// The bytes of a field, apart from the profile.
ghost use Rattle.std.specs.Prelude.{◌≤◌};

// What a profile has for a register: at most five bytes, as the widest registers have, at the front of `held`. A copy in fixed memory,
// so that an answer outlives its line and asks for no memory. No ArrayVec of the library: it is not Copy.
#[derive(Clone, Copy, Debug)]
pub struct FieldBytes {
    held: [u8; 5],
    len: usize,
    ghost fits: { len ≤ 5 },
}

impl FieldBytes {
    ghost use Rattle.std.specs.Prelude.{◌≡◌, length};
    ghost use Rattle.results.specs.Field.{field_bytes};

    pub(crate) fn new(field: &[u8]) -> FieldBytes
        requires { length field.now ≤ 5 }
        ensures { field_bytes result ≡ field.now }
    {
        let len = field.len();
        let mut held = [0; 5];
        held[0..len].copy_from_slice(field);
        FieldBytes { held, len }
    }

    pub fn bytes(&self) -> &[u8]
        ensures { result.now ≡ field_bytes self.now }
    {
        &self.held[0..self.len]
    }
}

// Two are equal by their bytes in use, whatever stands behind them.
impl PartialEq for FieldBytes {
    ghost use Rattle.std.specs.Str.{bytes_eq};
    ghost use Rattle.std.specs.Cmp.{on_per, partial_equiv_from_equiv};
    ghost use Rattle.std.specs.Cmp.Lexicographic.{nat_list_eq_equiv};
    ghost use Rattle.results.specs.Field.{field_bytes};

    ghost eq = { λ a b. bytes_eq (field_bytes a) (field_bytes b) };

    ghost laws = { on_per field_bytes (partial_equiv_from_equiv nat_list_eq_equiv) };

    fn eq(&self, other: &FieldBytes) -> bool {
        self.bytes() == other.bytes()
    }
}

impl Eq for FieldBytes {
    ghost use Rattle.std.specs.Cmp.{on_equiv};
    ghost use Rattle.std.specs.Cmp.Lexicographic.{nat_list_eq_equiv};
    ghost use Rattle.results.specs.Field.{field_bytes};

    ghost laws = { on_equiv field_bytes nat_list_eq_equiv };
}
