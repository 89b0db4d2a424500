//! `Name`: a valid name of a timeline, a file or a buffer, in an array of 32 bytes, so that it is copied, compared and hashed
//! as a whole.
ghost use Rattle.std.specs.Prelude.{◌≡◌, ◌≤◌, ◌+◌, ◌-◌, ◌++◌, ◌↔◌, IsSome, IfSome, length, replicate};
ghost use Rattle.std.specs.List.{list_all};
ghost use Rattle.point_core.specs.Name.{IsName, is_name_byte};

use std::hash::{Hash, Hasher};
use std::marker::Model;

/// The most bytes of a name: the kernel's 32 of a sync file's name, less the terminating NUL.
pub const NAME_BYTES: usize = 31;

const _: () = prove!(NAME_BYTES == 31);

/// A name: 1 to `NAME_BYTES` letters, digits, `_`, `.` or `-`. It owns no memory.
#[derive(Clone, Copy, Debug)]
pub struct Name {
    // the bytes, zeros after them, and the length last
    stored: [u8; NAME_BYTES + 1],
}

impl Model for Name {
    ghost use Rattle.std.specs.Prelude.{◌≡◌, List, ℕ};
    ghost use Rattle.point_core.specs.Name.{IsStored, bytes_of};
    ghost use Rattle.point_core.specs.StoredName.{inside_of, inside_of_stored};

    ghost Value = { List ℕ };

    ghost view = { λ n. bytes_of n.stored };

    ghost invariant = { λ n. IsStored n.stored };

    ghost inverse = { inside_of };

    ghost inverse_ok = { inside_of_stored };
}

impl Name {
    /// The name with these bytes, if they are 1 to `NAME_BYTES` allowed ones.
    pub fn read(bytes: &[u8]) -> Option<Name>
        ensures valid { IsSome result ↔ IsName bytes.now }
        ensures value { IfSome result (λ name. name ≡ bytes.now) }
    {
        if !(1..=NAME_BYTES).contains(&bytes.len()) || !are_allowed(bytes) {
            return None;
        }
        let mut stored = [0; NAME_BYTES + 1];
        stored[..bytes.len()].copy_from_slice(bytes);
        stored[NAME_BYTES] = bytes.len() as u8;
        Some(Name { stored })
    }

    /// Its bytes.
    pub fn as_bytes(&self) -> &[u8]
        ensures value { result.now ≡ self.now }
        ensures name { IsName result.now }
    {
        &self.stored[..usize::from(self.stored[NAME_BYTES])]
    }
}

fn are_allowed(bytes: &[u8]) -> bool
    ensures { result ≡ list_all is_name_byte bytes.now }
{
    bytes.iter().all(|byte| is_allowed(*byte))
}

fn is_allowed(byte: u8) -> bool
    ensures { result ≡ is_name_byte byte }
{
    byte.is_ascii_lowercase()
        || byte.is_ascii_digit()
        || byte.is_ascii_uppercase()
        || matches!(byte, b'_' | b'.' | b'-')
}

impl PartialEq for Name {
    ghost use Rattle.std.specs.Prelude.{nat_eq};
    ghost use lib.Pointwise.{pointwise};
    ghost use Rattle.std.specs.Cmp.{partial_equiv_from_equiv};
    ghost use Rattle.std.specs.Cmp.Lexicographic.{nat_list_eq_equiv};

    ghost eq = { pointwise nat_eq };

    ghost laws = { partial_equiv_from_equiv nat_list_eq_equiv };

    #[inline(always)]
    fn eq(&self, other: &Name) -> bool {
        self.stored == other.stored
    }
}

impl Eq for Name {
    ghost use Rattle.std.specs.Cmp.Lexicographic.{nat_list_eq_equiv};

    ghost laws = { nat_list_eq_equiv };
}

impl Hash for Name {
    ghost use Rattle.std.specs.Prelude.{[], ◌∷◌};
    ghost use Rattle.std.proofs.Common.{ap, sym};
    ghost use Rattle.std.specs.Cmp.Lexicographic.{same_text};
    ghost use Rattle.point_core.specs.Name.{stored_of};

    ghost hash_input = { λ name. stored_of name ∷ [] };

    ghost respects_eq = { λ x y same. ap (λ name. stored_of name ∷ []) (same_text x y (sym same)) };

    #[inline(always)]
    fn hash<H: Hasher>(&self, state: &mut H) {
        state.write(&self.stored);
    }
}
