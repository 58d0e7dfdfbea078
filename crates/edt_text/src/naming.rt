//! Names of stations, phases and files.
ghost use Rattle.std.specs.Prelude.{◌≡◌, ◌<◌, ◌≤◌, ◌↔◌, [], ℕ, Some, length, position, not, IsTrue, IfOk, IsErrOf};
ghost use Rattle.std.specs.List.{list_all};
ghost use Rattle.text_terms.specs.Names.{is_name, is_name_byte};
ghost use Rattle.text_terms.specs.Names as names;

use std::alloc::{AllocError, Global};
use std::hash::{Hash, Hasher};
use std::marker::Model;
use thiserror::Error;

/// Why bytes are no name, in the order in which the causes are tested.
#[derive(Clone, Copy, Debug, PartialEq, Eq, Error)]
pub enum NameFault {
    /// There are no bytes.
    #[error("an empty name")]
    Empty,
    /// There are more than 512 bytes.
    #[error("a name of more than 512 bytes")]
    Long,
    /// The first byte outside 33 to 126 stands at this place, counted from 0.
    #[error("a byte that no name may hold at place {0}")]
    BadByte(usize),
    /// Memory is wanting.
    #[error("out of memory")]
    Memory,
}

/// A name of 1 to 512 bytes, each from 33 to 126. Contracts see it as its bytes.
#[derive(Drop)]
pub struct Name {
    text: String,
}

impl Model for Name {
    ghost use Rattle.std.specs.Prelude.{ℕ, List, IsTrue, string_bytes};
    ghost use Rattle.text_terms.specs.Names.{is_name};

    ghost Value = { List ℕ };

    ghost view = { λ name. string_bytes name.text };

    ghost invariant = { λ name. IsTrue (is_name 512 (string_bytes name.text)) };
}

impl Name {
    /// The name of these bytes. Refuses no bytes with `Empty`, then more than 512 with `Long`, then with `BadByte` the first byte
    /// outside 33 to 126; and with `Memory` when out of memory.
    pub fn new(alloc: Global, bytes: &[u8]) -> Result<Name, NameFault>
        ensures name { IfOk result (λ name. name ≡ bytes.now) }
        ensures form { IfOk result (λ _. IsTrue (is_name 512 bytes.now)) }
        ensures empty { IsErrOf result NameFault.Empty ↔ (bytes.now ≡ []) }
        ensures long { IsErrOf result NameFault.Long ↔ (512 < length bytes.now) }
        ensures bad_byte { (k : ℕ) → IsErrOf result (NameFault.BadByte k) ↔
            ((length bytes.now ≤ 512) × (position (λ b. not (is_name_byte b)) bytes.now ≡ Some k)) }
        ensures memory { IsErrOf result NameFault.Memory → IsTrue (is_name 512 bytes.now) }
    {
        if bytes.is_empty() {
            return Err(NameFault::Empty);
        }
        if bytes.len() > 512 {
            return Err(NameFault::Long);
        }
        if let Some(place) = bad_place(bytes) {
            return Err(NameFault::BadByte(place));
        }
        Name::of_valid(alloc, bytes).map_err(|_| NameFault::Memory)
    }

    /// The name of bytes that are one, which is refused when out of memory, and for nothing else.
    pub fn of_valid(alloc: Global, bytes: &[u8]) -> Result<Name, AllocError>
        requires form { IsTrue (is_name 512 bytes.now) }
        ensures name { IfOk result (λ name. name ≡ bytes.now) }
    {
        let text = String::from_str(alloc, as_text(bytes))?;
        Ok(Name { text })
    }

    /// The bytes of the name as a text.
    pub fn as_str(&self) -> &str
        ensures text { result.now ≡ self.now }
        ensures form { IsTrue (is_name 512 self.now) }
    {
        self.text.as_str()
    }

    /// A name of the same bytes.
    pub fn copy(&self, alloc: Global) -> Result<Name, AllocError>
        ensures { IfOk result (λ name. name ≡ self.now) }
    {
        let text = String::from_str(alloc, self.text.as_str())?;
        Ok(Name { text })
    }
}

impl PartialEq for Name {
    ghost use Rattle.std.specs.Prelude.{◌==◌};
    ghost use Rattle.std.proofs.Common.{rules};
    ghost use Rattle.std.specs.Cmp.Lexicographic.{pointwise};
    ghost use Rattle.std.specs.Cmp.Rules.{comparing};

    ghost eq = { pointwise ◌==◌ };

    ghost laws = { Prim.search (comparing, rules) };

    fn eq(&self, other: &Name) -> bool {
        self.text.as_bytes() == other.text.as_bytes()
    }
}

impl Eq for Name {
    ghost use Rattle.std.proofs.Common.{rules};
    ghost use Rattle.std.specs.Cmp.Rules.{comparing};

    ghost laws = { Prim.search (comparing, rules) };
}

impl Hash for Name {
    ghost use Rattle.std.proofs.Common.{rules};
    ghost use Rattle.std.specs.Hash as fed;
    ghost use Rattle.std.specs.Cmp.Rules.{comparing, hashing};

    ghost hash_input = { λ name. fed.slice fed.u8 name };

    ghost respects_eq = { Prim.search (hashing, rules) };

    fn hash<H: Hasher>(&self, state: &mut H) {
        self.text.as_bytes().hash(state);
    }
}

/// Whether bytes are a name of at most so many: they are one or more, each from 33 to 126.
pub fn is_name(bytes: &[u8], most: usize) -> bool
    ensures { result ≡ names.is_name most bytes.now }
{
    !bytes.is_empty() && bytes.len() <= most && has_name_bytes(bytes)
}

/// Whether two names are equal tells whether their bytes are.
pub fn are_same(a: &Name, b: &Name) -> bool
    ensures { IsTrue result ↔ (a.now ≡ b.now) }
{
    a == b
}

// The first place of a byte that no name may hold.
fn bad_place(bytes: &[u8]) -> Option<usize>
    ensures { result ≡ position (λ b. not (is_name_byte b)) bytes.now }
{
    bytes.iter().position(|b| *b < 33 || *b > 126)
}

// Whether a name may hold each byte.
fn has_name_bytes(bytes: &[u8]) -> bool
    ensures { result ≡ list_all is_name_byte bytes.now }
{
    bytes.iter().all(|b| (33..=126).contains(b))
}

// The bytes of a name as a text.
fn as_text(bytes: &[u8]) -> &str
    requires { IsTrue (is_name 512 bytes.now) }
    ensures { result.now ≡ bytes.now }
{
    match str::from_utf8(bytes) {
        Ok(text) => text,
        Err(_) => unreachable!(),
    }
}
