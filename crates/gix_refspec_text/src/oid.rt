//! The ids of Git objects: read from hexadecimal digits, compared by their bytes, printed again.

ghost use Rattle.std.specs.Prelude.{◌≡◌, length, nat_eq, refl, replicate, Some, IfSome, IfNone, MatchBool, MatchResult};
ghost use Rattle.std.specs.List.{list_all};
ghost use Rattle.std.specs.Ordering.{nat_cmp};
ghost use Rattle.std.specs.Hash as fed;
ghost use Rattle.std.specs.Cmp.Lexicographic.{pointwise, slice_cmp, nat_list_eq_equiv, nat_list_cmp_total, texts_ties, texts_po};
ghost use Rattle.std.specs.Cmp.{partial_equiv_from_equiv, on_per, on_equiv, on_po, on_total};
ghost use Rattle.std.specs.Cmp.Rules.{hashing};
ghost use Rattle.std.proofs.Common.{rules};
ghost use Rattle.hex.specs.Hex.{is_hex_digit};
ghost use Rattle.gix_refspec_text.specs.Matching.Side.{IsId};
ghost use Rattle.gix_refspec_text.specs.Specs.Explained.{id_explained};
ghost use Rattle.gix_refspec_text.specs.Texts.ObjectId.{HasIdFault, IsIdLength, IsIdText, bytes_of, digits_of, fault_name, lower_of};

use std::cmp::Ordering;
use std::hash::{Hash, Hasher};
use std::{error, fmt};

/// Why a text is not an object id.
#[derive(Clone, Copy, Debug, PartialEq, Eq)]
pub enum Error {
    /// The text has neither 40 bytes, as for SHA-1, nor 64, as for SHA-256.
    Length {
        /// How many bytes the text has.
        len: usize,
    },
    /// The text is as long as an id, but some byte of it is not a hexadecimal digit.
    Digit,
}

impl fmt::Display for Error {
    ghost output = { λ e. Some (fault_name e) };

    fn fmt<W: fmt::Write>(&self, f: &mut fmt::Formatter<W>) -> fmt::Result {
        f.write_str(match self {
            Error::Length { .. } => "Length",
            Error::Digit => "Digit",
        })
    }
}

impl error::Error for Error {}

impl Error {
    /// What is wrong with the id, in one sentence for a user of Git.
    pub fn explanation(&self) -> &'static str
        ensures { result.now ≡ id_explained self.now }
    {
        match self {
            Error::Length { .. } => "An object id has 40 or 64 hexadecimal digits.",
            Error::Digit => "An object id has no characters but 0 to 9, a to f and A to F.",
        }
    }
}

/// The hash function of an id, as `git init --object-format` selects it for a repository.
#[derive(Clone, Copy, Debug, PartialEq, Eq)]
pub enum Kind {
    /// SHA-1, with ids of 20 bytes.
    Sha1,
    /// SHA-256, with ids of 32 bytes.
    Sha256,
}

impl Kind {
    ghost use Rattle.gix_refspec_text.specs.declared.oid.Kind.TheVariants.{Sha1};

    /// The kind with the shortest ids.
    pub fn shortest() -> Kind
        ensures { result ≡ Sha1 }
    {
        Self::Sha1
    }

    /// How many hexadecimal digits an id of this kind has as text.
    pub fn len_in_hex(&self) -> usize
        ensures { result ≡ digits_of self.now }
    {
        match self {
            Kind::Sha1 => 40,
            Kind::Sha256 => 64,
        }
    }

    // How many bytes an id of this kind has.
    fn len_in_bytes(self) -> usize
        ensures { result ≡ bytes_of self }
    {
        match self {
            Kind::Sha1 => 20,
            Kind::Sha256 => 32,
        }
    }

    // The kind whose ids have this many digits.
    fn from_hex_len(len: usize) -> Option<Kind>
        ensures some { IfSome result (λ kind. len ≡ digits_of kind) }
        ensures none { IfNone result (¬ (IsIdLength len)) }
    {
        match len {
            40 => Some(Kind::Sha1),
            64 => Some(Kind::Sha256),
            _ => None,
        }
    }
}

/// Whether a text spells an object id: 40 or 64 hexadecimal digits, of either case. Nothing is decoded.
pub fn is_id(text: &[u8]) -> bool
    ensures { MatchBool result (IsId text.now) (¬ (IsId text.now)) }
{
    match text.len() {
        40 | 64 => are_digits(text),
        _ => false,
    }
}

// Whether all bytes of a text are hexadecimal digits. There is no early end, so that the loop runs over many bytes at once.
#[inline(always)]
fn are_digits(text: &[u8]) -> bool
    ensures { result ≡ list_all is_hex_digit text.now }
{
    let mut all = true;
    for byte in text {
        all &= is_digit(*byte);
    }
    all
}

fn is_digit(byte: u8) -> bool
    ensures { result ≡ is_hex_digit byte }
{
    matches!(byte, b'A'..=b'F' | b'a'..=b'f' | b'0'..=b'9')
}

/// The id of a Git object, called its object name in gitglossary(7). As text it has two hexadecimal
/// digits for each byte.
///
/// Ids are compared, ordered and hashed by their bytes alone: 64 digits `0` are less than 40 digits `1`.
#[derive(Clone, Copy)]
pub struct ObjectId {
    kind: Kind,
    // The bytes of the id; a SHA-1 is padded with zeros.
    buffer: [u8; 32],
}

impl ObjectId {
    ghost use Rattle.gix_refspec_text.specs.Texts.ObjectId.{id_bytes};

    /// Reads an id from its hexadecimal digits, in either case.
    ///
    /// Fails with `Error::Length` if the text has neither 40 nor 64 bytes, whatever they are, otherwise
    /// with `Error::Digit` if some byte is not a hexadecimal digit.
    pub fn from_hex(hex: &[u8]) -> Result<ObjectId, Error>
        ensures { MatchResult result
            (λ id. IsIdText hex.now (id_bytes id))
            (λ e. HasIdFault hex.now e) }
    {
        let Some(kind) = Kind::from_hex_len(hex.len()) else {
            return Err(Error::Length { len: hex.len() });
        };
        let mut buffer = [0; 32];
        if hex::decode_to_slice(hex, &mut buffer[..kind.len_in_bytes()]).is_err() {
            return Err(Error::Digit);
        }
        Ok(ObjectId { kind, buffer })
    }

    /// The null id, whose bytes are all 0. Git uses it to say that there is no object.
    pub fn null(kind: Kind) -> ObjectId
        ensures { id_bytes result ≡ replicate (bytes_of kind) 0 }
    {
        ObjectId {
            kind,
            buffer: [0; 32],
        }
    }

    /// The hash function of the id, given by its length.
    pub fn kind(&self) -> Kind
        ensures { length (id_bytes self.now) ≡ bytes_of result }
    {
        self.kind
    }

    /// The 20 or 32 bytes of the id, borrowed from it.
    pub fn as_slice(&self) -> &[u8]
        ensures { result.now ≡ id_bytes self.now }
    {
        &self.buffer[..self.kind.len_in_bytes()]
    }
}

impl fmt::Display for ObjectId {
    ghost use Rattle.gix_refspec_text.specs.Texts.ObjectId.{id_bytes};

    ghost output = { λ id. Some (lower_of (id_bytes id)) };

    fn fmt<W: fmt::Write>(&self, f: &mut fmt::Formatter<W>) -> fmt::Result {
        // The buffer is exactly as long as the digits, and digits are ASCII: neither call fails.
        let mut buffer = [0; 64];
        let digits = &mut buffer[..self.kind.len_in_hex()];
        hex::encode_to_slice(self.as_slice(), digits).unwrap();
        f.write_str(str::from_utf8(digits).unwrap())
    }
}

impl fmt::Debug for ObjectId {
    fn fmt<W: fmt::Write>(&self, f: &mut fmt::Formatter<W>) -> fmt::Result {
        write!(f, "{:?}({self})", self.kind)
    }
}

impl PartialEq for ObjectId {
    ghost use Rattle.gix_refspec_text.specs.Texts.ObjectId.{id_bytes};

    ghost eq = { λ x y. pointwise nat_eq (id_bytes x) (id_bytes y) };

    ghost laws = { on_per id_bytes (partial_equiv_from_equiv nat_list_eq_equiv) };

    fn eq(&self, other: &ObjectId) -> bool {
        self.as_slice() == other.as_slice()
    }
}

impl Eq for ObjectId {
    ghost use Rattle.gix_refspec_text.specs.Texts.ObjectId.{id_bytes};

    ghost laws = { on_equiv id_bytes nat_list_eq_equiv };
}

impl PartialOrd for ObjectId {
    ghost use Rattle.gix_refspec_text.specs.Texts.ObjectId.{id_bytes};

    ghost partial_cmp = { λ x y. Some (slice_cmp nat_cmp (id_bytes x) (id_bytes y)) };

    ghost laws = { on_po id_bytes texts_po };

    fn partial_cmp(&self, other: &ObjectId) -> Option<Ordering> {
        Some(self.cmp(other))
    }
}

impl Ord for ObjectId {
    ghost use Rattle.gix_refspec_text.specs.Texts.ObjectId.{id_bytes};

    ghost cmp = { λ x y. slice_cmp nat_cmp (id_bytes x) (id_bytes y) };

    ghost total = { on_total id_bytes nat_list_cmp_total };

    ghost matches_partial_cmp = { λ x y. refl };

    ghost matches_eq = { λ x y. texts_ties (id_bytes x) (id_bytes y) };

    fn cmp(&self, other: &ObjectId) -> Ordering {
        self.as_slice().cmp(other.as_slice())
    }
}

impl Hash for ObjectId {
    ghost use Rattle.gix_refspec_text.specs.Texts.ObjectId.{id_bytes};

    ghost hash_input = { λ id. fed.slice fed.u8 (id_bytes id) };

    ghost respects_eq = { Prim.search (hashing, rules) };

    fn hash<H: Hasher>(&self, state: &mut H) {
        self.as_slice().hash(state);
    }
}
