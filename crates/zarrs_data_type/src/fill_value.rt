//! Fill values.
ghost use Rattle.std.specs.Prelude.{◌≡◌, [], ◌∷◌, ◌++◌, IsTrue};
ghost use Rattle.std.specs.Bool.{nat_eq};
ghost use Rattle.std.specs.Cmp.Lexicographic.{pointwise};
ghost use Rattle.std.specs.Cmp.Rules.{comparing};
ghost use Rattle.std.proofs.Common.{rules};
ghost use Rattle.zarrs_chunk.specs.Answer.{Answers, memory};
ghost use Rattle.zarrs_data_type.specs.FillValue.{fill_fits};
ghost use Rattle.zarrs_data_type.specs.Element.{IsElement, fill_element};

use crate::data_type::DataType;
use std::alloc::Global;
use std::marker::Model;
use zarrs_chunk::CodecError;

/// The bytes of the element that stands where nothing is stored.
///
/// Of a fixed type they are one element, each component with its lowest byte first; of a variable
/// type any bytes; of an optional type either the byte 0 (absent) or bytes that fit the type
/// inside, followed by the byte 1 (present), as in the Rust crate zarrs.
#[derive(Debug, Drop)]
pub struct FillValue {
    bytes: Vec<u8>,
}

impl Model for FillValue {
    ghost use Rattle.std.specs.Prelude.{List, ℕ};

    ghost Value = { List ℕ };

    ghost view = { λ fill. fill.bytes.items };
}

impl FillValue {
    /// The fill value of these bytes, whether or not they fit a type.
    pub fn new(bytes: Vec<u8>) -> FillValue
        ensures made { result ≡ bytes.items }
    {
        FillValue { bytes }
    }

    /// The absent fill value of an optional type. Errors: `OutOfMemory`.
    pub fn new_optional_null(alloc: Global) -> Result<FillValue, CodecError>
        ensures answer { Answers memory (λ fill. fill) result (Ok (0 ∷ [])) }
    {
        Ok(FillValue::new(vec![in alloc; 0u8; 1]?))
    }

    /// The fill value as a present one of the optional type round its own. Errors: `OutOfMemory`.
    pub fn into_optional(self) -> Result<FillValue, CodecError>
        ensures answer { Answers memory (λ fill. fill) result (Ok (self ++ 1 ∷ [])) }
    {
        let mut bytes = self.bytes;
        bytes.push(1)?;
        Ok(FillValue::new(bytes))
    }

    /// The bytes, those of a component lowest first.
    pub fn as_ne_bytes(&self) -> &[u8]
        ensures value { result.now ≡ self.now }
    {
        self.bytes.as_slice()
    }

    /// Whether the bytes are a fill value of this type.
    pub fn fits(&self, data_type: &DataType) -> bool
        ensures value { result ≡ fill_fits data_type.now self.now }
        ensures element { IsTrue result
            → IsElement data_type.now (fill_element data_type.now self.now) }
    {
        data_type.accepts(self.as_ne_bytes())
    }

    /// An equal fill value. Errors: `OutOfMemory`.
    pub fn clone(&self) -> Result<FillValue, CodecError>
        ensures copy { Answers memory (λ copy. copy) result (Ok self.now) }
    {
        Ok(FillValue::new(self.bytes.clone()?))
    }
}

impl PartialEq for FillValue {
    ghost eq = { λ one other. pointwise nat_eq one other };

    ghost laws = { Prim.search (comparing, rules) };

    fn eq(&self, other: &FillValue) -> bool {
        self.bytes == other.bytes
    }
}

impl Eq for FillValue {
    ghost laws = { Prim.search (comparing, rules) };
}
