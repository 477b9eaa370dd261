//! The types of elements.
ghost use Rattle.std.specs.Prelude.{◌≡◌, ◌<◌, false, true, IfSome, is_some};
ghost use Rattle.std.specs.Option.{option_map};
ghost use Rattle.std.specs.Cmp.{partial_equiv_from_equiv};
ghost use Rattle.zarrs_chunk.specs.Answer.{Answers, memory};
ghost use Rattle.zarrs_data_type.specs.ElementType.{fixed, text, bytes, optional, IsFixedType, fixed_size_of, components_of, components_type, inner_of, is_variable};
ghost use Rattle.zarrs_data_type.specs.SameType.{is_same_type};
ghost use Rattle.zarrs_data_type.specs.FillValue.{fill_fits};
ghost use Rattle.zarrs_data_type.specs.SameTypeLaws.{is_same_type-equivalence};

use crate::components::{Components, HasComponents};
use std::alloc::Global;
use std::marker::Model;
use zarrs_chunk::CodecError;

/// The type of a chunk's elements (Zarr v3 core specification, "Data types"; zarr-extensions for
/// the sub-byte, string, bytes and optional types).
///
/// An element of a fixed type is one or more components of whole bytes, the lowest byte first. An
/// element of a variable type is bytes of any length. An element of an optional type is absent, or
/// present with an element of the type inside.
#[cycle(data_type)]
#[derive(Debug, Drop)]
pub struct DataType {
    kind: Kind,
}

#[cycle(data_type)]
#[derive(Debug, Drop)]
enum Kind {
    Fixed(Components),
    Text,
    Bytes,
    Optional(Box<DataType>),
}

impl Model for DataType {
    ghost use Rattle.zarrs_data_type.specs.ElementType.{ElementType, type_code, optional_levels};

    ghost Value = { ElementType };

    ghost coded = { type_code };

    ghost use Rattle.zarrs_data_type.specs.DataType.{type_of_kind, IsSoundKind};

    ghost view = { λ data_type. type_of_kind data_type.kind };

    ghost invariant = { λ data_type. IsSoundKind data_type.kind };

    ghost size = { optional_levels };

    ghost use Rattle.zarrs_data_type.specs.InnerType.{type_of_kind-optional_levels};

    ghost size_decreases = { λ data_type _. type_of_kind-optional_levels data_type.kind };
}

impl DataType {
    fn of_components(width: u64, count: u64, sign: bool) -> DataType
        requires components { IsFixedType width count }
        ensures made { result ≡ fixed width count sign }
    {
        DataType {
            kind: Kind::Fixed(Components {
                component_size_bits: width,
                num_components: count,
                sign_extension: sign,
            }),
        }
    }

    fn single(width: u64, sign: bool) -> DataType
        requires components { IsFixedType width 1 }
        ensures made { result ≡ fixed width 1 sign }
    {
        DataType::of_components(width, 1, sign)
    }

    /// A truth value. Any byte is an element of it; only the masks of optional elements are 0 or 1.
    pub fn bool() -> DataType
        ensures made { result ≡ fixed 1 1 false }
    {
        DataType::single(1, false)
    }

    /// A signed number of two bits.
    pub fn int2() -> DataType
        ensures made { result ≡ fixed 2 1 true }
    {
        DataType::single(2, true)
    }

    /// A signed number of four bits.
    pub fn int4() -> DataType
        ensures made { result ≡ fixed 4 1 true }
    {
        DataType::single(4, true)
    }

    /// An unsigned number of two bits.
    pub fn uint2() -> DataType
        ensures made { result ≡ fixed 2 1 false }
    {
        DataType::single(2, false)
    }

    /// An unsigned number of four bits.
    pub fn uint4() -> DataType
        ensures made { result ≡ fixed 4 1 false }
    {
        DataType::single(4, false)
    }

    /// A signed number of one byte.
    pub fn int8() -> DataType
        ensures made { result ≡ fixed 8 1 true }
    {
        DataType::single(8, true)
    }

    /// A signed number of two bytes.
    pub fn int16() -> DataType
        ensures made { result ≡ fixed 16 1 true }
    {
        DataType::single(16, true)
    }

    /// A signed number of four bytes.
    pub fn int32() -> DataType
        ensures made { result ≡ fixed 32 1 true }
    {
        DataType::single(32, true)
    }

    /// A signed number of eight bytes.
    pub fn int64() -> DataType
        ensures made { result ≡ fixed 64 1 true }
    {
        DataType::single(64, true)
    }

    /// An unsigned number of one byte.
    pub fn uint8() -> DataType
        ensures made { result ≡ fixed 8 1 false }
    {
        DataType::single(8, false)
    }

    /// An unsigned number of two bytes.
    pub fn uint16() -> DataType
        ensures made { result ≡ fixed 16 1 false }
    {
        DataType::single(16, false)
    }

    /// An unsigned number of four bytes.
    pub fn uint32() -> DataType
        ensures made { result ≡ fixed 32 1 false }
    {
        DataType::single(32, false)
    }

    /// An unsigned number of eight bytes.
    pub fn uint64() -> DataType
        ensures made { result ≡ fixed 64 1 false }
    {
        DataType::single(64, false)
    }

    /// Elements of `num_components` components of `component_size_bits` bits each. Errors, the
    /// first that holds: `BitRange` where either number is zero; `Overflow` where an element has
    /// `2^64` bytes or more.
    pub fn components(
        component_size_bits: u64,
        num_components: u64,
        sign_extension: bool,
    ) -> Result<DataType, CodecError>
        ensures made { result ≡ components_type component_size_bits num_components sign_extension }
    {
        if component_size_bits == 0 || num_components == 0 {
            return Err(CodecError::BitRange);
        }
        match num_components.checked_mul(component_size_bits.div_ceil(8)) {
            Some(_) => {
                Ok(DataType::of_components(component_size_bits, num_components, sign_extension))
            }
            None => Err(CodecError::Overflow),
        }
    }

    /// Text of any length. That it is UTF-8 is not checked.
    pub fn string() -> DataType
        ensures made { result ≡ text }
    {
        DataType { kind: Kind::Text }
    }

    /// Bytes of any length.
    pub fn bytes() -> DataType
        ensures made { result ≡ bytes }
    {
        DataType { kind: Kind::Bytes }
    }

    /// Elements of `inner` that may be absent. Errors: `OutOfMemory`.
    pub fn optional(alloc: Global, inner: DataType) -> Result<DataType, CodecError>
        ensures answer { Answers memory (λ data_type. data_type) result (Ok (optional inner)) }
    {
        Ok(DataType {
            kind: Kind::Optional(Box::new(alloc, inner)?),
        })
    }

    /// The bytes of an element of a fixed type, at least 1, or `None` for any other type.
    pub fn fixed_size(&self) -> Option<usize>
        ensures value { result ≡ fixed_size_of self.now }
        ensures positive { IfSome result (λ size. 0 < size) }
    {
        match &self.kind {
            Kind::Fixed(c) => {
                Some((c.num_components * c.component_size_bits.div_ceil(8)) as usize)
            }
            _ => None,
        }
    }

    /// Whether elements are bytes of any length.
    pub fn is_variable(&self) -> bool
        ensures value { result ≡ is_variable self.now }
    {
        matches!(&self.kind, Kind::Text | Kind::Bytes)
    }

    /// Whether elements may be absent.
    pub fn is_optional(&self) -> bool
        ensures value { result ≡ is_some (inner_of self.now) }
    {
        matches!(&self.kind, Kind::Optional(_))
    }

    /// The type inside an optional type, or `None` for any other type.
    pub fn as_optional(&self) -> Option<&DataType>
        ensures value { option_map (λ r. r.now) result ≡ inner_of self.now }
    {
        match &self.kind {
            Kind::Optional(inner) => Some(inner),
            _ => None,
        }
    }

    pub(crate) fn accepts(&self, fill: &[u8]) -> bool
        ensures value { result ≡ fill_fits self.now fill.now }
    {
        match &self.kind {
            Kind::Fixed(_) => match self.fixed_size() {
                Some(size) => fill.len() == size,
                None => false,
            },
            Kind::Text | Kind::Bytes => true,
            Kind::Optional(inner) => match fill {
                [0] => true,
                [front @ .., 1] => inner.accepts(front),
                _ => false,
            },
        }
    }

    /// An equal type. Errors: `OutOfMemory`, of an optional type alone.
    pub fn clone(&self) -> Result<DataType, CodecError>
        ensures copy { Answers memory (λ copy. copy) result (Ok self.now) }
        ensures in_place { inner_of self.now ≡ None → result ≡ Ok self.now }
    {
        let kind = match &self.kind {
            Kind::Fixed(components) => Kind::Fixed(*components),
            Kind::Text => Kind::Text,
            Kind::Bytes => Kind::Bytes,
            Kind::Optional(inner) => {
                let alloc = *Box::allocator(inner);
                Kind::Optional(Box::new(alloc, (**inner).clone()?)?)
            }
        };
        Ok(DataType { kind })
    }
}

impl HasComponents for DataType {
    ghost element_type = { λ data_type. data_type };

    fn components(&self) -> Option<Components> {
        match &self.kind {
            Kind::Fixed(components) => Some(*components),
            _ => None,
        }
    }
}

impl PartialEq for DataType {
    ghost eq = { is_same_type };

    ghost laws = { partial_equiv_from_equiv is_same_type-equivalence };

    fn eq(&self, other: &DataType) -> bool {
        match (&self.kind, &other.kind) {
            (Kind::Fixed(one), Kind::Fixed(other)) => one == other,
            (Kind::Text, Kind::Text) => true,
            (Kind::Bytes, Kind::Bytes) => true,
            (Kind::Optional(one), Kind::Optional(other)) => one.eq(other),
            _ => false,
        }
    }
}

impl Eq for DataType {
    ghost laws = { is_same_type-equivalence };
}
