//! The components of the elements of fixed types.
ghost use Rattle.std.specs.Prelude.{◌≡◌, IfSome};
ghost use Rattle.zarrs_data_type.specs.ElementType.{ElementType, IsFixedType, components_of};

/// The components of an element of a fixed type.
#[derive(Clone, Copy, Debug, PartialEq, Eq)]
pub struct Components {
    /// The bits of a component, at least 1. In memory it has whole bytes.
    pub component_size_bits: u64,
    /// The components of an element, at least 1.
    pub num_components: u64,
    /// Whether a component has a sign, which fills the bits above the ones that are kept.
    pub sign_extension: bool,
}

/// What a codec has to know of a fixed type. It stands in a trait, since
/// [`DataType::components`](crate::DataType::components) makes a type.
pub trait HasComponents {
    // The type.
    ghost element_type: { Self → ElementType };

    /// The components of an element, or `None` for a type that is not fixed.
    fn components(&self) -> Option<Components>
        ensures value { result ≡ components_of (element_type self.now) }
        ensures sound { IfSome result (λ c. IsFixedType c.component_size_bits c.num_components) };
}
