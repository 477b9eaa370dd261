//! Laws over the definitions alone: each clause of the function's contract is one.
ghost use Rattle.std.specs.Prelude.{◌≡◌, Ok, length};
ghost use Rattle.serde_json.specs.Data.{Data};
ghost use Rattle.zarrs_data_type.specs.Element.{AreElements, Chunk};
ghost use Rattle.zarrs_data_type.specs.ElementType.{ElementType};
ghost use Rattle.zarrs_array_bytes.specs.Validity.{Holds, sizes_fit};
ghost use Rattle.zarrs_json.specs.Containers.{container_of};
ghost use Rattle.zarrs_json.specs.Elements.{elements_of};

/// What a list of elements is read as are elements of the type, and the container of elements of a
/// type holds just these elements, where 64 bits count their bytes or offsets.
pub fn read_elements_are_held()
    ensures elements { (t : ElementType) (tree : Data) (chunk : Chunk)
        → elements_of t tree ≡ Ok chunk → AreElements t chunk }
    ensures held { (t : ElementType) (chunk : Chunk) → AreElements t chunk
        → sizes_fit t (length chunk) ≡ Ok tt → Holds t (container_of t chunk) chunk }
{}
