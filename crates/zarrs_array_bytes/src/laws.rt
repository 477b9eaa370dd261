//! Laws over the definitions alone: each function's contract is one.
ghost use Rattle.std.specs.Prelude.{◌≡◌, ◌*◌, ℕ, true, List, Some, Ok};
ghost use Rattle.std.specs.List.{flat_map};
ghost use Rattle.zarrs_chunk.specs.Region.{Region};
ghost use Rattle.zarrs_data_type.specs.ElementType.{ElementType, optional};
ghost use Rattle.zarrs_data_type.specs.Element.{AreElements, Chunk};
ghost use Rattle.zarrs_array_bytes.specs.Held.{Held, byte_count};
ghost use Rattle.zarrs_array_bytes.specs.Elements.{piece};
ghost use Rattle.zarrs_array_bytes.specs.Validity.{Holds, validity};
ghost use Rattle.zarrs_array_bytes.specs.SameBytes.{is_same_held};
ghost use Rattle.zarrs_array_bytes.specs.Tight.{IsTight};
ghost use Rattle.zarrs_array_bytes.specs.Present.{expansion, mask_of, present_elements};
ghost use Rattle.zarrs_array_bytes.specs.FixedView.{FixedView, fixed_view, elements_fit, written_bytes};
ghost use Rattle.zarrs_array_bytes.specs.Laws.{UpdateThenSelect, PresentElementsAreHeld, ExpandedElementsAreHeld, ExpansionKeepsElements, IsView, OtherElementsStay, bytes_each};

/// What a container holds as elements of a type are elements of that type.
pub fn held_are_elements()
    ensures elements { (type : ElementType) (held : Held) (chunk : Chunk) → Holds type held chunk
        → AreElements type chunk }
{}

/// What is selected after an update is the data written last at a place, or else the old element.
pub fn update_then_select()
    ensures last_stands { UpdateThenSelect }
{}

/// What is extracted from a container under a mask is what is present of the chunk that it holds, and
/// what is put back are the elements that a container holds. What is present of a chunk, put back under
/// its mask, is the chunk again; and of elements that are put back under a mask, those are present.
pub fn present_elements_are_restored()
    ensures present { PresentElementsAreHeld }
    ensures expanded { ExpandedElementsAreHeld }
    ensures restored { (type : ElementType) (chunk : Chunk) → AreElements (optional type) chunk
        → expansion (mask_of chunk) (present_elements chunk) ≡ chunk }
    ensures kept { ExpansionKeepsElements }
{}

/// After a write to the view of a subset, the new elements are at its places, in order, and every
/// other element of the array is the old one.
pub fn views_write_their_places()
    ensures subsets { (bytes : List ℕ) (size : ℕ) (sizes : List ℕ) (region : Region)
        (view : FixedView) → fixed_view bytes size sizes region ≡ Ok view → IsView view }
    ensures written { (view : FixedView) (new : List ℕ) → IsView view → elements_fit view new ≡ Ok tt
        → flat_map (piece view.element_size (written_bytes view new)) view.places ≡ new }
    ensures others { OtherElementsStay }
{}

/// A container of elements that all take as many bytes, with their mask bytes, has these bytes and no
/// others. So containers that hold one chunk of such a type are of one size.
pub fn containers_are_counted()
    ensures law { (type : ElementType) (count each : ℕ) (held : Held) → bytes_each type ≡ Some each
        → validity type count held ≡ Ok tt → byte_count held ≡ count * each }
{}

/// A tight container is fixed by its elements: two that hold the same chunk have the same bytes, offsets
/// and mask bytes.
pub fn tight_containers_are_same()
    ensures law { (type : ElementType) (a b : Held) (chunk : Chunk) → IsTight type a
        → IsTight type b → Holds type a chunk → Holds type b chunk → is_same_held a b ≡ true }
{}
