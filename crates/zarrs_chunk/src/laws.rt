//! Laws of the definitions that the contracts of this crate cite. The functions do nothing: their
//! contracts hold for all lists, and proofs may take them from here.
ghost use Rattle.std.specs.Prelude.{◌≡◌, ◌<◌, ◌*◌, ◌↔◌, ℕ, true, List, length, map, replicate, All, Contains, IfOk};
ghost use Rattle.std.specs.List.{flat_map, range_with_len};
ghost use Rattle.std.specs.List.Sorted.{IsStrictlyIncreasing};
ghost use Rattle.zarrs_chunk.specs.ChunkShape.{product};
ghost use Rattle.zarrs_chunk.specs.Indexer.{plain_indexer};
ghost use Rattle.zarrs_chunk.specs.Indices.{tuple_of_number, box_tuple};
ghost use Rattle.zarrs_chunk.specs.IndexTuples.{rows};
ghost use Rattle.zarrs_chunk.specs.InsideByAxis.{IsInBox, IsInShape, IsBoxInShape};
ghost use Rattle.zarrs_chunk.specs.Numbering.{are_of_axes};
ghost use Rattle.zarrs_chunk.specs.Region.{Region};
ghost use Rattle.zarrs_chunk.specs.Selection.{Selection, subset, places_of};
ghost use Rattle.zarrs_chunk.specs.Tuples.{row_major, box_tuples, is_box_inside as box_inside, is_tuple_inside as tuple_inside};
ghost use Rattle.zarrs_chunk.specs.declared.indexer.Indexer.{Indexer as AnIndexer};

use crate::indexer::Indexer;

/// Which tuples are selected: a box has those whose numbers lie in its ranges. A tuple or a box is
/// inside a shape where it is so along each axis, and a box inside has tuples inside alone.
pub fn tuples_go_by_axis()
    ensures in_box { (starts lengths tuple : List ℕ) → length starts ≡ length lengths
        → Contains (box_tuples starts lengths) tuple ↔ IsInBox starts lengths tuple }
    ensures in_shape { (sizes tuple : List ℕ)
        → (tuple_inside sizes tuple ≡ true) ↔ IsInShape sizes tuple }
    ensures box_in_shape { (sizes starts lengths : List ℕ)
        → (box_inside sizes starts lengths ≡ true) ↔ IsBoxInShape sizes starts lengths }
    ensures inside { (sizes starts lengths tuple : List ℕ) → box_inside sizes starts lengths ≡ true
        → Contains (box_tuples starts lengths) tuple → tuple_inside sizes tuple ≡ true }
{}

/// The tuples inside a shape have numbers of their own, all of them below the number of elements,
/// and the whole chunk's are counted from 0 on with no gap. Each number below the number of elements
/// names a tuple inside, whose number it is. The tuples of a box are numbered from 0 on in their
/// order.
pub fn numbers_name_elements()
    ensures below { (sizes tuple : List ℕ) → tuple_inside sizes tuple ≡ true
        → row_major sizes tuple < product sizes }
    ensures unique { (sizes one two : List ℕ) → tuple_inside sizes one ≡ true
        → tuple_inside sizes two ≡ true → row_major sizes one ≡ row_major sizes two → one ≡ two }
    ensures counted { (sizes : List ℕ) → map (row_major sizes)
        (box_tuples (replicate (length sizes) 0) sizes) ≡ range_with_len 0 (product sizes) }
    ensures inside { (sizes : List ℕ) (number : ℕ) → number < product sizes
        → tuple_inside sizes (tuple_of_number sizes number) ≡ true }
    ensures named { (sizes : List ℕ) (number : ℕ) → number < product sizes
        → row_major sizes (tuple_of_number sizes number) ≡ number }
    ensures found { (sizes tuple : List ℕ) → tuple_inside sizes tuple ≡ true
        → tuple_of_number sizes (row_major sizes tuple) ≡ tuple }
    ensures in_box { (starts lens : List ℕ) → length starts ≡ length lens
        → box_tuples starts lens ≡ map (box_tuple starts lens) (range_with_len 0 (product lens)) }
{}

/// The places of any selection are places of the chunk, and those of a subset rise.
pub fn places_are_in_order()
    ensures below { (selection : Selection) (sizes : List ℕ)
        → IfOk (places_of selection sizes) (All (λ place. place < product sizes)) }
    ensures rising { (region : Region) (sizes : List ℕ)
        → IfOk (places_of (subset region) sizes) IsStrictlyIncreasing }
{}

/// Numbers that stand one after another make as many tuples as are asked for, of so many numbers
/// each, and the tuples joined in order are all the numbers.
pub fn numbers_make_tuples()
    ensures count { (axes count : ℕ) (numbers : List ℕ) → length (rows axes count numbers) ≡ count }
    ensures axes { (axes count : ℕ) (numbers : List ℕ) → axes * count ≡ length numbers
        → are_of_axes axes (rows axes count numbers) ≡ true }
    ensures joined { (axes count : ℕ) (numbers : List ℕ) → axes * count ≡ length numbers
        → flat_map (λ tuple. tuple) (rows axes count numbers) ≡ numbers }
{}

/// Two indexers are equal just where they are of the same variant and hold the same box or tuples. So
/// no list of vectors equals one that is lent, not even where both are empty.
pub fn equal_indexers_are_same()
    ensures equal { (one other : AnIndexer) → (⟦<Indexer<'static> as PartialEq>⟧.eq one other ≡ true)
        ↔ (plain_indexer one ≡ plain_indexer other) }
{}
