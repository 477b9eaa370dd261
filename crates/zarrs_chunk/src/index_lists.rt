//! Places and runs of a list of index tuples.
ghost use Rattle.std.specs.Prelude.{◌≡◌, ◌<◌, ◌∷◌, [], ◌^◌, length, true, false, IfOk, IfErr, OnOk, All};
ghost use Rattle.zarrs_chunk.specs.Answer.{is_fault, Gives, Appends, GivesItems};
ghost use Rattle.zarrs_chunk.specs.ChunkShape.{product};
ghost use Rattle.zarrs_chunk.specs.Numbering.{are_of_axes, are_tuples_inside, numbers_of_tuples, IsOkInside};
ghost use Rattle.zarrs_chunk.specs.Runs.{places_in, AreFilled, EndWithin, StayWithin, AreApart, AddsPlaces};
ghost use Rattle.zarrs_chunk.specs.Selection.{indices, bounds_of, places_of};
ghost use Rattle.zarrs_chunk.specs.Tuples.{row_major as row_major_of, is_tuple_inside as tuple_inside};

use crate::boxes::checked_product;
use crate::chunk_shape::ChunkShape;
use crate::codec_error::CodecError;
use crate::indices::{is_tuple_inside, place_inside};
use crate::runs::append_place;
use crate::tuple_list::TupleList;
use std::alloc::Global;

fn are_inside<T: TupleList>(sizes: &[u64], tuples: &T) -> bool
    ensures value { result ≡ are_tuples_inside sizes.now (T.tuples tuples.now) }
{
    for index in 0..tuples.count() {
        if !is_tuple_inside(sizes, tuples.tuple(index)) {
            return false;
        }
    }
    true
}

pub fn check_indices<T: TupleList>(sizes: &[u64], tuples: &T) -> Result<(), CodecError>
    ensures answer { result ≡ bounds_of (indices (T.tuples tuples.now)) sizes.now }
{
    if !tuples.have_axes(sizes.len()) {
        return Err(CodecError::IncompatibleDimensionality);
    }
    // Tuples of no numbers lie inside, and may be more than a loop ever comes through.
    if sizes.len() == 0 {
        return Ok(());
    }
    if !are_inside(sizes, tuples) {
        return Err(CodecError::OutOfBounds);
    }
    Ok(())
}

/// What comes before tuples are numbered: each has one number an axis, and 64 bits count the
/// elements. Where they don't, a tuple outside is the first error.
fn check_countable<T: TupleList>(sizes: &[u64], tuples: &T) -> Result<(), CodecError>
    ensures axes { OnOk result (are_of_axes (length sizes.now) (T.tuples tuples.now) ≡ true) }
    ensures fits { OnOk result (product sizes.now < 2 ^ 64) }
    ensures cause { IfErr result (λ e.
        places_of (indices (T.tuples tuples.now)) sizes.now ≡ Err e) }
{
    if !tuples.have_axes(sizes.len()) {
        return Err(CodecError::IncompatibleDimensionality);
    }
    if checked_product(sizes).is_some() {
        return Ok(());
    }
    if !are_inside(sizes, tuples) {
        return Err(CodecError::OutOfBounds);
    }
    Err(CodecError::Overflow)
}

/// One tuple more, at the end of the places.
fn push_place(places: &mut Vec<u64>, sizes: &[u64], tuple: &[u64]) -> Result<(), CodecError>
    requires axes { length tuple.now ≡ length sizes.now }
    requires positive { All (λ size. 0 < size) sizes.now }
    requires fits { product sizes.now < 2 ^ 64 }
    ensures inside { IsOkInside (tuple_inside sizes.now tuple.now) result }
    ensures pushed { Appends places.old places.new result (row_major_of sizes.now tuple.now ∷ []) }
    ensures no_fault { is_fault result ≡ false }
{
    let place = place_inside(sizes, tuple).ok_or(CodecError::OutOfBounds)?;
    places.push(place)?;
    Ok(())
}

/// One tuple more, at the end of the runs.
fn push_run(runs: &mut Vec<(u64, u64)>, sizes: &[u64], tuple: &[u64]) -> Result<(), CodecError>
    requires axes { length tuple.now ≡ length sizes.now }
    requires positive { All (λ size. 0 < size) sizes.now }
    requires fits { product sizes.now < 2 ^ 64 }
    ensures inside { IsOkInside (tuple_inside sizes.now tuple.now) result }
    ensures pushed { AddsPlaces runs.old runs.new result (row_major_of sizes.now tuple.now ∷ []) }
    ensures filled { OnOk result (AreFilled runs.old.items → AreFilled runs.new.items) }
    ensures below { OnOk result (StayWithin (product sizes.now) runs.old.items runs.new.items) }
    ensures apart { OnOk result (AreApart runs.old.items → AreApart runs.new.items) }
    ensures no_fault { is_fault result ≡ false }
{
    let place = place_inside(sizes, tuple).ok_or(CodecError::OutOfBounds)?;
    append_place(runs, place)?;
    Ok(())
}

/// The tuples are tested and numbered in one pass.
fn tuple_places<T: TupleList>(
    alloc: Global,
    sizes: &[u64],
    tuples: &T,
) -> Result<Vec<u64>, CodecError>
    requires axes { are_of_axes (length sizes.now) (T.tuples tuples.now) ≡ true }
    requires positive { All (λ size. 0 < size) sizes.now }
    requires fits { product sizes.now < 2 ^ 64 }
    ensures inside { IsOkInside (are_tuples_inside sizes.now (T.tuples tuples.now)) result }
    ensures places { IfOk result (λ v. v.items ≡ numbers_of_tuples sizes.now (T.tuples tuples.now)) }
    ensures no_fault { is_fault result ≡ false }
{
    let mut places = Vec::with_capacity(alloc, tuples.count())?;
    for index in 0..tuples.count() {
        push_place(&mut places, sizes, tuples.tuple(index))?;
    }
    Ok(places)
}

/// The same, with places that follow one another as one run.
fn tuple_runs<T: TupleList>(
    alloc: Global,
    sizes: &[u64],
    tuples: &T,
) -> Result<Vec<(u64, u64)>, CodecError>
    requires axes { are_of_axes (length sizes.now) (T.tuples tuples.now) ≡ true }
    requires positive { All (λ size. 0 < size) sizes.now }
    requires fits { product sizes.now < 2 ^ 64 }
    ensures inside { IsOkInside (are_tuples_inside sizes.now (T.tuples tuples.now)) result }
    ensures places { IfOk result (λ v.
        places_in v ≡ numbers_of_tuples sizes.now (T.tuples tuples.now)) }
    ensures filled { IfOk result (λ v. AreFilled v.items) }
    ensures below { IfOk result (λ v. EndWithin (product sizes.now) v.items) }
    ensures apart { IfOk result (λ v. AreApart v.items) }
    ensures count { length (T.tuples tuples.now) < 2 ^ 64 }
    ensures no_fault { is_fault result ≡ false }
{
    let mut runs = Vec::with_capacity(alloc, tuples.count())?;
    for index in 0..tuples.count() {
        push_run(&mut runs, sizes, tuples.tuple(index))?;
    }
    Ok(runs)
}

/// The places of a list of tuples, in list order.
pub fn indices_places<T: TupleList>(
    alloc: Global,
    shape: &ChunkShape,
    tuples: &T,
) -> Result<Vec<u64>, CodecError>
    ensures places { GivesItems result (places_of (indices (T.tuples tuples.now)) shape.now) }
    ensures below { IfOk result (λ v. All (λ place. place < product shape.now) v.items) }
    ensures count { IfOk result (λ v. length v.items < 2 ^ 64) }
{
    let sizes = shape.as_slice();
    check_countable(sizes, tuples)?;
    let places = tuple_places(alloc, sizes, tuples)?;
    Ok(places)
}

/// The runs of a list of tuples, in list order.
pub fn indices_runs<T: TupleList>(
    alloc: Global,
    shape: &ChunkShape,
    tuples: &T,
) -> Result<Vec<(u64, u64)>, CodecError>
    ensures places { Gives places_in result (places_of (indices (T.tuples tuples.now)) shape.now) }
    ensures filled { IfOk result (λ v. AreFilled v.items) }
    ensures below { IfOk result (λ v. EndWithin (product shape.now) v.items) }
    ensures count { IfOk result (λ v. length (places_in v) < 2 ^ 64) }
    ensures apart { IfOk result (λ v. AreApart v.items) }
{
    let sizes = shape.as_slice();
    check_countable(sizes, tuples)?;
    let runs = tuple_runs(alloc, sizes, tuples)?;
    Ok(runs)
}
