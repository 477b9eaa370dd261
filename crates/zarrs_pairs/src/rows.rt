//! Rows of a key and a value, in the order of their keys.
ghost use Rattle.std.specs.Prelude.{◌≡◌, Ok, IfErr, IfOk, true, false, map, option_map};
ghost use Rattle.zarrs_chunk.specs.Answer.{Gives};
ghost use Rattle.zarrs_chunk.specs.declared.codec_error.CodecError.TheVariants.{OutOfMemory};
ghost use Rattle.zarrs_pairs.specs.Pairs.{beside, sides, turned};
ghost use Rattle.zarrs_pairs.specs.Rows.{rows_seen, AreRowsOf, HaveClash, IsRising, IsFunction};

use crate::pair::Pair;
use std::alloc::Global;
use zarrs_chunk::CodecError;

/// One side of a pair, and the other one.
#[derive(Clone, Copy, Debug)]
pub(crate) struct Row<'a> {
    pub(crate) key: &'a [u8],
    pub(crate) value: &'a [u8],
}

/// The pairs as rows whose keys are the decoded bytes.
fn decoded_rows<'a>(alloc: Global, pairs: &[Pair<'a>]) -> Result<Vec<Row<'a>>, CodecError>
    ensures rows { Gives (λ rows. rows_seen rows.items) result (Ok (map sides pairs.now)) }
{
    let mut rows = Vec::with_capacity(alloc, pairs.len())?;
    for pair in pairs {
        rows.push(Row {
            key: pair.decoded,
            value: pair.encoded,
        })?;
    }
    Ok(rows)
}

/// The rows turned round: what was a row's value is its key.
fn turned_rows<'a>(alloc: Global, rows: &[Row<'a>]) -> Result<Vec<Row<'a>>, CodecError>
    ensures rows { Gives (λ other. rows_seen other.items) result
        (Ok (map turned (rows_seen rows.now))) }
{
    let mut other = Vec::with_capacity(alloc, rows.len())?;
    for row in rows {
        other.push(Row {
            key: row.value,
            value: row.key,
        })?;
    }
    Ok(other)
}

/// The rows in the order of their keys.
fn sorted(mut rows: Vec<Row<'_>>) -> Vec<Row<'_>>
    ensures rows { AreRowsOf (rows_seen rows.entry.items) result.items }
{
    rows.sort_unstable_by_key(|row| row.key);
    rows
}

/// The pairs as rows, in the order of their decoded bytes.
pub(crate) fn sorted_pairs<'a>(
    alloc: Global,
    pairs: &[Pair<'a>],
) -> Result<Vec<Row<'a>>, CodecError>
    ensures rows { IfOk result (λ rows. AreRowsOf (map sides pairs.now) rows.items) }
    ensures memory { IfErr result (λ cause. cause ≡ OutOfMemory) }
{
    Ok(sorted(decoded_rows(alloc, pairs)?))
}

/// The rows turned round, in the order of what were their values.
pub(crate) fn sorted_turned<'a>(alloc: Global, rows: &[Row<'a>]) -> Result<Vec<Row<'a>>, CodecError>
    ensures rows { IfOk result (λ other. AreRowsOf (map turned (rows_seen rows.now)) other.items) }
    ensures memory { IfErr result (λ cause. cause ≡ OutOfMemory) }
{
    Ok(sorted(turned_rows(alloc, rows)?))
}

/// Whether two rows have one key and two values.
fn have_clash(front: &Row<'_>, behind: &Row<'_>) -> bool
    ensures clash { result ≡ true → HaveClash front.now behind.now }
    ensures apart { result ≡ false → HaveClash front.now behind.now → ⊥ }
{
    let is_one_key = front.key == behind.key;
    let is_one_value = front.value == behind.value;
    is_one_key && !is_one_value
}

/// Whether no key has two values. Rows with the same key stand beside one another.
pub(crate) fn is_function(rows: &[Row<'_>]) -> bool
    requires rising { IsRising rows.now }
    ensures accepted { result ≡ true → IsFunction (rows_seen rows.now) }
    ensures rejected { result ≡ false → IsFunction (rows_seen rows.now) → ⊥ }
{
    for place in 1..rows.len() {
        if have_clash(&rows[place - 1], &rows[place]) {
            return false;
        }
    }
    true
}

/// The value of a row that has this key.
pub(crate) fn find<'a>(rows: &[Row<'a>], key: &[u8]) -> Option<&'a [u8]>
    requires rising { IsRising rows.now }
    requires one { IsFunction (rows_seen rows.now) }
    ensures value { option_map (λ it. it.now) result ≡ beside (rows_seen rows.now) key.now }
{
    match (&*rows).binary_search_by_key(&&*key, |row| row.key) {
        Ok(place) => Some(rows[place].value),
        Err(_) => None,
    }
}
