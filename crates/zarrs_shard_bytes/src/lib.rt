//! Shards as bytes, whatever the chains of their inner chunks: where the elements of inner chunks stand
//! in a chunk ([`inner_places`]); whether elements are all the fill element ([`fill_elements`]); the chunk of
//! its inner chunks, whose elements have one size ([`joined_rows`]) or any length ([`joined_bands`]); and the
//! value of a shard while it is written ([`value_room`], [`written_shard`]).
#![tactic(auto)]

pub mod fill_elements;
pub mod inner_places;
pub mod joined_bands;
pub mod joined_rows;
mod lent_run;
mod same_bytes;
pub mod value_room;
pub mod written_shard;
