//! The codec `packbits`: how long its values are, the bytes that its reads ask for, and elements that are
//! written where they are wanted.
mod elements;
mod lengths;
mod reads;
