//! Metadata of codecs: what is read and written again, compared as JSON text, and what is made by hand.
//! Configurations of codecs are read and written again in `zarrs_chain_tests`.

use crate::checks::is;
use serde_json::Value;
use std::alloc::Global;
use std::process::Abort;
use zarrs_metadata::{
    Configuration, MetadataV3, PackBitsCodecConfiguration, PackBitsCodecConfigurationV1,
    PackBitsPaddingEncoding, PluginCreateError,
};

/// The metadata of a text that reads.
pub(crate) fn metadata(alloc: Global, text: &str) -> Result<MetadataV3, PluginCreateError> {
    match Value::from_str(alloc, text) {
        Ok(tree) => MetadataV3::from_value(alloc, &tree),
        Err(_) => Err(PluginCreateError::OutOfMemory),
    }
}

/// A text, and how it is written again.
struct Row {
    read: &'static str,
    again: &'static str,
}

const ROWS: &'static [Row] = &[
    Row {
        read: r#""bytes""#,
        again: r#""bytes""#,
    },
    Row {
        read: r#"{"name":"bytes","configuration":null,"must_understand":null,"other":7}"#,
        again: r#""bytes""#,
    },
    Row {
        read: r#"{"must_understand":false,"name":"a","configuration":{"z":null,"b":[-1,"x",{}]}}"#,
        again: r#"{"configuration":{"b":[-1,"x",{}],"z":null},"must_understand":false,"name":"a"}"#,
    },
];

/// The metadata has this text.
fn has_text(
    rt: &impl Abort,
    alloc: Global,
    metadata: &MetadataV3,
    wanted: &'static str,
) -> Result<(), PluginCreateError> {
    let text = metadata.to_value(alloc)?.to_string(alloc)?;
    is(rt, wanted, &text.as_str(), &wanted);
    Ok(())
}

#[test]
fn is_written_as_it_was_read(rt: HostRuntime) -> Result<(), PluginCreateError> {
    for row in ROWS.iter() {
        has_text(&rt, rt.alloc(), &metadata(rt.alloc(), row.read)?, row.again)?;
    }
    Ok(())
}

/// What metadata shows: its name, its mark, whether there is a configuration, and its text.
struct Shown {
    name: &'static str,
    must_understand: bool,
    has_configuration: bool,
    text: &'static str,
}

const NAME: Shown = Shown {
    name: "zarrs.squeeze",
    must_understand: true,
    has_configuration: false,
    text: r#""zarrs.squeeze""#,
};

const PACKBITS: Shown = Shown {
    name: "packbits",
    must_understand: false,
    has_configuration: true,
    text: r#"{"configuration":{"first_bit":2,"last_bit":null,"padding_encoding":"last_byte"},"must_understand":false,"name":"packbits"}"#,
};

fn configure_packbits(alloc: Global) -> Result<Configuration, PluginCreateError> {
    let fields = PackBitsCodecConfiguration::V1(PackBitsCodecConfigurationV1 {
        padding_encoding: Some(PackBitsPaddingEncoding::LastByte),
        first_bit: Some(2),
        last_bit: None,
    });
    fields.to_configuration(alloc)
}

fn make_packbits(alloc: Global) -> Result<MetadataV3, PluginCreateError> {
    let metadata = MetadataV3::new_with_configuration(
        alloc,
        "packbits",
        configure_packbits(alloc)?,
    )?;
    Ok(metadata.with_must_understand(false))
}

fn shows(
    rt: &impl Abort,
    alloc: Global,
    metadata: &MetadataV3,
    wanted: &Shown,
) -> Result<(), PluginCreateError> {
    is(rt, "name", &metadata.name(), &wanted.name);
    let mark = metadata.must_understand();
    is(rt, "must understand", &mark, &wanted.must_understand);
    let has_configuration = metadata.configuration().is_some();
    is(
        rt,
        "configuration",
        &has_configuration,
        &wanted.has_configuration,
    );
    has_text(rt, alloc, metadata, wanted.text)
}

#[test]
fn is_made_of_a_name(rt: HostRuntime) -> Result<(), PluginCreateError> {
    shows(
        &rt,
        rt.alloc(),
        &MetadataV3::new(rt.alloc(), "zarrs.squeeze")?,
        &NAME,
    )
}

#[test]
fn is_made_of_a_name_and_a_configuration(rt: HostRuntime) -> Result<(), PluginCreateError> {
    shows(&rt, rt.alloc(), &make_packbits(rt.alloc())?, &PACKBITS)
}
