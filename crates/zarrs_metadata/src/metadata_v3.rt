//! The metadata of a codec.
ghost use Rattle.std.specs.Prelude.{◌≡◌, Ok};
ghost use Rattle.serde_json.specs.Find.{as_bool, as_object};
ghost use Rattle.serde_json.specs.View.{view};
ghost use Rattle.zarrs_chunk.specs.Answer.{seen};
ghost use Rattle.zarrs_metadata.specs.CodecMetadata.{codec_metadata};
ghost use Rattle.zarrs_metadata.specs.Metadata.{metadata_in, metadata_named, metadata_of, read_metadata, understood, write_metadata, metadata_members, unless_false};
ghost use Rattle.zarrs_metadata.specs.MetadataV3.{metadata_seen, configuration_seen, lent_members, Writes, MakesConfiguration};
ghost use Rattle.zarrs_metadata.specs.PluginCreateError.{Makes};
ghost use Rattle.zarrs_metadata.specs.Trees.{lent_tree, needed_text, optional_key};

use crate::json::{copy_members, holds_float, member};
use crate::plugin_create_error::PluginCreateError;
use serde_json::{Map, Value};
use std::alloc::Global;

/// The configuration of a codec: the members of a JSON object.
pub type Configuration = Map<String, Value>;

/// The metadata of a codec (Zarr v3, an entry of `codecs`): its name, its configuration where it
/// has one, and whether a reader that can't make the codec has to fail.
#[derive(Debug, Drop)]
pub struct MetadataV3 {
    name: String,
    configuration: Option<Configuration>,
    must_understand: bool,
}

fn name_of(value: Option<&Value>) -> Result<&str, PluginCreateError>
    ensures answer { seen (λ name. name.now) result ≡ needed_text (lent_tree value.entry) }
{
    match value {
        Some(Value::String(name)) => Ok(name.as_str()),
        _ => Err(PluginCreateError::InvalidConfiguration),
    }
}

fn configuration_of(value: Option<&Value>) -> Result<Option<&Configuration>, PluginCreateError>
    ensures answer { seen lent_members result ≡ optional_key as_object (lent_tree value.entry) }
{
    match value {
        None => Ok(None),
        Some(Value::Null) => Ok(None),
        Some(Value::Object(members)) => Ok(Some(members)),
        Some(_) => Err(PluginCreateError::InvalidConfiguration),
    }
}

fn must_understand_of(value: Option<&Value>) -> Result<bool, PluginCreateError>
    ensures answer { result ≡ seen unless_false (optional_key as_bool (lent_tree value.entry)) }
{
    match value {
        None => Ok(true),
        Some(Value::Null) => Ok(true),
        Some(Value::Bool(truth)) => Ok(*truth),
        Some(_) => Err(PluginCreateError::InvalidConfiguration),
    }
}

fn copy_where_there(
    configuration: Option<&Configuration>,
    alloc: Global,
) -> Result<Option<Configuration>, PluginCreateError>
    ensures copy { MakesConfiguration result (Ok (lent_members configuration.entry)) }
{
    match configuration {
        None => Ok(None),
        Some(members) => Ok(Some(copy_members(members, alloc)?)),
    }
}

fn metadata_among(alloc: Global, members: &Configuration) -> Result<MetadataV3, PluginCreateError>
    ensures answer { Makes metadata_seen result (metadata_in (configuration_seen members.now)) }
{
    let name = name_of(member(members, "name"))?;
    let configuration = configuration_of(member(members, "configuration"))?;
    let must_understand = must_understand_of(member(members, "must_understand"))?;
    Ok(MetadataV3 {
        name: String::from_str(alloc, name)?,
        configuration: copy_where_there(configuration, alloc)?,
        must_understand,
    })
}

impl MetadataV3 {
    /// The metadata of this name, without configuration, which has to be understood. Errors:
    /// `OutOfMemory`.
    pub fn new(alloc: Global, name: &str) -> Result<MetadataV3, PluginCreateError>
        ensures made { Makes metadata_seen result (Ok (metadata_named name.now)) }
    {
        Ok(MetadataV3 {
            name: String::from_str(alloc, name)?,
            configuration: None,
            must_understand: true,
        })
    }

    /// The metadata of this name and configuration, which has to be understood. Errors:
    /// `OutOfMemory`.
    pub fn new_with_configuration(
        alloc: Global,
        name: &str,
        configuration: Configuration,
    ) -> Result<MetadataV3, PluginCreateError>
        ensures made { Makes metadata_seen result
            (Ok (codec_metadata name.now (configuration_seen configuration))) }
    {
        Ok(MetadataV3 {
            name: String::from_str(alloc, name)?,
            configuration: Some(configuration),
            must_understand: true,
        })
    }

    /// The same, which has to be understood or need not be.
    pub fn with_must_understand(mut self, must_understand: bool) -> MetadataV3
        ensures made { metadata_seen result ≡ understood must_understand (metadata_seen self) }
    {
        self.must_understand = must_understand;
        self
    }

    /// The codec's name.
    pub fn name(&self) -> &str
        ensures value { result.now ≡ (metadata_seen self.now).name }
    {
        self.name.as_str()
    }

    /// The codec's configuration, where it has one.
    pub fn configuration(&self) -> Option<&Configuration>
        ensures value { lent_members result ≡ (metadata_seen self.now).configuration }
    {
        self.configuration.as_ref()
    }

    /// Whether a reader that can't make the codec has to fail.
    pub fn must_understand(&self) -> bool
        ensures value { result ≡ (metadata_seen self.now).must_understand }
    {
        self.must_understand
    }

    /// The metadata of a JSON tree: a name, or an object with a `name`, and optionally a
    /// `configuration` (an object) and `must_understand` (true where it is missing). Null counts as
    /// missing there, and other keys are passed over. Errors: `InvalidConfiguration` for any other
    /// tree, and where a number at any depth is a float; `OutOfMemory`.
    pub fn from_value(alloc: Global, tree: &Value) -> Result<MetadataV3, PluginCreateError>
        ensures answer { Makes metadata_seen result (read_metadata (view tree.now)) }
    {
        if holds_float(tree) {
            return Err(PluginCreateError::InvalidConfiguration);
        }
        MetadataV3::from_clean_value(alloc, tree)
    }

    /// The same of a tree that was looked through for floats already.
    pub(crate) fn from_clean_value(
        alloc: Global,
        tree: &Value,
    ) -> Result<MetadataV3, PluginCreateError>
        ensures answer { Makes metadata_seen result (metadata_of (view tree.now)) }
    {
        match tree {
            Value::String(name) => MetadataV3::new(alloc, name.as_str()),
            Value::Object(members) => metadata_among(alloc, members),
            _ => Err(PluginCreateError::InvalidConfiguration),
        }
    }

    /// The JSON tree: the name alone where there is no configuration and the codec has to be
    /// understood; else an object, with `must_understand` only where it is false. Errors:
    /// `OutOfMemory`.
    pub fn to_value(&self, alloc: Global) -> Result<Value, PluginCreateError>
        ensures answer { Makes view result (Ok (write_metadata (metadata_seen self.now))) }
    {
        if self.must_understand && self.configuration.is_none() {
            return Ok(Value::try_from_str(alloc, self.name.as_str())?);
        }
        Ok(Value::Object(self.members(alloc)?))
    }

    fn members(&self, alloc: Global) -> Result<Configuration, PluginCreateError>
        ensures answer { Writes result (metadata_members (metadata_seen self.now)) }
    {
        let mut members = Map::new(alloc);
        if let Some(configuration) = &self.configuration {
            let copy = Value::Object(copy_members(configuration, alloc)?);
            serde_json::put(&mut members, alloc, "configuration", copy)?;
        }
        if !self.must_understand {
            serde_json::put(&mut members, alloc, "must_understand", Value::Bool(false))?;
        }
        let name = Value::try_from_str(alloc, self.name.as_str())?;
        serde_json::put(&mut members, alloc, "name", name)?;
        Ok(members)
    }
}
