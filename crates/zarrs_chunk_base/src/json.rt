//! What extensions look like in JSON: their metadata, and the configurations of their kinds.
pub(crate) mod configuration_form;
pub(crate) mod default_configuration;
pub(crate) mod default_suffix_configuration;
pub(crate) mod members;
pub(crate) mod metadata_v3;
pub(crate) mod rectangular_configuration;
pub(crate) mod rectilinear_configuration;
pub(crate) mod regular_configuration;
mod separator_member;
pub(crate) mod text;
pub(crate) mod tree_form;
pub(crate) mod v2_configuration;
