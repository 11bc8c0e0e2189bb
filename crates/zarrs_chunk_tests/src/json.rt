//! Configurations and metadata: their copies, and what they print and are written as.
use crate::compared::{check_same, check_text, check_that};
use serde_json::Value;
use std::alloc::{AllocError, Global};
use std::fmt::Display;
use std::process::Abort;
use std::test::Fail;
use zarrs_chunk_base::{
    ChunkKeySeparator, Configuration, ConfigurationForm, DefaultChunkKeyEncodingConfiguration,
    DefaultSuffixChunkKeyEncodingConfiguration, MetadataV3, RectangularChunkGridConfiguration,
    RectilinearChunkGridConfiguration, RegularBoundedChunkGridConfiguration,
    V2ChunkKeyEncodingConfiguration,
};

/// The members of an object.
fn members(alloc: Global, text: &str) -> Result<Configuration, Fail> {
    match Value::from_slice(alloc, text.as_bytes())? {
        Value::Object(members) => Ok(members),
        _ => Err("not an object".into()),
    }
}

/// The configuration that the members of an object stand for.
fn configuration<C: ConfigurationForm>(alloc: Global, text: &str) -> Result<C, Fail> {
    Ok(C::from_tree(alloc, &members(alloc, text)?)?)
}

/// A configuration: its text, what it prints, and the text of another one.
#[derive(Clone, Copy)]
struct Kind<'a> {
    text: &'a str,
    printed: &'a str,
    other: &'a str,
}

/// The configurations that the text and the other text stand for.
fn pair<C: ConfigurationForm>(alloc: Global, kind: &Kind) -> Result<(C, C), Fail> {
    Ok((
        configuration(alloc, kind.text)?,
        configuration(alloc, kind.other)?,
    ))
}

/// The copy of a configuration prints what it is to print, and is equal to its original. The other configuration isn't.
fn check_copy<C, F>(rt: &(impl Abort + AllocGlobal), copy: F, kind: &Kind) -> Result<(), Fail>
where
    C: ConfigurationForm + Display + PartialEq,
    F: Fn(&C) -> Result<C, AllocError>,
    requires { F.IsAlwaysCallable copy }
{
    let (configuration, other) = pair(rt.alloc(), kind)?;
    let copied: C = copy(&configuration)?;
    check_that(
        rt,
        copied == configuration && other != configuration,
        kind.text,
    );
    Ok(check_text(rt, &copied, kind.printed)?)
}

const BOUNDED: Kind<'static> = Kind {
    text: r#"{"chunk_shape":[1,2,3]}"#,
    printed: r#"regular chunk grid {"chunk_shape":[1,2,3]}"#,
    other: r#"{"chunk_shape":[1,2]}"#,
};

const RECTANGULAR: Kind<'static> = Kind {
    text: r#"{"chunk_shape":[[5,5],10,[5,1],[]]}"#,
    printed: r#"rectangular chunk grid {"chunk_shape":[[5,5],10,[5,1],[]]}"#,
    other: r#"{"chunk_shape":[[5,5],[10],[5,1],[]]}"#,
};

const RECTILINEAR: Kind<'static> = Kind {
    text: r#"{"chunk_shapes":[[[5,3],20],10,[]],"kind":"inline"}"#,
    printed: r#"rectilinear chunk grid {"chunk_shapes":[[[5,3],20],10,[]],"kind":"inline"}"#,
    other: r#"{"chunk_shapes":[[5,5,5,20],10,[]],"kind":"inline"}"#,
};

const DOT: Kind<'static> = Kind {
    text: r#"{"separator":"."}"#,
    printed: r#"{"separator":"."}"#,
    other: r#"{"separator":"/"}"#,
};

const SLASH: Kind<'static> = Kind {
    text: r#"{"separator":"/"}"#,
    printed: r#"{"separator":"/"}"#,
    other: r#"{"separator":"."}"#,
};

#[test]
fn configurations_of_grids_are_copied(rt: HostRuntime) -> Result<(), Fail> {
    check_copy(&rt, RegularBoundedChunkGridConfiguration::clone, &BOUNDED)?;
    check_copy(&rt, RectangularChunkGridConfiguration::clone, &RECTANGULAR)?;
    check_copy(&rt, RectilinearChunkGridConfiguration::clone, &RECTILINEAR)
}

#[test]
fn configurations_of_encodings_are_copied(rt: HostRuntime) -> Result<(), Fail> {
    check_copy(&rt, DefaultChunkKeyEncodingConfiguration::clone, &DOT)?;
    check_copy(&rt, DefaultChunkKeyEncodingConfiguration::clone, &SLASH)?;
    check_copy(&rt, V2ChunkKeyEncodingConfiguration::clone, &DOT)?;
    check_copy(&rt, V2ChunkKeyEncodingConfiguration::clone, &SLASH)
}

/// The configuration that the text stands for has this separator and this suffix, and its copy is written as the text.
fn check_suffix(
    rt: &(impl Abort + AllocGlobal),
    separator: ChunkKeySeparator,
    suffix: &str,
    text: &str,
) -> Result<(), Fail> {
    let read: DefaultSuffixChunkKeyEncodingConfiguration = configuration(rt.alloc(), text)?;
    check_that(rt, read.separator == separator, text);
    check_same(rt, read.suffix.as_str(), suffix);
    let copy = read.clone()?;
    check_that(rt, copy == read, text);
    check_same(rt, copy.to_text(rt.alloc())?.as_str(), text);
    Ok(())
}

/// The escapes are those that the JSON standard asks for: a quote, a backslash, and what lies below U+0020.
#[test]
fn suffixes_are_copied_and_written(rt: HostRuntime) -> Result<(), Fail> {
    let (slash, dot) = (ChunkKeySeparator::Slash, ChunkKeySeparator::Dot);
    let rows = [
        (slash, ".tiff", r#"{"separator":"/","suffix":".tiff"}"#),
        (dot, ".tiff", r#"{"separator":".","suffix":".tiff"}"#),
        (dot, "", r#"{"separator":".","suffix":""}"#),
        (slash, "/a", r#"{"separator":"/","suffix":"/a"}"#),
        (slash, "\"", r#"{"separator":"/","suffix":"\""}"#),
        (dot, "a\\b", r#"{"separator":".","suffix":"a\\b"}"#),
        (slash, "\n\t", r#"{"separator":"/","suffix":"\n\t"}"#),
        (
            dot,
            "\x00\x01",
            r#"{"separator":".","suffix":"\u0000\u0001"}"#,
        ),
        (slash, "\x7fé", "{\"separator\":\"/\",\"suffix\":\"\x7fé\"}"),
    ];
    for (separator, suffix, text) in rows {
        check_suffix(&rt, separator, suffix, text)?;
    }
    Ok(())
}

/// The metadata are equal to their copy, which is written as this text.
fn check_written(
    rt: &(impl Abort + AllocGlobal),
    metadata: &MetadataV3,
    text: &str,
) -> Result<(), AllocError> {
    let copy = metadata.clone()?;
    check_that(rt, copy == *metadata, text);
    check_same(rt, written(rt.alloc(), &copy)?.as_str(), text);
    Ok(())
}

/// What metadata are written as.
fn written(alloc: Global, metadata: &MetadataV3) -> Result<String, AllocError> {
    metadata.to_tree(alloc)?.to_string(alloc)
}

/// The metadata that a text stands for, and the same moved out of the tree.
fn read(alloc: Global, text: &str) -> Result<(MetadataV3, MetadataV3), Fail> {
    let tree = Value::from_slice(alloc, text.as_bytes())?;
    let metadata = MetadataV3::from_tree(alloc, &tree)?;
    Ok((metadata, MetadataV3::from_value(alloc, tree)?))
}

/// The metadata that a text stands for are written as the other text. They are the same where they are moved out of the tree.
fn check_metadata(rt: &(impl Abort + AllocGlobal), text: &str, written: &str) -> Result<(), Fail> {
    let (metadata, moved) = read(rt.alloc(), text)?;
    check_that(rt, metadata == moved, text);
    Ok(check_written(rt, &metadata, written)?)
}

#[test]
fn metadata_is_read(rt: HostRuntime) -> Result<(), Fail> {
    let full = r#"{"configuration":{"chunk_shape":[1]},"name":"regular"}"#;
    let more = r#"{"name":"x","configuration":{},"must_understand":false,"other":1}"#;
    let rows = [
        (r#""regular""#, r#""regular""#),
        (r#"{"name":"regular"}"#, r#""regular""#),
        (full, full),
        (more, r#"{"configuration":{},"name":"x"}"#),
        (r#"{"name":""}"#, r#""""#),
    ];
    for (text, written) in rows {
        check_metadata(&rt, text, written)?;
    }
    Ok(())
}
