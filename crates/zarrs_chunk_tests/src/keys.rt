//! Chunk key encodings: how they are made and copied, and the laws.
use crate::compared::check_same;
use std::alloc::{AllocError, Global};
use std::process::Abort;
use std::test::Fail;
use zarrs_chunk_base::ChunkKeySeparator;
use zarrs_chunk_keys::laws::{
    a_chunk_has_one_key, a_default_key_names_one_chunk, a_key_is_read_back,
    keys_read_as_one_chunk_are_equal,
};
use zarrs_chunk_keys::{
    ChunkKeyEncoding, ChunkKeyEncodingTraits, DefaultChunkKeyEncoding,
    DefaultSuffixChunkKeyEncoding, V2ChunkKeyEncoding,
};

/// The encoding with dots and the suffix `.x`.
fn suffixed(alloc: Global) -> Result<ChunkKeyEncoding, Fail> {
    let suffix = String::from_str(alloc, ".x")?;
    match DefaultSuffixChunkKeyEncoding::new(ChunkKeySeparator::Dot, suffix) {
        Ok(encoding) => Ok(encoding.into()),
        Err(_) => Err("the suffix is refused".into()),
    }
}

/// The metadata of an encoding, as they are written.
fn written(alloc: Global, encoding: &ChunkKeyEncoding) -> Result<String, AllocError> {
    encoding.metadata(alloc)?.to_tree(alloc)?.to_string(alloc)
}

/// The encoding that is created of the metadata of an encoding's copy.
fn again(alloc: Global, encoding: &ChunkKeyEncoding) -> Result<ChunkKeyEncoding, Fail> {
    let metadata = encoding.clone()?.metadata(alloc)?;
    Ok(ChunkKeyEncoding::create(alloc, &metadata)?)
}

/// The metadata of an encoding, and behind them the key of the chunk `[1, 23]`.
fn described(alloc: Global, encoding: &ChunkKeyEncoding) -> Result<String, Fail> {
    let mut text = written(alloc, encoding)?;
    encoding.append_key(&mut text, &[1, 23])?;
    Ok(text)
}

/// What is created of the metadata of an encoding's copy has these metadata and this key.
fn check_made(
    rt: &(impl Abort + AllocGlobal),
    encoding: ChunkKeyEncoding,
    expected: &str,
) -> Result<(), Fail> {
    let again = again(rt.alloc(), &encoding)?;
    check_same(rt, described(rt.alloc(), &again)?.as_str(), expected);
    Ok(())
}

const DEFAULT_DOT: &str = r#"{"configuration":{"separator":"."},"name":"default"}c.1.23"#;

const DEFAULT_SLASH: &str = r#"{"configuration":{"separator":"/"},"name":"default"}c/1/23"#;

const V2_DOT: &str = r#"{"configuration":{"separator":"."},"name":"v2"}1.23"#;

const V2_SLASH: &str = r#"{"configuration":{"separator":"/"},"name":"v2"}1/23"#;

const SUFFIXED: &str =
    r#"{"configuration":{"separator":".","suffix":".x"},"name":"zarrs.default_suffix"}c.1.23.x"#;

#[test]
fn default_encodings_are_made_and_copied(rt: HostRuntime) -> Result<(), Fail> {
    let dots = DefaultChunkKeyEncoding::new(ChunkKeySeparator::Dot);
    check_made(&rt, dots.into(), DEFAULT_DOT)?;
    check_made(&rt, DefaultChunkKeyEncoding::new_dot().into(), DEFAULT_DOT)?;
    check_made(
        &rt,
        DefaultChunkKeyEncoding::new_slash().into(),
        DEFAULT_SLASH,
    )?;
    check_made(
        &rt,
        DefaultChunkKeyEncoding::default().into(),
        DEFAULT_SLASH,
    )
}

#[test]
fn encodings_of_the_other_kinds_are_made_and_copied(rt: HostRuntime) -> Result<(), Fail> {
    let slashes = V2ChunkKeyEncoding::new(ChunkKeySeparator::Slash);
    check_made(&rt, slashes.into(), V2_SLASH)?;
    check_made(&rt, V2ChunkKeyEncoding::new_dot().into(), V2_DOT)?;
    check_made(&rt, V2ChunkKeyEncoding::new_slash().into(), V2_SLASH)?;
    check_made(&rt, V2ChunkKeyEncoding::default().into(), V2_DOT)?;
    check_made(&rt, suffixed(rt.alloc())?, SUFFIXED)
}

#[test]
fn the_laws_of_keys_are_called() {
    a_chunk_has_one_key();
    keys_read_as_one_chunk_are_equal();
    a_default_key_names_one_chunk();
    a_key_is_read_back(&ChunkKeyEncoding::from(DefaultChunkKeyEncoding::new_dot()));
}

/// The copy of a suffix that is handed back.
fn handed_back(alloc: Global, suffix: &str) -> Result<String, Fail> {
    let suffix = String::from_str(alloc, suffix)?;
    match DefaultSuffixChunkKeyEncoding::new(ChunkKeySeparator::Dot, suffix) {
        Ok(_) => Err("the suffix is accepted".into()),
        Err(error) => Ok(error.clone()?.0),
    }
}

#[test]
fn a_suffix_that_ends_in_a_slash_is_handed_back(rt: HostRuntime) -> Result<(), Fail> {
    check_same(&rt, handed_back(rt.alloc(), "x/")?.as_str(), "x/");
    Ok(())
}
