//! What holds of the library's chunk key encodings. What every encoding has to prove, one of another crate too, is the law of
//! [`ChunkKeyEncodingTraits`](crate::ChunkKeyEncodingTraits). A law makes no call: where it is about a call, it holds of every answer that the
//! contract of the call allows.
ghost use Rattle.std.specs.Prelude.{◌≡◌, ◌↔◌, ℕ, List, Option, Some, Vec, length, option_map};
ghost use Rattle.std.specs.declared.alloc.Global.{Global};
ghost use Rattle.zarrs_chunk_base.specs.declared.chunk_key_separator.ChunkKeySeparator.{ChunkKeySeparator};
ghost use Rattle.zarrs_chunk_base.specs.declared.plugin_create_error.PluginCreateError.{PluginCreateError};
ghost use Rattle.zarrs_chunk_base.specs.Greatest.{AllFit};
ghost use Rattle.zarrs_chunk_base.specs.Kinds.{IsMetadata};
ghost use Rattle.zarrs_chunk_base.specs.Metadata.{Extension};
ghost use Rattle.zarrs_chunk_keys.specs.ChunkKey.{Encoding, IsKey, default_keys, suffixed_keys};
ghost use Rattle.zarrs_chunk_keys.specs.Decoded.{IsDecoded};
ghost use Rattle.zarrs_chunk_keys.specs.KeyKinds.{IsEncoding, IsEncodingFault, key_kind, kind_of};

use crate::ChunkKeyEncodingTraits;

/// Under one separator, and one suffix where there is one, a key of the `default` encoding is that of one list of numbers, whatever its length.
pub fn a_default_key_names_one_chunk()
    ensures default { (separator : ChunkKeySeparator) (chunk other key : List ℕ)
        → IsKey (default_keys separator) chunk key → IsKey (default_keys separator) other key
        → chunk ≡ other }
    ensures suffixed { (separator : ChunkKeySeparator) (suffix chunk other key : List ℕ)
        → IsKey (suffixed_keys separator suffix) chunk key
        → IsKey (suffixed_keys separator suffix) other key → chunk ≡ other }
{}

/// A chunk has one key under an encoding: any two are equal.
pub fn a_chunk_has_one_key()
    ensures { (encoding : Encoding) (chunk key other : List ℕ) → IsKey encoding chunk key
        → IsKey encoding chunk other → key ≡ other }
{}

/// What `decode` answers of a text is a chunk exactly where the text is a key of that chunk. So a key that `encode` writes is read back as its
/// chunk, under every encoding, one of another crate too.
pub fn a_key_is_read_back<E: ChunkKeyEncodingTraits>(encoding: &E)
    ensures { (chunk key : List ℕ) (answer : Option (Vec ℕ Global)) → AllFit chunk
        → IsDecoded (λ other. E.is_key encoding.now other key) (length chunk) answer
        → E.is_key encoding.now chunk key ↔ (option_map (λ v. v.items) answer ≡ Some chunk) }
{}

/// Two keys that are read as one chunk, as `decode` reads them, are equal.
pub fn keys_read_as_one_chunk_are_equal()
    ensures { (encoding : Encoding) (dimensionality : ℕ) (one other chunk : List ℕ)
        (read also : Option (Vec ℕ Global))
        → IsDecoded (λ chunk. IsKey encoding chunk one) dimensionality read
        → IsDecoded (λ chunk. IsKey encoding chunk other) dimensionality also
        → option_map (λ v. v.items) read ≡ Some chunk
        → option_map (λ v. v.items) also ≡ Some chunk → one ≡ other }
{}

/// An encoding is made again of its metadata: no fault of an encoding is theirs, and each encoding that is made of them is the same.
pub fn an_encoding_is_made_again_of_its_metadata()
    ensures accepted { (encoding : Encoding) (e : Extension)
        → IsMetadata (key_kind (kind_of encoding)) tt encoding e
        → (error : PluginCreateError) → ¬ IsEncodingFault e error }
    ensures same { (encoding again : Encoding) (e : Extension)
        → IsMetadata (key_kind (kind_of encoding)) tt encoding e
        → IsEncoding e again → again ≡ encoding }
{}
