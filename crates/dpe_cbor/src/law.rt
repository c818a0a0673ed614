//! Laws of the encoding and of the decoders, for those who reason about them.
ghost use Rattle.std.specs.Prelude.{ℕ, Option};
ghost use Rattle.dpe_cbor.specs.Item.{uint, bytes, text, bool};
ghost use Rattle.dpe_cbor.specs.Encoding.{Enc, IsHead};
ghost use Rattle.dpe_cbor.specs.Decoding.{IsDecoder, argument_of, content_of, text_of, bool_of, key_of};
ghost use Rattle.dpe_cbor.specs.Law.{OneEncoding, NoneBeginsAnother, IsKey};

/// An item has one encoding, and no encoding is a proper prefix of another (RFC 8949, 4.2.1).
pub fn one_encoding()
    ensures one { OneEncoding }
    ensures prefix { NoneBeginsAnother }
{}

/// What the decoders of `specs/` read at the front of a list is what is encoded there.
pub fn decoders()
    ensures uint { IsDecoder (argument_of 0) (λ n. Enc (uint n)) }
    ensures bytes { IsDecoder (content_of 2) (λ s. Enc (bytes s)) }
    ensures text { IsDecoder text_of (λ s. Enc (text s)) }
    ensures bool { IsDecoder bool_of (λ b. Enc (bool b)) }
    ensures array { IsDecoder (argument_of 4) (IsHead 4) }
    ensures map { IsDecoder (argument_of 5) (IsHead 5) }
    ensures key { (last : Option ℕ) → IsDecoder (key_of last) (IsKey last) }
{}
