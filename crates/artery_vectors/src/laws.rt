//! What the vectors are by the definitions of the crates below. Their functions do nothing.
ghost use Rattle.std.specs.Prelude.{◌≡◌, ◌-◌, ◌^◌, [], ◌∷◌, pos, drop, Ok};
ghost use Rattle.artery_frame.specs.Stream.{framed};
ghost use Rattle.artery_header.specs.Envelope.{Literal, Index, read_of};
ghost use Rattle.artery_vectors.specs.declared.fields.TheConstants.{NEGATIVE_SERIALIZER, VALUES};
ghost use Rattle.artery_vectors.specs.declared.frames.TheConstants.{HANDSHAKE_REQUEST, HANDSHAKE_ANSWER, NUMBERED_MESSAGE, ACKNOWLEDGEMENT, SECOND_TELL};
ghost use Rattle.artery_wire.specs.Writing.{field_bytes, record_bytes, uint_field};

/// A law, with no code: each frame begins with four bytes that tell the length of what is behind them,
/// the lowest first.
pub fn frames_are_framed()
    ensures request { HANDSHAKE_REQUEST ≡ framed (drop 4 HANDSHAKE_REQUEST) }
    ensures answer { HANDSHAKE_ANSWER ≡ framed (drop 4 HANDSHAKE_ANSWER) }
    ensures numbered { NUMBERED_MESSAGE ≡ framed (drop 4 NUMBERED_MESSAGE) }
    ensures acknowledgement { ACKNOWLEDGEMENT ≡ framed (drop 4 ACKNOWLEDGEMENT) }
    ensures tell { SECOND_TELL ≡ framed (drop 4 SECOND_TELL) }
{}

/// A law, with no code: serializer -1 is written as the number modulo 2^64, and the values 0 and 1 each in
/// a field of their own.
#[tactic(auto, unfolding(artery_wire::specs::Writing::field_bytes, artery_wire::specs::Writing::varint_of, artery_wire::specs::Writing::digits_within))]
pub fn fields_are_written()
    ensures serializer { field_bytes (uint_field 2 (2 ^ 64 - 1)) ≡ NEGATIVE_SERIALIZER }
    ensures values { record_bytes (uint_field 5 0 ∷ uint_field 5 1 ∷ []) ≡ VALUES }
{}

/// A law, with no code: the second tell is the envelope of incarnation 1 with tables of version 1 and
/// serializer 4, without a sender, for the first reference and with the first manifest, and payload 00ff.
#[tactic(auto, unfolding(artery_header::specs::Envelope::read_of, artery_header::specs::Envelope::body_of, artery_header::specs::Envelope::name_at, artery_header::specs::Envelope::text_at))]
pub fn second_tell_is_read()
    ensures { read_of (drop 4 SECOND_TELL) ≡ Ok (record { uid = 1; refs_version = 1; manifests_version = 1; serializer = pos 4; sender = Literal []; recipient = Index 0; manifest = Index 0; payload = 0 ∷ 255 ∷ [] }) }
{}
