//! Laws of records, as contracts of functions that do nothing. Call one to use its law in a proof.

ghost use Rattle.artery_wire.specs.Laws.{FieldsAreRead, FaultIsRead, FieldsAreLongest, NumbersAreRead, PackedFaultIsRead, WrittenIsRead, VarintIsWritten, VarintIsShortest};

/// The fields that a cursor gives are the one list that stands for the bytes; or the longest list
/// of whole fields, and then the first fault.
#[tactic(auto, using(crate::proofs::ReadingLaws::field_laws))]
pub fn fields_stand()
    ensures whole { FieldsAreRead }
    ensures fault { FaultIsRead }
    ensures longest { FieldsAreLongest }
{}

/// The same of the numbers of a packed field.
#[tactic(auto, using(crate::proofs::ReadingLaws::number_laws))]
pub fn numbers_stand()
    ensures whole { NumbersAreRead }
    ensures fault { PackedFaultIsRead }
{}

/// Fields that were written are read again, and a number is written as its shortest varint.
#[tactic(auto, using(crate::proofs::Written::written_laws))]
pub fn written_is_read()
    ensures read { WrittenIsRead }
    ensures varint { VarintIsWritten }
    ensures shortest { VarintIsShortest }
{}
