// A recording is read as it was written, and written as it was read.
#![tactic(auto)]

ghost use Rattle.round_trip.specs.Claims.{InOrder, WrittenIsRead, WriterTakes, ReadIsWritten};

// What a writer writes in order reads back as the same frames, and it takes every list of frames that a recording can hold.
// Its law stands in an answer: the search doesn't take it by `using`.
pub fn written_is_read()
    ensures { InOrder × WrittenIsRead × WriterTakes }
{}

// A read file whose chain takes all its records in order is written back as the same bytes.
#[tactic(auto, using(crate::proofs::Writing::read_again))]
pub fn read_is_written()
    ensures { ReadIsWritten }
{}
