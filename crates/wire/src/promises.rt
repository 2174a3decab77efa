// What is promised of the bytes, as contracts: each function's proof is the theorem's.
ghost use Rattle.wire.specs.Answers.{AnswerIsBytes, AnswerRoundTrip, AnswersApart, LettersHandOn};
ghost use Rattle.wire.specs.Codec.{WrittenIsBytes, RoundTrip, Injective, WrittenBack, ReadIsReadable, PlaceIsExact};
ghost use Rattle.wire.specs.Sizes.{EventFits, AnswerFits, AnswerIsFine};

// What is written is bytes; reading it gives the event back, so no two events have the same bytes.
pub fn round_trip_stands()
    ensures bytes { WrittenIsBytes }
    ensures back { RoundTrip }
    ensures apart { Injective }
{}

// Bytes that are read as an event are that event's, and what is read is readable.
pub fn written_back_stands()
    ensures bytes { WrittenBack }
    ensures event { ReadIsReadable }
{}

// The place of a refusal is the length of the longest beginning that some event has.
pub fn place_is_exact()
    ensures { PlaceIsExact }
{}

// What is written of an answer is bytes; reading it gives the answer back, so no two answers have the same bytes.
pub fn answers_stand()
    ensures bytes { AnswerIsBytes }
    ensures back { AnswerRoundTrip }
    ensures apart { AnswersApart }
{}

// A letter can be cut out by its length and handed on unread: its bytes are those of the event.
pub fn letters_hand_on()
    ensures { LettersHandOn }
{}

// How many bytes an event that passes its checks has at most, and an answer; and what is answered can be read back.
pub fn sizes_stand()
    ensures event { EventFits }
    ensures answer { AnswerFits }
    ensures fine { AnswerIsFine }
{}
