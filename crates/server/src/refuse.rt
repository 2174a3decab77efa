// What is answered without doing anything: a refusal, with its number and place.
ghost use Rattle.std.specs.Prelude.{◌≡◌, ◌≤◌, length};
ghost use Rattle.servers.specs.Server.{refused};
ghost use Rattle.wire_write.specs.Answers.{answer_of};
ghost use Rattle.wire.specs.Write.{write_answer};
ghost use Rattle.checks.specs.Outcome.{refusal_number, refusal_place};
ghost use Rattle.server.specs.Answered.{Begins};

use checks::refusal::Refusal;
use wire_write::answer::Answer;
use wire_write::writer::Writer;

pub fn refuse(out: &mut [u8], refusal: Refusal) -> Answer
    requires room { 10 ≤ length out.old }
    ensures answer { result ≡ answer_of (refused (refusal_number refusal) (refusal_place refusal)) }
    ensures bytes { Begins (write_answer (refused (refusal_number refusal) (refusal_place refusal)))
        out.old out.new }
{
    let number = refusal.number();
    let place = refusal.place();
    let mut to = Writer { out, at: 0 };
    to.refused(number, place);
    Answer::Refused(number, place)
}
