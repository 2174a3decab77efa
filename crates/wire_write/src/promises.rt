// What is promised of written answers, as a contract: its proof is the theorem's.
ghost use Rattle.wire_write.specs.Answers.{WrittenMeans, NumberFirst, ValuesTell};

// An answer that was written means itself; its bytes begin with its number, which with its values tells it from every other.
pub fn written_answers_stand()
    ensures means { WrittenMeans }
    ensures number { NumberFirst }
    ensures values { ValuesTell }
{}
