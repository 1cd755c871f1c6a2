// A whole list of calls is answered, each answer in a part of its own.
#![tactic(auto)]

ghost use Rattle.std.specs.Prelude.{◌≡◌, ◌+◌, ◌*◌, ◌≤◌, length, take, drop};
ghost use Rattle.lamps.specs.Calls.{Board as Wall, Answer as Said};
ghost use Rattle.matrix.specs.Cells.{width_of};
ghost use Rattle.calls.specs.Saying.{meant, written};
ghost use Rattle.desk.specs.Holding.{Holds, Performs};
ghost use Rattle.desk.specs.Places.{held, InPlace};
ghost use Rattle.session.specs.Lent.{answer_bytes};
ghost use Rattle.batch.specs.Answered.{Stands, AnswersAll};

use calls::Call;
use desk::Memory;

// Performs a call and writes its answer into the answers, from `at` on.
fn answer_one(memory: &mut Memory, call: Call, row: &mut [u64], answers: &mut [u8], at: usize)
    requires row { length row.old ≡ width_of memory.old.board.lamps }
    requires room { at + answer_bytes memory.old.board.lamps ≤ length answers.old }
    ensures performs { (b : Wall) → Holds (held memory.old) b → (a : Said) × Performs (held memory.old) (held memory.new) b (meant call) a × (length (written a) ≤ answer_bytes memory.old.board.lamps) × Stands a answers.new at }
    ensures before { take at answers.new ≡ take at answers.old }
    ensures after { drop (at + answer_bytes memory.old.board.lamps) answers.new ≡ drop (at + answer_bytes memory.old.board.lamps) answers.old }
    ensures place { InPlace memory.old memory.new }
{
    let size = session::asked(memory.board).answer;
    let said = memory.perform(call, row);
    let _ = calls::write_answer(said, row, &mut answers[at..at + size]);
}

// Answers each of the calls, with a part of the answers for each: a byte for each eight lamps and 16 more.
pub fn answer_each(memory: &mut Memory, calls: &[Call], row: &mut [u64], answers: &mut [u8])
    requires row { length row.old ≡ width_of memory.old.board.lamps }
    requires room { length calls.now * answer_bytes memory.old.board.lamps ≤ length answers.old }
    ensures answers { (b : Wall) → Holds (held memory.old) b → AnswersAll (held memory.new) b calls.now (answer_bytes memory.old.board.lamps) answers.new (length calls.now) }
    ensures place { InPlace memory.old memory.new }
{
    let size = session::asked(memory.board).answer;
    for (k, call) in calls.iter().enumerate() {
        answer_one(memory, *call, row, answers, k * size);
    }
}
