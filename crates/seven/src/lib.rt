// An answer as seven numbers in a slice, written and read (`numbers_of`, rule/specs/Answer.antt).
// Nothing here knows a link or a record.
#![tactic(auto)]

ghost use Rattle.std.specs.Prelude.{◌≡◌, ◌+◌, ◌≤◌, length};
ghost use Rattle.std.proofs.lemmas.List.Edits.{sets};
ghost use Rattle.rule.specs.Answer.{numbers_of};

use rule::answer::Answer;

// An answer's seven numbers at a place of the slice. One by one, for the sake of speed, as in `numbers::words::put`.
pub fn write(answers: &mut [u64], at: usize, a: Answer)
    requires { at + 7 ≤ length answers.old }
    ensures { answers.new ≡ sets answers.old at (numbers_of a) }
{
    answers[at] = a.code;
    answers[at + 1] = a.channel;
    answers[at + 2] = a.line;
    answers[at + 3] = a.start;
    answers[at + 4] = a.finish;
    answers[at + 5] = a.count;
    answers[at + 6] = a.dropped;
}

// The answer whose seven numbers these are.
pub fn read(numbers: &[u64]) -> Answer
    requires { length numbers.now ≡ 7 }
    ensures { numbers_of result ≡ numbers.now }
{
    let numbers: [u64; 7] = numbers.try_into().unwrap();
    numbers.into()
}
