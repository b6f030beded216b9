// Sums with what was done.
ghost use Rattle.std.specs.Prelude.{◌≡◌, OnOk, OnErr};
ghost use Rattle.join_book.specs.Answers.{Adds};

use lists::NoMemory;
use over_module::{Done, Over, Verdict};

// Adds the module of what was done, if it has one.
pub(crate) fn add_done(sum: &mut Over, done: &Done) -> Result<(), NoMemory>
    requires { done.now.curve ≡ sum.old.curve }
    ensures curve { sum.new.curve ≡ sum.old.curve }
    ensures adds { OnOk result (Adds sum.old done.now sum.new) }
    ensures kept { OnErr result (sum.new ≡ sum.old) }
{
    match done.verdict() {
        Verdict::Finished(over) => *sum = sum.sum(over)?,
        Verdict::TooLarge => {}
    }
    Ok(())
}
