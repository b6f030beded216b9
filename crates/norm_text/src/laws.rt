// The laws of answers: each function has an empty body, and its contract is the law.
ghost use Rattle.norm_text.specs.Plain.{PlainAnswers};
ghost use Rattle.norm_text.specs.Examples.{AtNames, AtPassesBy};
ghost use Rattle.norm_text.specs.Meaning.{ModulesAreIntegral, ModulesAreLocal, PowersAreLeast, AnswersAreOne, TextsAreOne};
ghost use Rattle.norm_text.specs.Named.{OneNamedList};
ghost use Rattle.norm_text.specs.Reading.{AnswerTextsTell};

use poly_text::texts_tell_polynomials;

/// Where nothing is left modulo a regular denominator and no points are named, the ring is its own closure: there is no
/// point, the power is 0, and the one numerator is 1.
pub fn plain_problems_have_plain_answers()
    ensures { PlainAnswers }
{}

/// What an answer says of fractions. Where the problem names no points, a fraction lies in the printed module exactly where it
/// is integral, and the printed power is the least that serves; else it lies there exactly where it is integral and local at
/// the named points.
pub fn answers_decide_integrality()
    ensures integral { ModulesAreIntegral }
    ensures least { PowersAreLeast }
    ensures local { ModulesAreLocal }
{}

/// A problem has one list of named points, and with a denominator one answer and one text of it.
pub fn answers_are_one()
    ensures points { OneNamedList }
    ensures answers { AnswersAreOne }
    ensures texts { TextsAreOne }
{}

/// On the cusp the statement `at x, y;` names the origin, and `at x-1;` does not.
pub fn statements_name_points()
    ensures names { AtNames }
    ensures passes_by { AtPassesBy }
{}

/// The text of data in range tells the data: no text is that of two.
pub fn answer_texts_tell()
    ensures { AnswerTextsTell }
{
    texts_tell_polynomials();
}
