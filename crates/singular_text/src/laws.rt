// The law of texts, as the contract of a function that does nothing.
ghost use Rattle.singular_text.specs.Meanings.{TextsStateProblems};

use polys::polynomials_are_a_ring;
use prime_field::characteristics_are_prime;

/// What a text of the grammar states, where nothing is wrong with it, is a problem.
pub fn texts_state_problems()
    ensures { TextsStateProblems }
{
    characteristics_are_prime();
    polynomials_are_a_ring();
}
