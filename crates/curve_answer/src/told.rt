// What is told of a problem.
use curve_model::Point;
use norm_text::Answer;

/// The answer to a problem, or the first named point, in byte order of the points' texts, whose delta is above the limit.
#[derive(Drop)]
pub enum Told {
    /// The answer.
    Answer(Answer),
    /// Delta of this point is above the limit.
    Above(Point),
}
