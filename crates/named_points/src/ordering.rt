// Points in byte order of their texts.
ghost use Rattle.std.specs.Prelude.{◌≡◌, ◌≢◌, map, IfOk, OnOk, AllPairs};
ghost use Rattle.std.specs.List.Sorted.{IsPermutation};
ghost use Rattle.named_points.specs.Ordering.{AreInTextOrder, Comes, HaveDistinctTexts, with_own_text};

use curve_model::Point;
use lists::{List, NoMemory};
use norm_text::print_list;
use problem::Letters;
use std::alloc::{AllocError, Global};

/// A point with the text of its basis.
#[derive(Drop)]
pub(crate) struct TextPoint {
    pub point: Point,
    pub text: List<u8>,
}

// The point with its text.
fn with_text(alloc: Global, letters: &Letters, point: Point) -> Result<TextPoint, NoMemory>
    ensures { IfOk result (λ made. made ≡ with_own_text letters.now point) }
{
    let mut text = List::new(alloc);
    print_list(letters, point.basis.as_slice(), &mut text)?;
    Ok(TextPoint { point, text })
}

// Each point with its text.
fn with_texts(
    alloc: Global,
    letters: &Letters,
    points: List<Point>,
) -> Result<Vec<TextPoint>, NoMemory>
    ensures { IfOk result (λ made. made.items ≡ map (with_own_text letters.now) points) }
{
    let mut made = Vec::new(alloc);
    for point in points.into_vec() {
        let next = with_text(alloc, letters, point)?;
        made.push(next)?;
    }
    Ok(made)
}

// Brings the points into byte order of their texts.
fn sort_by_texts(points: &mut Vec<TextPoint>) -> Result<(), AllocError>
    requires distinct { AllPairs (λ a b. a.text ≢ b.text) points.old.items }
    ensures same { IsPermutation points.old.items points.new.items }
    ensures rising { OnOk result (AllPairs (λ a b. Comes a.text b.text) points.new.items) }
{
    points.sort_by(|a, b| a.text.as_slice().cmp(b.text.as_slice()))?;
    Ok(())
}

// The points alone.
fn without_texts(alloc: Global, points: Vec<TextPoint>) -> Result<List<Point>, NoMemory>
    ensures { IfOk result (λ made. made ≡ map (λ a. a.point) points.items) }
{
    let mut made = List::new(alloc);
    for a in points {
        let TextPoint { point, text: _ } = a;
        made.push(point)?;
    }
    Ok(made)
}

// The same points in byte order of their texts, which are distinct.
pub(crate) fn ordered(
    alloc: Global,
    letters: &Letters,
    points: List<Point>,
) -> Result<List<Point>, NoMemory>
    requires distinct { HaveDistinctTexts letters.now points }
    ensures same { IfOk result (λ made. IsPermutation points made) }
    ensures rising { IfOk result (AreInTextOrder letters.now) }
{
    let mut sorted = with_texts(alloc, letters, points)?;
    sort_by_texts(&mut sorted)?;
    let made = without_texts(alloc, sorted)?;
    Ok(made)
}
