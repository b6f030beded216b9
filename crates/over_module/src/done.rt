// What was done for a point.
ghost use Rattle.std.specs.Prelude.{◌≡◌};
ghost use Rattle.over_module.specs.Done.{IsDone};
ghost use Rattle.over_module.specs.declared.done.Verdict.TheVariants.{Finished, TooLarge};

use super::over::Over;
use curve_model::Point;
use polys::Curve;
use std::marker::Model;
use std::sync::Arc;

/// The module of a point, or that its delta is above the limit.
#[derive(Drop)]
pub enum Verdict {
    /// Exactly the fractions that are local at the point.
    Finished(Over),
    /// Delta of the point is above the limit.
    TooLarge,
}

/// The work on a point, with its own input: the curve, the point, its stratum, and the limit of delta.
///
/// Whoever makes one knows that the verdict is right. The curve of a finished module is that of the module.
#[derive(Drop)]
pub struct Done {
    apart: Option<Arc<Curve>>,
    point: Point,
    stratum: u32,
    limit: u32,
    verdict: Verdict,
}

impl Model for Done {
    ghost use Rattle.over_module.specs.Done.{DoneData, IsDone, HasOneCurve, curve_of};

    ghost Value = { DoneData };

    ghost view = { λ d. record { curve = curve_of d.apart d.verdict; point = d.point; stratum = d.stratum; limit = d.limit; verdict = d.verdict } };

    ghost invariant = { λ d. HasOneCurve d.apart d.verdict
        × IsDone (record { curve = curve_of d.apart d.verdict; point = d.point; stratum = d.stratum; limit = d.limit; verdict = d.verdict }) };
}

impl Done {
    ghost use Rattle.over_module.specs.Done.{DoneData, IsDone};

    /// The module `over` has exactly the fractions that are local at the point, and its dimension is delta and at most the limit,
    /// which is 1 to 64. It takes no memory.
    pub fn finished(point: Point, stratum: u32, limit: u32, over: Over) -> Done
        requires { IsDone (record { curve = over.curve; point = point; stratum = stratum; limit = limit; verdict = Finished over }) }
        ensures { result ≡ record { curve = over.curve; point = point; stratum = stratum; limit = limit; verdict = Finished over } }
    {
        Done {
            apart: None,
            point,
            stratum,
            limit,
            verdict: Verdict::Finished(over),
        }
    }

    /// Delta of the point is above the limit, which is 1 to 64. It takes no memory.
    pub fn too_large(curve: Arc<Curve>, point: Point, stratum: u32, limit: u32) -> Done
        requires { IsDone (record { curve = curve.value; point = point; stratum = stratum; limit = limit; verdict = TooLarge }) }
        ensures { result ≡ record { curve = curve.value; point = point; stratum = stratum; limit = limit; verdict = TooLarge } }
    {
        Done {
            apart: Some(curve),
            point,
            stratum,
            limit,
            verdict: Verdict::TooLarge,
        }
    }

    /// The curve.
    pub fn curve(&self) -> &Arc<Curve>
        ensures { result.now.value ≡ self.now.curve }
    {
        match &self.apart {
            Some(curve) => curve,
            None => match &self.verdict {
                Verdict::Finished(over) => over.curve(),
                Verdict::TooLarge => unreachable!(),
            },
        }
    }

    /// The point.
    pub fn point(&self) -> &Point
        ensures { result.now ≡ self.now.point }
    {
        &self.point
    }

    /// The number of the point.
    pub fn stratum(&self) -> u32
        ensures { result ≡ self.now.stratum }
    {
        self.stratum
    }

    /// The limit of delta.
    pub fn limit(&self) -> u32
        ensures { result ≡ self.now.limit }
    {
        self.limit
    }

    /// The verdict.
    pub fn verdict(&self) -> &Verdict
        ensures value { result.now ≡ self.now.verdict }
        ensures known { IsDone self.now }
    {
        &self.verdict
    }
}
