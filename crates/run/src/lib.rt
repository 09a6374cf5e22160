// A run of points, handed on by itself: its strip, its box and its split point, found in one pass that reads each point
// once.
#![tactic(auto)]

ghost use Rattle.std.specs.Prelude.{◌≡◌, ◌≤◌, ◌<◌};
ghost use Rattle.rules.specs.Plane.{c_at, t_at};
ghost use Rattle.rules.specs.Sheet.{most, segments_of};
ghost use Rattle.limits.specs.Small.{OnSheet, Small};
ghost use Rattle.run.specs.Run.{AllOnSheet, span_of, span_with, top_with, ends_of, measured_with, measure_of};

use integers::magnitude;
use line::{c_at, direction, point_at, size2, step, t_at};
use rules::Point;

// The least and the greatest of some numbers.
#[derive(Drop)]
pub struct Span {
    pub lo: i64,
    pub hi: i64,
}

// The point that a run splits at, and its absolute c.
#[derive(Drop)]
pub struct Top {
    pub split: usize,
    pub height: u64,
}

// What is measured of a run: its strip, its box and its split point, which is counted from the run's first point.
#[derive(Drop)]
pub struct Measured {
    pub c: Span,
    pub t: Span,
    pub x: Span,
    pub y: Span,
    pub top: Top,
}

impl Span {
    fn of(a: i64, b: i64) -> Span
        ensures { result ≡ span_of a b }
    {
        Span {
            lo: a.min(b),
            hi: a.max(b),
        }
    }

    fn with(self, v: i64) -> Span
        ensures { result ≡ span_with self v }
    {
        Span {
            lo: self.lo.min(v),
            hi: self.hi.max(v),
        }
    }
}

impl Top {
    // The top, or point i, which is not below it, where that is better. Of two points, the later is nearer to the
    // middle exactly when they add up to less than last.
    fn with(self, last: usize, i: usize, height: u64) -> Top
        requires { (self.split ≤ i) × (i ≤ last) × (last < most) }
        ensures { result ≡ top_with last self i height }
    {
        let top = self.height;
        if top < height {
            return Top { split: i, height };
        }
        if height < top {
            return self;
        }
        if i + self.split < last {
            return Top { split: i, height };
        }
        self
    }
}

impl Measured {
    // The two ends a and b alone: c is 0 at both, t is 0 at a and at b the square of the step, which is 0 where they
    // are equal. Point 1 stands for the split until it is read.
    fn ends(a: Point, b: Point) -> Measured
        requires { OnSheet a × OnSheet b }
        ensures { result ≡ ends_of a b }
    {
        Measured {
            c: Span { lo: 0, hi: 0 },
            t: Span {
                lo: 0,
                hi: size2(step(a, b)),
            },
            x: Span::of(a.x, b.x),
            y: Span::of(a.y, b.y),
            top: Top {
                split: 1,
                height: 0,
            },
        }
    }

    // One point more: point i of a run to point last, with s and u.
    fn with(self, s: Point, u: Point, last: usize, i: usize, p: Point) -> Measured
        requires { OnSheet s × Small u × OnSheet p × (self.top.split ≤ i) × (i ≤ last) × (last < most) }
        ensures { result ≡ measured_with self (c_at s u p) (t_at s u p) p last i }
    {
        let c = c_at(s, u, p);
        let t = t_at(s, u, p);
        Measured {
            c: self.c.with(c),
            t: self.t.with(t),
            x: self.x.with(p.x),
            y: self.y.with(p.y),
            top: self.top.with(last, i, magnitude(c)),
        }
    }
}

// A run of one segment or more: its ends, and then each inner point.
pub fn measure(run: &[i64]) -> Measured
    requires { AllOnSheet run.now × (0 < segments_of run.now) × (segments_of run.now < most) }
    ensures { result ≡ measure_of run.now }
{
    let last = run.len() / 2 - 1;
    let s = point_at(run, 0);
    let e = point_at(run, last);
    let u = direction(s, e);
    let mut m = Measured::ends(s, e);
    for i in 1..last {
        m = m.with(s, u, last, i, point_at(run, i));
    }
    m
}
