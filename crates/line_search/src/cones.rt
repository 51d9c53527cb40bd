//! The two extreme lines that part the left ends of portals from the right ends, in numbers of 64 bits. Nothing is proved of them.

use sight_names::Pt;

/// A line in the numbers of a ray: its value is above 0 at points on its left.
#[derive(Clone, Copy)]
pub struct Line {
    pub a: i32,
    pub b: i32,
    pub c: i64,
}

/// An end of a portal, in numbers as wide as those of lines: so none is made wider where lines are turned.
#[derive(Clone, Copy)]
pub struct End {
    pub x: i64,
    pub y: i64,
}

/// A line: its value is above 0 at points on its left.
#[derive(Clone, Copy)]
struct Form {
    a: i64,
    b: i64,
    c: i64,
}

/// The most clockwise and the most counterclockwise line that part left ends from right ends, each with the two ends that it goes
/// through. Of the first one's right end and of the second one's left end it is known how many ends come before the next one.
#[derive(Clone, Copy)]
pub struct Cone {
    first: Form,
    second: Form,
    first_left: End,
    first_right: End,
    second_left: End,
    second_right: End,
    rights: u32,
    lefts: u32,
}

/// The point as an end.
#[inline(always)]
pub fn end_at(at: Pt) -> End {
    End {
        x: at.x as i64,
        y: at.y as i64,
    }
}

/// The line's value at the end.
#[inline(always)]
fn value(form: &Form, end: End) -> i64 {
    form.a
        .wrapping_mul(end.x)
        .wrapping_add(form.b.wrapping_mul(end.y))
        .wrapping_add(form.c)
}

impl Line {
    /// The line's value at the point.
    #[inline(always)]
    pub fn level(&self, at: Pt) -> i64 {
        (self.a as i64)
            .wrapping_mul(at.x as i64)
            .wrapping_add((self.b as i64).wrapping_mul(at.y as i64))
            .wrapping_add(self.c)
    }
}

/// The line from the one end to the other.
#[inline(always)]
fn form_of(from: End, to: End) -> Form {
    let a = from.y.wrapping_sub(to.y);
    let b = to.x.wrapping_sub(from.x);
    let at = a.wrapping_mul(from.x).wrapping_add(b.wrapping_mul(from.y));
    Form {
        a,
        b,
        c: 0i64.wrapping_sub(at),
    }
}

/// The coefficient; one that doesn't fit is none of a ray.
pub fn narrow(value: i64) -> i32 {
    match i32::try_from(value) {
        Ok(number) => number,
        Err(_) => 0,
    }
}

/// The ends from this place on.
#[inline(always)]
fn behind(ends: &[End], from: u32) -> &[End] {
    &ends[(from as usize).min(ends.len())..]
}

impl Cone {
    /// The lines of one portal.
    pub fn of(left: End, right: End) -> Cone {
        Cone {
            first: form_of(right, left),
            second: form_of(left, right),
            first_left: left,
            first_right: right,
            second_left: left,
            second_right: right,
            rights: 1,
            lefts: 1,
        }
    }

    /// Whether some line passes on the left of the end.
    #[inline(always)]
    pub fn leads_left(&self, apex: End) -> bool {
        value(&self.first, apex) < 0
    }

    /// Whether some line passes on the right of the end.
    #[inline(always)]
    pub fn leads_right(&self, apex: End) -> bool {
        value(&self.second, apex) > 0
    }

    /// Turns the second line about left ends to the new right end.
    #[inline(always)]
    pub fn turn_second(&mut self, lefts: &[End], right: End) {
        let mut left = self.second_left;
        let mut form = form_of(left, right);
        let mut place = self.lefts;
        let mut next = self.lefts;
        for end in behind(lefts, self.lefts) {
            next = next.wrapping_add(1);
            if value(&form, *end) <= 0 {
                left = *end;
                form = form_of(left, right);
                place = next;
            }
        }
        self.second = form;
        self.second_left = left;
        self.second_right = right;
        self.lefts = place;
    }

    /// Turns the first line about right ends to the new left end.
    #[inline(always)]
    pub fn turn_first(&mut self, rights: &[End], left: End) {
        let mut right = self.first_right;
        let mut form = form_of(right, left);
        let mut place = self.rights;
        let mut next = self.rights;
        for end in behind(rights, self.rights) {
            next = next.wrapping_add(1);
            if value(&form, *end) >= 0 {
                right = *end;
                form = form_of(right, left);
                place = next;
            }
        }
        self.first = form;
        self.first_left = left;
        self.first_right = right;
        self.rights = place;
    }

    /// A line between the two.
    pub fn between(&self) -> Line {
        let across = self
            .first
            .a
            .wrapping_mul(self.second.b)
            .wrapping_sub(self.first.b.wrapping_mul(self.second.a));
        if across == 0 {
            self.line_across()
        } else {
            self.line_between()
        }
    }

    /// Where both are one line: a line across it, between the two ends of the portal.
    fn line_across(&self) -> Line {
        let x = self.first_left.x.wrapping_sub(self.first_right.x);
        let y = self.first_left.y.wrapping_sub(self.first_right.y);
        let at = x
            .wrapping_mul(self.first_left.x)
            .wrapping_add(y.wrapping_mul(self.first_left.y));
        Line {
            a: narrow(x.wrapping_mul(2)),
            b: narrow(y.wrapping_mul(2)),
            c: 1i64.wrapping_sub(at.wrapping_mul(2)),
        }
    }

    /// A line in the middle of the two, moved a little off the end where they meet.
    fn line_between(&self) -> Line {
        let shift = if self.first_right.x == self.second_right.x
            && self.first_right.y == self.second_right.y
        {
            -1i64
        } else {
            1i64
        };
        Line {
            a: narrow(self.first.a.wrapping_add(self.second.a).wrapping_mul(2)),
            b: narrow(self.first.b.wrapping_add(self.second.b).wrapping_mul(2)),
            c: self
                .first
                .c
                .wrapping_add(self.second.c)
                .wrapping_mul(2)
                .wrapping_add(shift),
        }
    }
}
