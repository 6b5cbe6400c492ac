// Requests in few letters. As in the rules, d is the sheet written, a and b are sheets read, p is a place, v a value,
// c a code and q a quantifier.
use board::request::{Quantifier, Request};

pub fn blank(d: usize, v: bool) -> Request {
    Request::Blank { sheet: d, value: v }
}

pub fn atom(d: usize, p: usize) -> Request {
    Request::Atom { sheet: d, place: p }
}

pub fn join(d: usize, a: usize, b: usize, c: u8) -> Request {
    Request::Join {
        sheet: d,
        left: a,
        right: b,
        code: c,
    }
}

pub fn flip(d: usize) -> Request {
    Request::Flip { sheet: d }
}

pub fn quantify(d: usize, a: usize, p: usize, q: Quantifier) -> Request {
    Request::Quantify {
        sheet: d,
        from: a,
        place: p,
        quantifier: q,
    }
}

pub fn fix(d: usize, a: usize, p: usize, v: bool) -> Request {
    Request::Fix {
        sheet: d,
        from: a,
        place: p,
        value: v,
    }
}
