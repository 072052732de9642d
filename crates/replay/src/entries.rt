// The elementary functions, kinds 1 to 11.

use crate::record::Record;
use floats::Refusal;

fn answer_to(kind: u64, a: f64, b: f64, c: f64) -> Result<f64, Refusal> {
    match kind {
        1 => rounded::sqrt::sqrt(a),
        2 => floats::round::round(a),
        3 => floats::ceil::ceil(a),
        4 => floats::max::max(a, b),
        5 => floats::min::min(a, b),
        6 => elementary::exp::exp(a),
        7 => elementary::exp_m1::exp_m1(a),
        8 => elementary::ln::ln(a),
        9 => elementary::powf::powf(a, b),
        10 => rounded::mul_add::mul_add(a, b, c),
        _ => floats::midpoint::midpoint(a, b),
    }
}

// Whether the answer is the number, the place and the value that the record holds.
pub(crate) fn same(record: &Record) -> bool {
    let answer = answer_to(
        record.word(0),
        record.float(86),
        record.float(87),
        record.float(88),
    );
    let (refusal, value) = match answer {
        Ok(x) => (None, x),
        Err(refusal) => (Some(refusal), 0.0),
    };
    record.is_refused(refusal) && value == record.float(95)
}
