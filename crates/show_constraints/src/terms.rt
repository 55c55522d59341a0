//! What constraints that are sums over operations are for one operation (docs/CONSTRAINTS.md).
ghost use Rattle.std.specs.Prelude.{◌≡◌, map, option_map};
ghost use Rattle.show_constraints.specs.Terms.{is_among, term_as_said, term_in, term_of, terms};

use vm_ops::{Op, opcode};

/// What the constraint of a number is for some operations.
#[derive(Clone, Copy)]
pub(crate) struct Term {
    number: u16,
    ops: &'static [Op],
    text: &'static str,
}

const TERMS: [Term; 17] = [
    Term {
        number: 119,
        ops: &[Op::Eqz],
        text: "s0' - 1 + s0 w0",
    },
    Term {
        number: 119,
        ops: &[Op::Eq],
        text: "s0' - 1 + (s0 - s1) w0",
    },
    Term {
        number: 119,
        ops: &[Op::Inv],
        text: "s0 s0' - 1",
    },
    Term {
        number: 135,
        ops: &[Op::Eqz],
        text: "s0 s0'",
    },
    Term {
        number: 136,
        ops: &[Op::Eq],
        text: "(s0 - s1) s0'",
    },
    Term {
        number: 137,
        ops: &[Op::Not, Op::And, Op::Or, Op::CSwap, Op::CSwapW],
        text: "s0 (s0 - 1)",
    },
    Term {
        number: 138,
        ops: &[Op::And, Op::Or],
        text: "s1 (s1 - 1)",
    },
    Term {
        number: 144,
        ops: &[Op::U32Sub],
        text: "s0' (s0' - 1)",
    },
    Term {
        number: 145,
        ops: &[Op::U32Split],
        text: "s0 - r",
    },
    Term {
        number: 145,
        ops: &[Op::U32Add],
        text: "s0 + s1 - r",
    },
    Term {
        number: 145,
        ops: &[Op::U32Add3],
        text: "s0 + s1 + s2 - r",
    },
    Term {
        number: 145,
        ops: &[Op::U32Mul],
        text: "s0 s1 - r",
    },
    Term {
        number: 145,
        ops: &[Op::U32MAdd],
        text: "s0 s1 + s2 - r",
    },
    Term {
        number: 145,
        ops: &[Op::U32Sub],
        text: "s1 - s0 - s1' + 2^32 s0'",
    },
    Term {
        number: 145,
        ops: &[Op::U32Div],
        text: "s1 - s0 s1' - s0'",
    },
    Term {
        number: 146,
        ops: &[Op::U32Split, Op::U32Mul, Op::U32MAdd],
        text: "(1 - (2^32 - 1 - s0') w0) s1'",
    },
    Term {
        number: 147,
        ops: &[Op::U32Div],
        text: "s0 - L(6) - 1 - L(8)",
    },
];

/// The term of the constraint of this number for the operation of its row; none where it has none, or says of a cell what must be in it.
pub fn term_of(number: u16, op: Option<Op>) -> Option<&'static str>
    ensures { option_map (λ text. text.now) result ≡ term_of number op }
{
    match op {
        Some(op) => term_in(number, op, every_term()),
        None => None,
    }
}

#[tactic(auto, unfolding(crate::specs::Terms::terms))]
fn every_term() -> &'static [Term]
    ensures { map term_as_said result.now ≡ terms }
{
    &TERMS
}

#[tactic(auto, unfolding(crate::specs::Terms::term_in))]
fn term_in(number: u16, op: Op, terms: &[Term]) -> Option<&'static str>
    ensures { option_map (λ text. text.now) result ≡ term_in number op (map term_as_said terms.now) }
{
    match terms {
        [] => None,
        [term, terms @ ..] => {
            if number == term.number && is_among(op, term.ops) {
                Some(term.text)
            } else {
                term_in(number, op, terms)
            }
        }
    }
}

#[tactic(auto, unfolding(crate::specs::Terms::is_among))]
fn is_among(op: Op, ops: &[Op]) -> bool
    ensures { result ≡ is_among op ops.now }
{
    match ops {
        [] => false,
        [other, ops @ ..] => opcode(op) == opcode(*other) || is_among(op, ops),
    }
}
