ghost use Rattle.std.specs.Prelude.{◌≡◌};
ghost use Rattle.masm_instr.specs.Table.{takes};

// The greatest element's number.
pub(crate) const GREATEST: u128 = 18446744069414584320;

/// The numbers that an instruction takes.
#[derive(Clone, Copy)]
pub struct Form {
    /// At least so many.
    pub least: usize,
    /// At most so many.
    pub most: usize,
    /// Whether a number may be given by a constant.
    pub constants: bool,
    /// The least that each number may be.
    pub low: u128,
    /// The greatest that each number may be.
    pub high: u128,
}

pub(crate) const NO_NUMBER: Form = Form {
    least: 0,
    most: 0,
    constants: false,
    low: 0,
    high: 0,
};

// none or one, an element
pub(crate) const ONE_ELEMENT: Form = Form {
    least: 0,
    most: 1,
    constants: true,
    low: 0,
    high: GREATEST,
};

// none or one, of 32 bits
pub(crate) const ONE_U32: Form = Form {
    least: 0,
    most: 1,
    constants: true,
    low: 0,
    high: 4294967295,
};

// none or one, by which a number of 32 bits is shifted
pub(crate) const ONE_AMOUNT: Form = Form {
    least: 0,
    most: 1,
    constants: true,
    low: 0,
    high: 31,
};

// a local's number, of any size here
pub(crate) const ONE_LOCAL: Form = Form {
    least: 1,
    most: 1,
    constants: true,
    low: 0,
    high: u128::MAX,
};

pub(crate) fn takes(least: usize, most: usize, constants: bool, low: u128, high: u128) -> Form
    ensures { result ≡ takes least most constants low high }
{
    Form {
        least,
        most,
        constants,
        low,
        high,
    }
}
